//! The files of the case.

ghost use Rattle.std.specs.Prelude.{◌≡◌, IfOk, OnOk};
ghost use Rattle.job_course.specs.Output.{files_of};
ghost use Rattle.json_parts.specs.Json.{IsJson};
ghost use Rattle.load_maker.specs.Made.{made_files, case_text};
ghost use Rattle.load_maker.specs.Values.{case_data};

use crate::captures::{capture, capture_name};
use crate::draws::packets;
use crate::fabric::HOSTS;
use crate::files::case_files;
use std::alloc::{AllocError, Global};

/// The files of the made case of the number `n`, with names that begin with `out`, in the order in
/// which they are written.
///
/// # Errors
///
/// `AllocError` alone, where memory runs out.
pub fn make_load(alloc: Global, n: u64, out: &str) -> Result<Vec<(String, Vec<u8>)>, AllocError>
    ensures files { IfOk result (λ files. files_of files.items ≡ made_files n out.now) }

    // The case file reads as its value.
    ensures case { OnOk result (IsJson (case_text out.now) (case_data out.now)) }
{
    let packets = packets(alloc, n)?;
    let mut files = case_files(alloc, out)?;
    for host in 0..HOSTS {
        let bytes = capture(alloc, host, &packets)?;
        files.push((capture_name(alloc, out, host)?, bytes))?;
    }
    Ok(files)
}
