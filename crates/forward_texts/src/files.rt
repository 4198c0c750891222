//! Texts as files.

ghost use Rattle.std.specs.Prelude.{◌≡◌, ◌∷◌, [], ◌++◌, OnOk, string_bytes};
ghost use Rattle.job_course.specs.Output.{files_of};

use std::alloc::{AllocError, Global};

/// A file goes behind the others: its name is the front of all names and an ending.
pub fn put_text(
    alloc: Global,
    files: &mut Vec<(String, Vec<u8>)>,
    out: &str,
    ending: &str,
    text: String,
) -> Result<(), AllocError>
    ensures { OnOk result (files_of files.new.items
        ≡ files_of files.old.items ++ (out.now ++ ending.now, string_bytes text) ∷ []) }
{
    let name = format!(in alloc; "{out}{ending}")?;
    files.push((name, text.into_bytes()))?;
    Ok(())
}
