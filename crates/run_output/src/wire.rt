//! What `wire` writes of a run.

ghost use Rattle.std.specs.Prelude.{◌≡◌, ◌++◌, ◌∷◌, [], codes, map, All, IfOk, OnOk};
ghost use Rattle.p4_tree.specs.View.{program_of};
ghost use Rattle.p4_printer.specs.CanSpell.{CanSpell};
ghost use Rattle.job_course.specs.Output.{files_of, out_of};
ghost use Rattle.path_runner.specs.Packets.{sent_of};
ghost use Rattle.forward_texts.specs.Switches.{log_view};
ghost use Rattle.run_output.specs.Ends.{IsEnd};
ghost use Rattle.run_output.specs.Wire.{IsWire, frame_files};
ghost use Rattle.run_output.specs.Views.{parts_view};

use crate::output::{RunParts, summary};
use job_course::Output;
use p4_machine::Pass;
use path_runner::{RunLog, Sent};
use run_texts::{put_programs, reports_text};
use std::alloc::{AllocError, Global};

/// What `wire` writes of a run: the files of the programs, the frames that left, and for the sink the
/// lines of the reports and the summary.
///
/// # Errors
///
/// `AllocError` where memory runs out.
pub fn wire_output_of<P: Pass>(
    alloc: Global,
    parts: &RunParts<'_>,
    out: &str,
    log: &RunLog<P>,
) -> Result<Output, AllocError>
    requires end { IsEnd (parts_view parts.now).programs (log_view P.program P.tables P.cells log.now) }
    requires spelled { All (λ t. CanSpell (program_of t)) parts.now.programs.now }
    ensures { IfOk result (λ o. IsWire out.now (parts_view parts.now) (log_view P.program P.tables P.cells log.now) (out_of o)) }
{
    let mut files = Vec::new(alloc);
    put_programs(alloc, &mut files, out, &log.net, parts.programs)?;
    put_frames(alloc, &mut files, out, &log.edges)?;
    let mut text = reports_text(alloc, &log.net, &log.told)?;
    let counts = summary(alloc, parts, log)?;
    text.push_str(counts.as_str())?;
    Ok(Output { files, text })
}

/// The files of the frames that left go behind the others.
fn put_frames(
    alloc: Global,
    files: &mut Vec<(String, Vec<u8>)>,
    out: &str,
    frames: &[Sent],
) -> Result<(), AllocError>
    ensures { OnOk result (files_of files.new.items ≡ files_of files.old.items ++ frame_files out.now (map sent_of frames.now)) }
{
    for sent in frames {
        put_frame(alloc, files, out, &sent.frame)?;
    }
    Ok(())
}

/// So does the file of one.
fn put_frame(
    alloc: Global,
    files: &mut Vec<(String, Vec<u8>)>,
    out: &str,
    frame: &[u8],
) -> Result<(), AllocError>
    ensures { OnOk result (files_of files.new.items ≡ files_of files.old.items ++ (out.now ++ codes ".frame", frame.now) ∷ []) }
{
    let name = format!(in alloc; "{out}.frame")?;
    let bytes = frame.to_vec(alloc)?;
    files.push((name, bytes))?;
    Ok(())
}
