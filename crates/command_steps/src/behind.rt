//! What is written behind files that were made before.

ghost use Rattle.std.specs.Prelude.{◌≡◌, ◌++◌, IfOk};
ghost use Rattle.job_course.specs.Output.{files_of, out_of};

use job_course::Output;
use std::alloc::AllocError;

/// These files, and behind them those of an output, with its text.
///
/// # Errors
///
/// `AllocError` where memory runs out.
pub fn put_behind(
    mut files: Vec<(String, Vec<u8>)>,
    mut output: Output,
) -> Result<Output, AllocError>
    ensures files { IfOk result (λ o. (out_of o).files ≡ files_of files.items ++ (out_of output).files) }
    ensures text { IfOk result (λ o. (out_of o).text ≡ (out_of output).text) }
{
    files.append(&mut output.files)?;
    Ok(Output {
        files,
        text: output.text,
    })
}
