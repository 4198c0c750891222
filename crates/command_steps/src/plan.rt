//! One step after the other.

ghost use Rattle.job_course.specs.Plan.{Plans};
ghost use Rattle.command_steps.specs.Whole.{whole};

use crate::steps::Steps;
use job_course::{Output, Stop};
use outside::Store;
use std::alloc::Global;

/// Reads the job, and makes what is written of it.
pub(crate) fn plan<S: Store, W, T: Steps<W>>(
    alloc: Global,
    store: &mut S,
    with: &mut W,
    steps: &T,
) -> Result<Output, Stop>
    ensures { Plans T.outputs (whole (T.course steps.now) (T.job_of steps.now)) (S.state store.old) (S.state store.new) result }
{
    let read = steps.read(alloc, store)?;
    let output = steps.make(alloc, with, read)?;
    Ok(output)
}
