//! A job with answers of rules in its linked programs.

ghost use Rattle.std.specs.Prelude.{◌≡◌, IfOk};
ghost use Rattle.linked_jobs.specs.Views.{IsLinkedJob, IsSimplerJob, job_of};

use linked_jobs::LinkedJob;
use program_linker::simplify_linked;
use simplify_rules::RuleSet;
use std::alloc::{AllocError, Global};

/// The same job, with answers of the rules in its linked programs.
pub(crate) fn simplified(
    alloc: Global,
    job: LinkedJob,
    rules: &RuleSet,
) -> Result<LinkedJob, AllocError>
    requires { IsLinkedJob job }
    ensures same { IfOk result (λ j. job_of j ≡ job_of job) }
    ensures simpler { IfOk result IsSimplerJob }
{
    let LinkedJob {
        property,
        program,
        linked,
        network,
        hops,
        room,
        tables,
        contents,
        packets,
        times,
        events,
    } = job;
    let linked = simplify_linked(alloc, linked, rules)?;
    Ok(LinkedJob {
        property,
        program,
        linked,
        network,
        hops,
        room,
        tables,
        contents,
        packets,
        times,
        events,
    })
}
