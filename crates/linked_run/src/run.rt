//! The run of a job.

ghost use Rattle.std.specs.Prelude.{IfOk};
ghost use Rattle.job_course.specs.Output.{out_of};
ghost use Rattle.linked_jobs.specs.Views.{IsLinkedJob, job_of};
ghost use Rattle.linked_run.specs.Headline.{Headline, WireHeadline};

use crate::simplifying::simplified;
use crate::to_end::run_to_end;
use job_course::Output;
use linked_jobs::LinkedJob;
use run_output::{output_of, wire_output_of};
use simplify_rules::RuleSet;
use std::alloc::{AllocError, Global};
use switch_benches::Bench;

/// Puts answers of the rules into the linked programs, and runs these at the switches, from the first
/// event of the schedule to the end of each packet: the files of the run in order, and its summary for
/// the sink. The switches are those of the bench.
///
/// # Errors
///
/// `AllocError` where memory runs out.
pub fn run_linked<B: Bench>(
    alloc: Global,
    bench: &mut B,
    job: LinkedJob,
    out: &str,
    rules: &RuleSet,
) -> Result<Output, AllocError>
    requires { IsLinkedJob job }
    ensures { IfOk result (λ o. Headline (job_of job) out.now (out_of o)) }
{
    let job = simplified(alloc, job, rules)?;
    let end = run_to_end(alloc, bench, job)?;
    let parts = end.parts();
    output_of(alloc, &parts, out, &end.log)
}

/// The same, with what `wire` writes: the files of the programs, the frames that left, and for the sink
/// the lines of the reports and the summary.
///
/// # Errors
///
/// `AllocError` where memory runs out.
pub fn run_wire<B: Bench>(
    alloc: Global,
    bench: &mut B,
    job: LinkedJob,
    out: &str,
    rules: &RuleSet,
) -> Result<Output, AllocError>
    requires { IsLinkedJob job }
    ensures { IfOk result (λ o. WireHeadline (job_of job) out.now (out_of o)) }
{
    let job = simplified(alloc, job, rules)?;
    let end = run_to_end(alloc, bench, job)?;
    let parts = end.parts();
    wire_output_of(alloc, &parts, out, &end.log)
}
