//! `forward`: a program without a property, over the captures of a case.

ghost use Rattle.forward_job.specs.Course.{forward_course};
ghost use Rattle.forward_run.specs.Job as forward_job;
ghost use Rattle.forward_run.specs.Job.{IsReady};
ghost use Rattle.forward_run.specs.Views.{job_of};
ghost use Rattle.commands.specs.Job as jobs;
ghost use Rattle.commands.specs.Output.{Outputs};

use command_steps::Steps;
use forward_job::load_forward;
use forward_run::{ForwardJob, run_forward};
use job_course::{Output, Stop};
use outside::Store;
use std::alloc::{AllocError, Global};
use switch_benches::Bench;

/// The names of the case's file and of what is written.
#[derive(Clone, Copy)]
pub struct ForwardSteps<'a> {
    pub case: &'a str,
    pub out: &'a str,
}

impl<'a, B: Bench> Steps<B> for ForwardSteps<'a> {
    type Read = ForwardJob;

    ghost Found = { forward_job.Job };

    ghost view = { job_of };

    ghost course = { λ s. forward_course s.case.now };

    ghost is_read = { λ s job. IsReady (job_of job) };

    ghost Job = { jobs.Job };

    ghost job_of = { λ s job. jobs.forward job s.out.now };

    ghost outputs = { Outputs };

    /// Reads the files of the case.
    fn read<S: Store>(&self, alloc: Global, store: &mut S) -> Result<ForwardJob, Stop> {
        load_forward(alloc, store, self.case)
    }

    /// Runs the program at every switch.
    fn make(&self, alloc: Global, bench: &mut B, job: ForwardJob) -> Result<Output, AllocError> {
        run_forward(alloc, bench, job, self.out)
    }
}
