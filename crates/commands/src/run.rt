//! `run`: the linked programs of a property, over the captures of a case.

ghost use Rattle.run_job.specs.Course.{Task, run_course};
ghost use Rattle.run_job.specs.Views.{task_of};
ghost use Rattle.linked_jobs.specs.Views.{IsLinkedJob};
ghost use Rattle.commands.specs.Job as jobs;
ghost use Rattle.commands.specs.Output.{Outputs};

use command_steps::Steps;
use job_course::{Output, Stop};
use linked_jobs::LinkedJob;
use linked_run::run_linked;
use outside::Store;
use run_job::load_run;
use simplify_rules::RuleSet;
use std::alloc::{AllocError, Global};
use switch_benches::Bench;

/// The names of the case's file and of what is written, and the rules whose answers stand in linked programs.
#[derive(Clone, Copy)]
pub struct RunSteps<'a> {
    pub case: &'a str,
    pub out: &'a str,
    pub rules: &'a RuleSet,
}

impl<'a, B: Bench> Steps<B> for RunSteps<'a> {
    type Read = LinkedJob;

    ghost Found = { Task };

    ghost view = { task_of };

    ghost course = { λ s. run_course s.case.now };

    ghost is_read = { λ s job. IsLinkedJob job };

    ghost Job = { jobs.Job };

    ghost job_of = { λ s task. jobs.run task s.out.now };

    ghost outputs = { Outputs };

    /// Reads the files of the case, and links what they hold.
    fn read<S: Store>(&self, alloc: Global, store: &mut S) -> Result<LinkedJob, Stop> {
        load_run(alloc, store, self.case)
    }

    /// Runs the linked programs at the switches.
    fn make(&self, alloc: Global, bench: &mut B, job: LinkedJob) -> Result<Output, AllocError> {
        run_linked(alloc, bench, job, self.out, self.rules)
    }
}
