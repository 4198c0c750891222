//! `wire`: a property linked into the built-in program, and one raw frame at three switches.

ghost use Rattle.run_job.specs.Course.{Task};
ghost use Rattle.run_job.specs.Views.{task_of};
ghost use Rattle.wire_job.specs.Course.{wire_course};
ghost use Rattle.linked_jobs.specs.Views.{IsLinkedJob};
ghost use Rattle.commands.specs.Job as jobs;
ghost use Rattle.commands.specs.Output.{Outputs};

use command_steps::Steps;
use job_course::{Output, Stop};
use linked_jobs::LinkedJob;
use linked_run::run_wire;
use outside::Store;
use simplify_rules::RuleSet;
use std::alloc::{AllocError, Global};
use switch_benches::Bench;
use wire_job::load_wire;

/// The names of the files of the property, of the frame and of what is written, and the rules whose answers stand in
/// linked programs.
#[derive(Clone, Copy)]
pub struct WireSteps<'a> {
    pub property: &'a str,
    pub frame: &'a str,
    pub out: &'a str,
    pub rules: &'a RuleSet,
}

impl<'a, B: Bench> Steps<B> for WireSteps<'a> {
    type Read = LinkedJob;

    ghost Found = { Task };

    ghost view = { task_of };

    ghost course = { λ s. wire_course s.property.now s.frame.now };

    ghost is_read = { λ s job. IsLinkedJob job };

    ghost Job = { jobs.Job };

    ghost job_of = { λ s task. jobs.wire task s.out.now };

    ghost outputs = { Outputs };

    /// Reads the files of the property and of the frame, and links.
    fn read<S: Store>(&self, alloc: Global, store: &mut S) -> Result<LinkedJob, Stop> {
        load_wire(alloc, store, self.property, self.frame)
    }

    /// Runs the linked programs on the frame.
    fn make(&self, alloc: Global, bench: &mut B, job: LinkedJob) -> Result<Output, AllocError> {
        run_wire(alloc, bench, job, self.out, self.rules)
    }
}
