//! `link`: the linked programs of a case, which are written and not run.

ghost use Rattle.run_job.specs.Course as run_job;
ghost use Rattle.run_job.specs.Course.{linked_course};
ghost use Rattle.run_job.specs.Views.{IsLinkedBase, base_of};
ghost use Rattle.commands.specs.Job as jobs;
ghost use Rattle.commands.specs.Output.{Outputs};

use command_steps::Steps;
use job_course::{Output, Stop};
use link_run::write_linked;
use outside::Store;
use run_job::{Base, load_linked};
use simplify_rules::RuleSet;
use std::alloc::{AllocError, Global};

/// The names of the case's file and of what is written, and the rules whose answers stand in linked programs.
#[derive(Clone, Copy)]
pub struct LinkSteps<'a> {
    pub case: &'a str,
    pub out: &'a str,
    pub rules: &'a RuleSet,
}

impl<'a, B> Steps<B> for LinkSteps<'a> {
    type Read = Base;

    ghost Found = { run_job.Base };

    ghost view = { base_of };

    ghost course = { λ s. linked_course s.case.now };

    ghost is_read = { λ s base. IsLinkedBase base };

    ghost Job = { jobs.Job };

    ghost job_of = { λ s base. jobs.link base s.out.now };

    ghost outputs = { Outputs };

    /// Reads the files of the case up to what is linked.
    fn read<S: Store>(&self, alloc: Global, store: &mut S) -> Result<Base, Stop> {
        load_linked(alloc, store, self.case)
    }

    /// Writes what is linked.
    fn make(&self, alloc: Global, _with: &mut B, base: Base) -> Result<Output, AllocError> {
        write_linked(alloc, base, self.out, self.rules)
    }
}
