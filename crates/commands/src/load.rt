//! `load`: the made case of a number, written and run.

ghost use Rattle.std.specs.Prelude.{◌≡◌, ◌==◌, ℕ, IfOk, slice_index};
ghost use Rattle.job_course.specs.Output.{files_of, out_of};
ghost use Rattle.linked_jobs.specs.Views.{IsLinkedJob, job_of};
ghost use Rattle.load_maker.specs.Made.{made_files};
ghost use Rattle.run_job.specs.Course.{Task};
ghost use Rattle.load_job.specs.Course.{load_course};
ghost use Rattle.load_job.specs.Views.{task_in};
ghost use Rattle.commands.specs.Job as jobs;
ghost use Rattle.commands.specs.Command.{number_in};
ghost use Rattle.commands.specs.Output.{LoadHeadline, Outputs};

use command_steps::{Steps, put_behind};
use job_course::{Output, Stop};
use linked_jobs::LinkedJob;
use linked_run::run_linked;
use load_job::{MadeJob, load_made};
use outside::Store;
use simplify_rules::RuleSet;
use std::alloc::{AllocError, Global};
use switch_benches::Bench;

/// The number of a made case, where the word is one.
pub fn number_of(word: &str) -> Option<u64>
    ensures { result ≡ number_in word.now }
{
    if word.len() > 20 || begins_with_plus(word) {
        return None;
    }
    word.parse::<u64>().ok()
}

fn begins_with_plus(word: &str) -> bool
    ensures { result ≡ (slice_index word.now 0 == 43) }
{
    word.starts_with('+')
}

/// The number of a made case, the front of the names of its files and of what is written, and the rules whose answers
/// stand in linked programs.
#[derive(Clone, Copy)]
pub struct LoadSteps<'a> {
    pub number: u64,
    pub out: &'a str,
    pub rules: &'a RuleSet,
}

impl<'a, B: Bench> Steps<B> for LoadSteps<'a> {
    type Read = MadeJob;

    ghost Found = { Task };

    ghost view = { task_in };

    ghost course = { λ s. load_course s.number s.out.now };

    ghost is_read = { λ s made. IsLinkedJob made.job × (files_of made.files.items ≡ made_files s.number s.out.now) };

    ghost Job = { jobs.Job };

    ghost job_of = { λ s task. jobs.load s.number task s.out.now };

    ghost outputs = { Outputs };

    /// Makes the case. The store is not asked for a file.
    fn read<S: Store>(&self, alloc: Global, _store: &mut S) -> Result<MadeJob, Stop> {
        load_made(alloc, self.number, self.out)
    }

    /// Runs the linked programs on the case, and writes its files and behind them those of the run.
    fn make(&self, alloc: Global, bench: &mut B, made: MadeJob) -> Result<Output, AllocError> {
        let MadeJob { files, job } = made;
        run_made(alloc, bench, files, job, self.out, self.rules)
    }
}

/// The files of a made case, and behind them those of its run.
fn run_made<B: Bench>(
    alloc: Global,
    bench: &mut B,
    files: Vec<(String, Vec<u8>)>,
    job: LinkedJob,
    out: &str,
    rules: &RuleSet,
) -> Result<Output, AllocError>
    requires { IsLinkedJob job }
    ensures { IfOk result (λ o. (n : ℕ) → files_of files.items ≡ made_files n out.now → LoadHeadline n (job_of job) out.now (out_of o)) }
{
    let ran = run_linked(alloc, bench, job, out, rules)?;
    put_behind(files, ran)
}
