//! The made case, and its job.

ghost use Rattle.std.specs.Prelude.{◌≡◌, [], IfOk, OnOk};
ghost use Rattle.outside.specs.Files.{Files};
ghost use Rattle.outside.specs.State.{StoreState};
ghost use Rattle.outside.specs.SureStore.{surely_held};
ghost use Rattle.job_course.specs.Output.{files_of};
ghost use Rattle.job_course.specs.Steps.{Follows};
ghost use Rattle.load_maker.specs.Made.{made_files};
ghost use Rattle.linked_jobs.specs.Views.{IsLinkedJob};
ghost use Rattle.load_job.specs.Course.{load_course};
ghost use Rattle.load_job.specs.Views.{task_in};
ghost use Rattle.load_job.specs.Within.{held_by};

use job_course::Stop;
use linked_jobs::LinkedJob;
use load_maker::make_load;
use outside::SureStore;
use run_job::load_run;
use std::alloc::{AllocError, Global};

/// The files of a made case, and the job of `run` on them.
#[derive(Drop)]
pub struct MadeJob {
    pub files: Vec<(String, Vec<u8>)>,
    pub job: LinkedJob,
}

/// The made case of the number `n`, with names that begin with `out`. Nothing outside is asked for.
pub fn load_made(alloc: Global, n: u64, out: &str) -> Result<MadeJob, Stop>
    ensures follows { (s : StoreState) → Follows (load_course n out.now) task_in s s result }
    ensures files { IfOk result (λ m. files_of m.files.items ≡ made_files n out.now) }
    ensures read { IfOk result (λ m. IsLinkedJob m.job) }
{
    let files = make_load(alloc, n, out)?;
    let mut store = SureStore::new(alloc);
    hold(alloc, &mut store, &files)?;
    let name = format!(in alloc; "{out}.case.json")?;
    let job = load_run(alloc, &mut store, name.as_str())?;
    Ok(MadeJob { files, job })
}

/// Holds these files. Of two with one name the first is held.
fn hold(alloc: Global, store: &mut SureStore, files: &[(String, Vec<u8>)]) -> Result<(), AllocError>
    requires { surely_held store.old ≡ held_by [] }
    ensures { OnOk result (surely_held store.new ≡ held_by (files_of files.now)) }
{
    let mut left = files.len();
    while left > 0 {
        left -= 1;
        let (name, bytes) = &files[left];
        store.hold(alloc, name.as_str(), bytes)?;
    }
    Ok(())
}
