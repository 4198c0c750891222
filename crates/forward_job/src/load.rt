//! The files of a case, one after the other.

ghost use Rattle.std.specs.Prelude.{IfOk};
ghost use Rattle.p4_tree.specs.View.{program_of};
ghost use Rattle.case_file.specs.Views.{case_view};
ghost use Rattle.table_file.specs.Laws.{AreOf};
ghost use Rattle.job_course.specs.Steps.{Follows};
ghost use Rattle.case_course.specs.Views.{ground_of};
ghost use Rattle.forward_run.specs.Job.{IsReady};
ghost use Rattle.forward_run.specs.Views.{job_of};
ghost use Rattle.forward_job.specs.Course.{forward_course, loaded_course};

use case_course::{Ground, load_ground, load_packets};
use case_file::Case;
use forward_run::ForwardJob;
use job_course::Stop;
use network_course::{case_in, load_value};
use outside::Store;
use std::alloc::Global;
use table_course::{load_events, load_tables};

/// The entries, the captures and the schedule.
fn load_rest<S: Store>(
    alloc: Global,
    store: &mut S,
    name: &str,
    case: &Case<'_>,
    ground: Ground,
) -> Result<ForwardJob, Stop>
    ensures follows { Follows (loaded_course name.now (case_view case.now) (ground_of ground)) job_of (S.state store.old) (S.state store.new) result }
    ensures tables { IfOk result (λ j. AreOf (program_of j.program) j.network.names j.tables.items) }
{
    let Ground {
        program,
        network,
        places,
    } = ground;
    let tables = load_tables(alloc, store, case.entries, &program, &network)?;
    let loaded = load_packets(alloc, store, name, case, places)?;
    let count = loaded.packets.len() as u32;
    let events = load_events(alloc, store, case.schedule, count, None, &network)?;
    Ok(ForwardJob {
        program,
        network,
        hops: case.hops,
        tables,
        packets: loaded.packets,
        times: loaded.times,
        events,
    })
}

/// The job of the case of this name.
pub fn load_forward<S: Store>(alloc: Global, store: &mut S, name: &str) -> Result<ForwardJob, Stop>
    ensures follows { Follows (forward_course name.now) job_of (S.state store.old) (S.state store.new) result }
    ensures ready { IfOk result (λ j. IsReady (job_of j)) }
{
    let value = load_value(alloc, store, name)?;
    let case = case_in(alloc, name, &value, false)?;
    let ground = load_ground(alloc, store, name, &case)?;
    load_rest(alloc, store, name, &case, ground)
}
