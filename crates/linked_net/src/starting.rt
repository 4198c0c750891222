//! From a job to the net before its first event.

ghost use Rattle.std.specs.Prelude.{◌≡◌, false, map, All, IfOk};
ghost use Rattle.indus_tree.specs.View.{property_of};
ghost use Rattle.p4_tree.specs.View.{program_of};
ghost use Rattle.p4_printer.specs.CanSpell.{CanSpell};
ghost use Rattle.tele_layout.specs.Layouts.{IsLayoutOf};
ghost use Rattle.path_runner.specs.Views.{is_given_up, state_of};
ghost use Rattle.linked_starts.specs.Starts.{found_row};
ghost use Rattle.program_linker.specs.Simpler.{AreSimplyLinked};
ghost use Rattle.linked_jobs.specs.Job.{IsReady};
ghost use Rattle.linked_jobs.specs.Run as run;
ghost use Rattle.linked_jobs.specs.Views.{AreThese, job_of, programs_in, rows_in};
ghost use Rattle.linked_net.specs.Handed.{IsHandedOn};
ghost use Rattle.linked_net.specs.First.{IsFirst};

use crate::machines::net_before;
use crate::tables::loaded_switches;
use control_tables::ControlMap;
use event_room::jobs_have_room;
use indus_types::TypedProperty;
use linked_jobs::LinkedJob;
use network_file::Event;
use p4_machine::Pass;
use p4_types::TypedProgram;
use path_runner::Net;
use program_linker::Linked;
use run_captures::Time;
use simplified_links::simply_linked_can_be_loaded;
use std::alloc::{AllocError, Global};
use switch_benches::Bench;
use tele_layout::Layout;

/// The greatest length of a frame on a link without telemetry, in bytes.
const LINK: u32 = 65_535;

/// A run before its first event: the network of the linked programs, and what is needed behind it. That is
/// the property and the given program, the map and the layout of what is linked, the times of the packets,
/// the schedule, and how many packets there are.
#[derive(Drop)]
pub struct Started<P: Pass + Drop> {
    pub net: Net<P>,
    pub property: TypedProperty,
    pub program: TypedProgram,
    pub map: ControlMap,
    pub layout: Layout,
    pub times: Vec<Time>,
    pub events: Vec<Event>,
    pub packets: u32,
}

/// The network of a job's linked programs before the first event, with their tables loaded. The switches are
/// those of the bench.
///
/// # Errors
///
/// `AllocError` where memory runs out.
pub fn start<B: Bench>(
    alloc: Global,
    bench: &mut B,
    job: LinkedJob,
) -> Result<Started<B::Unit>, AllocError>
    requires ready { IsReady (job_of job) }
    requires linked { AreSimplyLinked (program_of job.program) (property_of job.property) job.network
        (programs_in job.linked) (map found_row (rows_in job.linked)) }
    requires spelled { All (λ t. CanSpell (program_of t)) job.linked.programs.items }
    requires layout { IsLayoutOf (property_of job.property) job.linked.layout }
    ensures first { IfOk result (λ s. (l : run.Linked) → AreThese job l → IsFirst (job_of job) l (state_of s.net)) }
    ensures given_up { IfOk result (λ s. is_given_up s.net ≡ false) }
    ensures rest { IfOk result (IsHandedOn job) }
{
    simply_linked_can_be_loaded();
    jobs_have_room();
    let LinkedJob {
        property,
        program,
        linked,
        network,
        hops,
        tables,
        contents,
        packets,
        times,
        events,
        ..
    } = job;
    let Linked {
        programs,
        map,
        layout,
    } = linked;
    let count = packets.len() as u32;
    let limit = LINK + layout.bytes as u32;
    let decls = &property.property().decls;
    let (states, maps) = loaded_switches(
        alloc, &program, &tables, &programs, &map, decls, &contents,
    )?;
    let net = net_before(
        alloc, bench, programs, states, maps, network, packets, hops, limit,
    )?;
    Ok(Started {
        net,
        property,
        program,
        map,
        layout,
        times,
        events,
        packets: count,
    })
}
