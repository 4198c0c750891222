//! The run of a job.

ghost use Rattle.std.specs.Prelude.{◌≡◌, ◌≤◌, length, map, All, IfOk, IfSome, OnOk};
ghost use Rattle.p4_tree.specs.View.{program_of};
ghost use Rattle.p4_machine.specs.Buffers.{IsMadeFor};
ghost use Rattle.p4_printer.specs.CanSpell.{CanSpell};
ghost use Rattle.p4_tables.specs.Programs.{IsStateOf};
ghost use Rattle.network_file.specs.Events.{event_of};
ghost use Rattle.path_runner.specs.Conditions.{IsAtEdge};
ghost use Rattle.set_contents.specs.Maps.{maps_of};
ghost use Rattle.path_runner.specs.Nets.{IsSame, RunsTo};
ghost use Rattle.path_runner.specs.Starts.{Starts, state_before};
ghost use Rattle.path_runner.specs.Packets.{arrival_of};
ghost use Rattle.path_runner.specs.Switches.{switch_of};
ghost use Rattle.path_runner.specs.Views.{state_of};
ghost use Rattle.job_course.specs.Output.{out_of};
ghost use Rattle.forward_run.specs.Files.{IsForwardOutput};
ghost use Rattle.forward_run.specs.Job.{IsEventAmong, IsReady};
ghost use Rattle.forward_run.specs.Switches.{HasNoMaps, no_maps, switch_before};
ghost use Rattle.forward_run.specs.Views.{job_of};

use crate::job::ForwardJob;
use crate::output::output_of;
use indus_tree::Decl;
use job_course::Output;
use network_file::{Event, Network};
use p4_machine::{FrameBuf, Pass};
use p4_tables::TableState;
use p4_types::TypedProgram;
use path_runner::{Net, Packet};
use std::alloc::{AllocError, Global};
use switch_benches::Bench;

/// The greatest length of a frame on a link, in bytes.
const LINK: u32 = 65_535;

/// Runs the program at every switch, from the first event of the schedule to the end of each packet: the
/// files of the run in order, and its summary for the sink. The switches are those of the bench.
///
/// # Errors
///
/// `AllocError` where memory runs out.
pub fn run_forward<B: Bench>(
    alloc: Global,
    bench: &mut B,
    job: ForwardJob,
    out: &str,
) -> Result<Output, AllocError>
    requires { IsReady (job_of job) }
    ensures { IfOk result (λ o. IsForwardOutput (job_of job) out.now (out_of o)) }
{
    let ForwardJob {
        program,
        network,
        hops,
        tables,
        packets,
        times,
        events,
    } = job;
    let count = packets.len() as u32;
    let mut net = net_before(alloc, bench, &program, network, hops, tables, packets)?;
    happen(alloc, &mut net, &events)?;
    let log = net.finish(alloc)?;
    output_of(alloc, &program, &times, count, out, &log)
}

/// The network before the first event.
fn net_before<B: Bench>(
    alloc: Global,
    bench: &mut B,
    program: &TypedProgram,
    network: Network,
    hops: u8,
    tables: Vec<TableState>,
    packets: Vec<Packet>,
) -> Result<Net<B::Unit>, AllocError>
    requires spelled { CanSpell (program_of program.now) }
    requires hops { 1 ≤ hops }
    requires switches { length tables.items ≡ length network.names }
    requires tables { All (IsStateOf (program_of program.now)) tables.items }
    requires few { length packets.items ≤ 100000 }
    requires packets { All (IsAtEdge network 65535) (map arrival_of packets.items) }
    ensures state { IfOk result (λ n. state_of n ≡ state_before network (record { hops = hops; link = 65535 })
        (map (switch_before (program_of program.now)) tables.items) (no_maps (length tables.items)) (map arrival_of packets.items)) }
    ensures starts { IfOk result (λ n. Starts (map (switch_before (program_of program.now)) tables.items)
        (map arrival_of packets.items) (state_of n)) }
{
    let count = tables.len();
    let bufs = buffers(alloc, program, count)?;
    let none = no_tables(alloc, count)?;
    let switches = switches(alloc, bench, program, tables)?;
    Net::new(alloc, switches, bufs, network, packets, none, hops, LINK)
}

/// A switch for each list of tables, which runs the program.
fn switches<B: Bench>(
    alloc: Global,
    bench: &mut B,
    program: &TypedProgram,
    tables: Vec<TableState>,
) -> Result<Vec<B::Unit>, AllocError>
    requires spelled { CanSpell (program_of program.now) }
    requires tables { All (IsStateOf (program_of program.now)) tables.items }
    ensures { IfOk result (λ v. map (switch_of B.Unit.program B.Unit.tables B.Unit.cells) v.items ≡ map (switch_before (program_of program.now)) tables.items) }
{
    let mut switches = Vec::new(alloc);
    for held in tables {
        let switch = one_more(alloc, bench, switches.first(), program, held)?;
        switches.push(switch)?;
    }
    Ok(switches)
}

/// A switch with these tables, which runs the program. It may share with the first switch what both have in common.
fn one_more<B: Bench>(
    alloc: Global,
    bench: &mut B,
    first: Option<&B::Unit>,
    program: &TypedProgram,
    tables: TableState,
) -> Result<B::Unit, AllocError>
    requires runs { IfSome first (λ u. B.Unit.program u.now ≡ program_of program.now) }
    requires spelled { CanSpell (program_of program.now) }
    requires tables { IsStateOf (program_of program.now) tables }
    ensures { IfOk result (λ u. switch_of B.Unit.program B.Unit.tables B.Unit.cells u ≡ switch_before (program_of program.now) tables) }
{
    match first {
        Some(unit) => bench.another(alloc, unit, program, tables),
        None => bench.build(alloc, program.copy(alloc)?, tables),
    }
}

/// So many buffers for passages of the program.
fn buffers(alloc: Global, program: &TypedProgram, count: usize) -> Result<Vec<FrameBuf>, AllocError>
    ensures count { IfOk result (λ v. length v.items ≡ count) }
    ensures made { IfOk result (λ v. All (λ b. IsMadeFor (program_of program.now) b.needs) v.items) }
{
    let mut bufs = Vec::new(alloc);
    for _ in 0..count {
        bufs.push(FrameBuf::new(alloc, program)?)?;
    }
    Ok(bufs)
}

/// So many lists of tables that hold control variables, with none.
fn no_tables(alloc: Global, count: usize) -> Result<Vec<Vec<(u32, u32, u32, Decl)>>, AllocError>
    ensures { IfOk result (λ v. maps_of v.items ≡ no_maps count) }
{
    let mut lists = Vec::new(alloc);
    for _ in 0..count {
        lists.push(Vec::new(alloc))?;
    }
    Ok(lists)
}

/// Events happen, one after the other.
fn happen<P: Pass + Drop>(
    alloc: Global,
    net: &mut Net<P>,
    events: &[Event],
) -> Result<(), AllocError>
    requires events { All (IsEventAmong (length (state_of net.old).places) (length (state_of net.old).switches)) (map event_of events.now) }
    requires maps { HasNoMaps (state_of net.old) }
    ensures same { IsSame (state_of net.old) (state_of net.new) }
    ensures runs { OnOk result (RunsTo (state_of net.old) (map event_of events.now) (state_of net.new)) }
{
    for event in events {
        net.step(alloc, event)?;
    }
    Ok(())
}
