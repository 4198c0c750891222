//! The network of switches that run linked programs.

ghost use Rattle.std.specs.Prelude.{◌≡◌, false, map, All, IfOk};
ghost use Rattle.p4_tree.specs.View.{program_of};
ghost use Rattle.p4_printer.specs.CanSpell.{CanSpell};
ghost use Rattle.set_contents.specs.Maps.{maps_of};
ghost use Rattle.path_runner.specs.Packets.{arrival_of};
ghost use Rattle.path_runner.specs.Starts.{StartsWorlds, state_before};
ghost use Rattle.path_runner.specs.Switches.{switch_of};
ghost use Rattle.path_runner.specs.Views.{is_given_up, state_of};
ghost use Rattle.linked_net.specs.Switches.{AreMadeFor, AreStatesOf, CanStart, switches_before};

use loaded_tables::Mapped;
use network_file::Network;
use p4_machine::FrameBuf;
use p4_tables::TableState;
use p4_types::TypedProgram;
use path_runner::{Net, Packet};
use std::alloc::{AllocError, Global};
use switch_benches::Bench;

/// A switch for each program, with its tables.
fn switches<B: Bench>(
    alloc: Global,
    bench: &mut B,
    programs: Vec<TypedProgram>,
    tables: Vec<TableState>,
) -> Result<Vec<B::Unit>, AllocError>
    requires spelled { All (λ t. CanSpell (program_of t)) programs.items }
    requires states { AreStatesOf (map program_of programs.items) tables.items }
    ensures { IfOk result (λ v. map (switch_of B.Unit.program B.Unit.tables B.Unit.cells) v.items ≡ switches_before (map program_of programs.items) tables.items) }
{
    let mut switches = Vec::new(alloc);
    for (program, held) in programs.into_iter().zip(tables) {
        switches.push(bench.build(alloc, program, held)?)?;
    }
    Ok(switches)
}

/// A buffer for passages of each program.
fn buffers(alloc: Global, programs: &[TypedProgram]) -> Result<Vec<FrameBuf>, AllocError>
    ensures { IfOk result (λ v. AreMadeFor (map program_of programs.now) v.items) }
{
    let mut bufs = Vec::new(alloc);
    for program in programs {
        bufs.push(FrameBuf::new(alloc, program)?)?;
    }
    Ok(bufs)
}

/// The network before the first event, where switches run these programs, with their tables and maps.
pub(crate) fn net_before<B: Bench>(
    alloc: Global,
    bench: &mut B,
    programs: Vec<TypedProgram>,
    tables: Vec<TableState>,
    maps: Vec<Vec<Mapped>>,
    network: Network,
    packets: Vec<Packet>,
    hops: u8,
    limit: u32,
) -> Result<Net<B::Unit>, AllocError>
    requires spelled { All (λ t. CanSpell (program_of t)) programs.items }
    requires start { CanStart network (record { hops = hops; link = limit }) (map program_of programs.items) tables.items
        (maps_of maps.items) (map arrival_of packets.items) }
    ensures state { IfOk result (λ n. state_of n ≡ state_before network (record { hops = hops; link = limit })
        (switches_before (map program_of programs.items) tables.items) (maps_of maps.items) (map arrival_of packets.items)) }
    ensures worlds { IfOk result (λ n. StartsWorlds (switches_before (map program_of programs.items) tables.items)
        (maps_of maps.items) (map arrival_of packets.items) (state_of n)) }
    ensures given_up { IfOk result (λ n. is_given_up n ≡ false) }
{
    let bufs = buffers(alloc, &programs)?;
    let switches = switches(alloc, bench, programs, tables)?;
    Net::new(alloc, switches, bufs, network, packets, maps, hops, limit)
}
