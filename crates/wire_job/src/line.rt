//! What is built in: the wire program, and three switches in a line.

ghost use Rattle.std.specs.Prelude.{◌≡◌, IfOk};
ghost use Rattle.serde_json.specs.View.{view};
ghost use Rattle.p4_tree.specs.View.{program_of};
ghost use Rattle.table_file.specs.Entries as entries;
ghost use Rattle.table_file.specs.Laws.{AreOf};
ghost use Rattle.wire_job.specs.Line as line;
ghost use Rattle.wire_job.specs.Known.{IsWireProgram};

use network_file::{Network, read_network};
use p4_tables::TableState;
use p4_types::{ProgramTypeFault, TypedProgram, check_program};
use serde_json::{Value, json};
use std::alloc::{AllocError, Global};
use table_file::states_before;
use wire_program::wire_program;

/// The wire program, the network, and what the tables of each switch hold before anything is put into
/// them.
#[derive(Drop)]
pub(crate) struct Line {
    pub program: TypedProgram,
    pub network: Network,
    pub tables: Vec<TableState>,
}

/// The wire program at three switches in a line.
pub(crate) fn wire_line(alloc: Global) -> Result<Line, AllocError>
    ensures program { IfOk result (λ l. IsWireProgram (program_of l.program)) }
    ensures network { IfOk result (λ l. l.network ≡ line.wire_network) }
    ensures tables { IfOk result (λ l. l.tables.items ≡ entries.states_before (program_of l.program) l.network.names) }
    ensures kept { IfOk result (λ l. AreOf (program_of l.program) l.network.names l.tables.items) }
{
    let program = typed_program(alloc)?;
    let network = line_network(alloc)?;
    let tables = states_before(alloc, &program, &network)?;
    Ok(Line {
        program,
        network,
        tables,
    })
}

/// The wire program, which breaks no rule.
fn typed_program(alloc: Global) -> Result<TypedProgram, AllocError>
    ensures { IfOk result (λ t. IsWireProgram (program_of t)) }
{
    let program = wire_program(alloc)?;
    match check_program(alloc, program) {
        Ok(program) => Ok(program),
        Err(ProgramTypeFault::NoMemory) => Err(AllocError),
        Err(ProgramTypeFault::Type_ { .. }) => unreachable!(),
    }
}

/// The network's file.
fn line_value(alloc: Global) -> Result<Value, AllocError>
    ensures { IfOk result (λ v. view v ≡ line.line_data) }
{
    json!(in alloc; {
        "switches": ["s1", "s2", "s3"],
        "links": [["s1", 2, "s2", 1], ["s2", 2, "s3", 1]]
    })
}

/// The network, whose file has no fault, so that an error is want of memory.
fn line_network(alloc: Global) -> Result<Network, AllocError>
    ensures { IfOk result (λ n. n ≡ line.wire_network) }
{
    let value = line_value(alloc)?;
    match read_network(alloc, &value) {
        Ok(network) => Ok(network),
        Err(_starved) => Err(AllocError),
    }
}
