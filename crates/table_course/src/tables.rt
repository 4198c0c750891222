//! What the tables of a network's switches hold.

ghost use Rattle.std.specs.Prelude.{◌≡◌, Ok, IfOk, Some};
ghost use Rattle.serde_json.specs.View.{view};
ghost use Rattle.p4_tree.specs.View.{program_of};
ghost use Rattle.table_file.specs.Entries.{entries_of};
ghost use Rattle.table_file.specs.Laws.{AreOf};
ghost use Rattle.job_course.specs.Course.{IsFault};
ghost use Rattle.job_course.specs.Steps.{Follows, Judged};
ghost use Rattle.job_course.specs.declared.status.Status.TheVariants.{BadNetwork};
ghost use Rattle.table_course.specs.Lines.{table_line};
ghost use Rattle.table_course.specs.Files.{tables_course};
ghost use Rattle.table_course.specs.Views.{name_of};

use crate::lines::table_text;
use job_course::{Refusal, Status, Stop};
use network_course::load_value;
use network_file::Network;
use outside::Store;
use p4_tables::TableState;
use p4_types::TypedProgram;
use serde_json::Value;
use std::alloc::Global;
use table_faults::TableFault;
use table_file::{load_entries, states_before};

/// The tables of each switch, with the entries and defaults of a file where one is named.
pub fn load_tables<S: Store>(
    alloc: Global,
    store: &mut S,
    name: Option<&str>,
    program: &TypedProgram,
    network: &Network,
) -> Result<Vec<TableState>, Stop>
    ensures follows { Follows (tables_course (name_of name.entry) (program_of program.now) network.now.names) (λ v. v.items) (S.state store.old) (S.state store.new) result }
    ensures kept { IfOk result (λ v. AreOf (program_of program.now) network.now.names v.items) }
{
    match name {
        None => Ok(states_before(alloc, program, network)?),
        Some(name) => load_file(alloc, store, name, program, network),
    }
}

/// The tables of each switch, with the entries and defaults of a file.
fn load_file<S: Store>(
    alloc: Global,
    store: &mut S,
    name: &str,
    program: &TypedProgram,
    network: &Network,
) -> Result<Vec<TableState>, Stop>
    ensures follows { Follows (tables_course (Some name.now) (program_of program.now) network.now.names) (λ v. v.items) (S.state store.old) (S.state store.new) result }
    ensures kept { IfOk result (λ v. AreOf (program_of program.now) network.now.names v.items) }
{
    let value = load_value(alloc, store, name)?;
    tables_in(alloc, name, &value, program, network)
}

/// The tables of each switch, with the entries and defaults that a value says.
fn tables_in(
    alloc: Global,
    name: &str,
    value: &Value,
    program: &TypedProgram,
    network: &Network,
) -> Result<Vec<TableState>, Stop>
    ensures judged { Judged (λ sts. entries_of (program_of program.now) network.now.names (view value.now) ≡ Ok sts)
        (IsFault BadNetwork (table_line name.now) (entries_of (program_of program.now) network.now.names (view value.now)))
        (λ v. v.items) result }
    ensures kept { IfOk result (λ v. AreOf (program_of program.now) network.now.names v.items) }
{
    match load_entries(alloc, value, program, network) {
        Ok(tables) => Ok(tables),
        Err(TableFault::NoMemory) => Err(Stop::Starved),
        Err(fault) => Err(Stop::Refused(Refusal {
            status: Status::BadNetwork,
            line: table_text(alloc, name, &fault)?,
        })),
    }
}
