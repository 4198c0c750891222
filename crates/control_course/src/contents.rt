//! What the control variables of a network's switches hold.

ghost use Rattle.std.specs.Prelude.{◌≡◌, length, Ok, IfOk, Some};
ghost use Rattle.serde_json.specs.View.{view};
ghost use Rattle.control_file.specs.Control.{control_of};
ghost use Rattle.control_file.specs.Views.{decls_of, switches_view};
ghost use Rattle.job_course.specs.Course.{IsFault};
ghost use Rattle.job_course.specs.Steps.{Follows, Judged};
ghost use Rattle.job_course.specs.declared.status.Status.TheVariants.{BadNetwork};
ghost use Rattle.table_course.specs.Lines.{table_line};
ghost use Rattle.table_course.specs.Views.{name_of};
ghost use Rattle.control_course.specs.Files.{contents_course};

use control_file::{contents_before, load_control};
use indus_types::TypedProperty;
use indus_values::ControlValue;
use job_course::{Refusal, Status, Stop};
use network_course::load_value;
use network_file::Network;
use outside::Store;
use serde_json::Value;
use std::alloc::Global;
use table_course::table_text;
use table_faults::TableFault;

/// The contents of the control variables of each switch, with those that a file sets where one is named.
pub fn load_contents<S: Store>(
    alloc: Global,
    store: &mut S,
    name: Option<&str>,
    property: &TypedProperty,
    network: &Network,
) -> Result<Vec<Vec<ControlValue>>, Stop>
    ensures follows { Follows (contents_course (name_of name.entry) (decls_of property.now) network.now.names) switches_view (S.state store.old) (S.state store.new) result }
    ensures count { IfOk result (λ v. length v.items ≡ length network.now.names) }
{
    match name {
        None => Ok(contents_before(alloc, property, network)?),
        Some(name) => load_file(alloc, store, name, property, network),
    }
}

/// The contents of the control variables of each switch, with those that a file sets.
fn load_file<S: Store>(
    alloc: Global,
    store: &mut S,
    name: &str,
    property: &TypedProperty,
    network: &Network,
) -> Result<Vec<Vec<ControlValue>>, Stop>
    ensures follows { Follows (contents_course (Some name.now) (decls_of property.now) network.now.names) switches_view (S.state store.old) (S.state store.new) result }
{
    let value = load_value(alloc, store, name)?;
    contents_in(alloc, name, &value, property, network)
}

/// The contents of the control variables of each switch, with those that a value sets.
fn contents_in(
    alloc: Global,
    name: &str,
    value: &Value,
    property: &TypedProperty,
    network: &Network,
) -> Result<Vec<Vec<ControlValue>>, Stop>
    ensures judged { Judged (λ css. control_of (decls_of property.now) network.now.names (view value.now) ≡ Ok css)
        (IsFault BadNetwork (table_line name.now) (control_of (decls_of property.now) network.now.names (view value.now)))
        switches_view result }
{
    match load_control(alloc, value, property, network) {
        Ok(contents) => Ok(contents),
        Err(TableFault::NoMemory) => Err(Stop::Starved),
        Err(fault) => Err(Stop::Refused(Refusal {
            status: Status::BadNetwork,
            line: table_text(alloc, name, &fault)?,
        })),
    }
}
