//! Whether the tables of a network's switches have too many items.

ghost use Rattle.std.specs.Prelude.{◌≡◌, ◌≤◌, length, map, Ok, IfOk};
ghost use Rattle.indus_tree.specs.View.{property_of};
ghost use Rattle.network_file.specs.Events.{event_of};
ghost use Rattle.p4_tables.specs.State.{entries_in};
ghost use Rattle.table_items.specs.Items.{within_limits};
ghost use Rattle.table_items.specs.Views.{contents_view};
ghost use Rattle.job_course.specs.Course.{IsFault};
ghost use Rattle.job_course.specs.Steps.{Judged};
ghost use Rattle.job_course.specs.declared.status.Status.TheVariants.{BadNetwork};
ghost use Rattle.control_course.specs.Lines.{too_many_line};

use indus_types::TypedProperty;
use indus_values::ControlValue;
use job_course::{Area, Refusal, Status, Stop, place_text};
use network_file::Event;
use p4_tables::TableState;
use std::alloc::{AllocError, Global};
use table_items::table_items;

/// The number of entries of each switch.
fn entries(alloc: Global, tables: &[TableState]) -> Result<Vec<u32>, AllocError>
    ensures { IfOk result (λ v. v.items ≡ map entries_in tables.now) }
{
    let mut numbers = Vec::new(alloc);
    for state in tables {
        numbers.push(state.entries())?;
    }
    Ok(numbers)
}

/// That the tables of the switches, with their entries, the contents of control variables and what the
/// events set, have not too many items. A refusal names the file.
pub fn items_in(
    alloc: Global,
    name: &str,
    property: &TypedProperty,
    tables: &[TableState],
    contents: &[Vec<ControlValue>],
    events: &[Event],
) -> Result<(), Stop>
    requires few { length contents.now ≤ 256 }
    requires one_each { length tables.now ≡ length contents.now }
    ensures judged { Judged (λ x. within_limits (property_of property.now) (map entries_in tables.now) (map contents_view contents.now) (map event_of events.now) ≡ Ok x)
        (IsFault BadNetwork (too_many_line name.now) (within_limits (property_of property.now) (map entries_in tables.now) (map contents_view contents.now) (map event_of events.now)))
        (λ x. x) result }
{
    let numbers = entries(alloc, tables)?;
    match table_items(property, &numbers, contents, events) {
        Ok(()) => Ok(()),
        Err(fault) => Err(Stop::Refused(Refusal {
            status: Status::BadNetwork,
            line: place_text(alloc, Area::Network, name, "TooMany", fault.switch as u64)?,
        })),
    }
}
