//! The schedule of a run.

ghost use Rattle.std.specs.Prelude.{◌≡◌, Ok, Some};
ghost use Rattle.serde_json.specs.View.{view};
ghost use Rattle.schedule_file.specs.Schedule.{schedule_of};
ghost use Rattle.schedule_file.specs.Views.{around_of, event_views};
ghost use Rattle.job_course.specs.Course.{IsFault};
ghost use Rattle.job_course.specs.Steps.{Follows, Judged};
ghost use Rattle.job_course.specs.declared.status.Status.TheVariants.{BadNetwork};
ghost use Rattle.table_course.specs.Lines.{schedule_line};
ghost use Rattle.table_course.specs.Files.{events_course};
ghost use Rattle.table_course.specs.Views.{name_of};

use crate::lines::schedule_text;
use indus_types::TypedProperty;
use job_course::{Refusal, Status, Stop};
use network_course::load_value;
use network_file::{Event, Network};
use outside::Store;
use schedule_file::{ScheduleFault, read_schedule};
use serde_json::Value;
use std::alloc::Global;

/// The schedule over so many packets, where a file is named.
pub fn load_events<S: Store>(
    alloc: Global,
    store: &mut S,
    name: Option<&str>,
    packets: u32,
    property: Option<&TypedProperty>,
    network: &Network,
) -> Result<Vec<Event>, Stop>
    ensures follows { Follows (events_course (name_of name.entry) (around_of packets property.entry network.now)) event_views (S.state store.old) (S.state store.new) result }
{
    match name {
        None => Ok(Vec::new(alloc)),
        Some(name) => load_file(alloc, store, name, packets, property, network),
    }
}

/// The schedule of a file.
fn load_file<S: Store>(
    alloc: Global,
    store: &mut S,
    name: &str,
    packets: u32,
    property: Option<&TypedProperty>,
    network: &Network,
) -> Result<Vec<Event>, Stop>
    ensures follows { Follows (events_course (Some name.now) (around_of packets property.entry network.now)) event_views (S.state store.old) (S.state store.new) result }
{
    let value = load_value(alloc, store, name)?;
    events_in(alloc, name, &value, packets, property, network)
}

/// The schedule that a value says.
fn events_in(
    alloc: Global,
    name: &str,
    value: &Value,
    packets: u32,
    property: Option<&TypedProperty>,
    network: &Network,
) -> Result<Vec<Event>, Stop>
    ensures judged { Judged (λ es. schedule_of (around_of packets property.entry network.now) (view value.now) ≡ Ok es)
        (IsFault BadNetwork (schedule_line name.now) (schedule_of (around_of packets property.entry network.now) (view value.now)))
        event_views result }
{
    match read_schedule(alloc, value, packets, property, network) {
        Ok(events) => Ok(events),
        Err(ScheduleFault::NoMemory) => Err(Stop::Starved),
        Err(fault) => Err(Stop::Refused(Refusal {
            status: Status::BadNetwork,
            line: schedule_text(alloc, name, &fault)?,
        })),
    }
}
