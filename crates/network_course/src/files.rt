//! Files that are read, with their refusals.

ghost use Rattle.std.specs.Prelude.{◌≡◌, Ok};
ghost use Rattle.serde_json.specs.View.{view};
ghost use Rattle.json_parts.specs.Json.{IsJson};
ghost use Rattle.network_file.specs.Network.{network_of};
ghost use Rattle.case_file.specs.Case.{case_of};
ghost use Rattle.case_file.specs.Views.{case_view, capture_views};
ghost use Rattle.job_course.specs.Course.{IsFault};
ghost use Rattle.job_course.specs.Steps.{Follows, Judged};
ghost use Rattle.job_course.specs.declared.status.Status.TheVariants.{BadNetwork};
ghost use Rattle.network_course.specs.Lines.{shape_line, network_line, place_line};
ghost use Rattle.network_course.specs.Places as places;
ghost use Rattle.network_course.specs.Files.{IsNoJson, IsWithin, IsOver, value_course, network_course};
ghost use Rattle.network_course.specs.Views.{place_views};

use crate::lines::{network_text, place_text, shape_text};
use crate::places::{Place, PlaceFault, places_of};
use case_file::{Capture, Case, read_case};
use job_course::{Area, Refusal, Status, Stop, cause_text, read_file};
use json_parts::{JsonFault, ShapeFault, read_value};
use network_file::{Network, NetworkFault, read_network};
use outside::Store;
use serde_json::Value;
use std::alloc::Global;

/// The greatest length of a JSON file, in bytes.
const JSON_LIMIT: u64 = 4_194_304;

/// The greatest number of cells that the registers of all switches have together.
const CELL_LIMIT: u64 = 4_194_304;

/// The value of a JSON file.
pub fn load_value<S: Store>(alloc: Global, store: &mut S, name: &str) -> Result<Value, Stop>
    ensures follows { Follows (value_course name.now) view (S.state store.old) (S.state store.new) result }
{
    let bytes = read_file(alloc, store, name, JSON_LIMIT, Area::Network)?;
    value_in(alloc, name, &bytes)
}

fn value_in(alloc: Global, name: &str, bytes: &[u8]) -> Result<Value, Stop>
    ensures judged { Judged (IsJson bytes.now) (IsNoJson name.now bytes.now) view result }
{
    match read_value(alloc, bytes) {
        Ok(value) => Ok(value),
        Err(JsonFault::NoMemory) => Err(Stop::Starved),
        Err(JsonFault::Json) => Err(Stop::Refused(Refusal {
            status: Status::BadNetwork,
            line: cause_text(alloc, Area::Network, name, "Json")?,
        })),
    }
}

/// The case that the value of a case's file says, for a command that needs a property or not.
pub fn case_in<'a>(
    alloc: Global,
    name: &str,
    value: &'a Value,
    needs_property: bool,
) -> Result<Case<'a>, Stop>
    ensures judged { Judged (λ c. case_of needs_property (view value.now) ≡ Ok c)
        (IsFault BadNetwork (shape_line name.now) (case_of needs_property (view value.now)))
        case_view result }
{
    match read_case(alloc, value, needs_property) {
        Ok(case) => Ok(case),
        Err(ShapeFault::NoMemory) => Err(Stop::Starved),
        Err(fault) => Err(Stop::Refused(Refusal {
            status: Status::BadNetwork,
            line: shape_text(alloc, name, &fault)?,
        })),
    }
}

/// A network's file, for a program whose registers have so many cells.
pub fn load_network<S: Store>(
    alloc: Global,
    store: &mut S,
    name: &str,
    cells: u64,
) -> Result<Network, Stop>
    ensures follows { Follows (network_course name.now cells) (λ n. n) (S.state store.old) (S.state store.new) result }
{
    let value = load_value(alloc, store, name)?;
    let network = network_in(alloc, name, &value)?;
    within(alloc, name, cells, network)
}

fn network_in(alloc: Global, name: &str, value: &Value) -> Result<Network, Stop>
    ensures judged { Judged (λ n. network_of (view value.now) ≡ Ok n)
        (IsFault BadNetwork (network_line name.now) (network_of (view value.now))) (λ n. n) result }
{
    match read_network(alloc, value) {
        Ok(network) => Ok(network),
        Err(NetworkFault::NoMemory) => Err(Stop::Starved),
        Err(fault) => Err(Stop::Refused(Refusal {
            status: Status::BadNetwork,
            line: network_text(alloc, name, &fault)?,
        })),
    }
}

/// The network, where its switches hold their cells.
fn within(alloc: Global, name: &str, cells: u64, network: Network) -> Result<Network, Stop>
    ensures judged { Judged (IsWithin cells network) (IsOver name.now cells network) (λ n. n) result }
{
    if u64::from(network.count()).saturating_mul(cells) <= CELL_LIMIT {
        Ok(network)
    } else {
        Err(Stop::Refused(Refusal {
            status: Status::BadNetwork,
            line: cause_text(alloc, Area::Network, name, "Limit")?,
        }))
    }
}

/// Where the captures of the case of this name enter the network.
pub fn places_in(
    alloc: Global,
    name: &str,
    network: &Network,
    captures: &[Capture<'_>],
) -> Result<Vec<Place>, Stop>
    ensures judged { Judged (λ ps. places.places_of network.now (capture_views captures.now) ≡ Ok ps)
        (IsFault BadNetwork (place_line name.now) (places.places_of network.now (capture_views captures.now)))
        (λ v. place_views v.items) result }
{
    match places_of(alloc, network, captures) {
        Ok(places) => Ok(places),
        Err(PlaceFault::NoMemory) => Err(Stop::Starved),
        Err(fault) => Err(Stop::Refused(Refusal {
            status: Status::BadNetwork,
            line: place_text(alloc, name, &fault)?,
        })),
    }
}
