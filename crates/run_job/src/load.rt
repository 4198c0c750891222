//! The files of a case, one after the other.

ghost use Rattle.std.specs.Prelude.{◌≡◌, ◌<◌, ◌≤◌, All, IfOk, length};
ghost use Rattle.indus_tree.specs.View.{property_of};
ghost use Rattle.tele_layout.specs.Layouts.{IsLayoutOf};
ghost use Rattle.p4_tree.specs.View.{program_of};
ghost use Rattle.p4_printer.specs.CanSpell.{CanSpell};
ghost use Rattle.p4_tables.specs.Laws.{RunsListed};
ghost use Rattle.network_run.specs.Network.{IsWiring};
ghost use Rattle.network_file.specs.Wiring.{wiring_of};
ghost use Rattle.case_file.specs.Views.{case_view};
ghost use Rattle.table_file.specs.Laws.{AreOf};
ghost use Rattle.job_course.specs.Steps.{Follows};
ghost use Rattle.linked_jobs.specs.Views.{IsLinkedJob};
ghost use Rattle.run_job.specs.Course as course;
ghost use Rattle.run_job.specs.Course.{base_course, linked_course, rest_course, run_course};
ghost use Rattle.run_job.specs.Views.{IsLinkedBase, base_at, base_of, rest_of, task_of};

use case_course::{Packets, load_ground, load_packets};
use case_file::Case;
use control_course::{items_in, load_contents};
use indus_types::TypedProperty;
use indus_values::ControlValue;
use job_course::Stop;
use link_course::load_link;
use linked_jobs::LinkedJob;
use network_course::{Place, case_in, load_value};
use network_file::{Event, Network};
use outside::Store;
use p4_tables::{TableState, actions_are_listed};
use p4_types::TypedProgram;
use plain_texts::laws::{texts_are_plain, texts_declare_words};
use program_linker::Linked;
use property_course::load_property;
use read_contents::{files_fit, schedules_fit};
use std::alloc::Global;
use table_course::{load_events, load_tables};

/// A property, a program with its network, and what these are linked to.
#[derive(Drop)]
pub struct Site {
    pub property: TypedProperty,
    pub program: TypedProgram,
    pub network: Network,
    pub linked: Linked,
}

/// What is read before the entries, and where the captures enter the network.
#[derive(Drop)]
pub struct Base {
    pub site: Site,
    pub places: Vec<Place>,
}

/// What is read behind it: the tables and the contents of each switch, the packets, and the schedule.
#[derive(Drop)]
pub struct Rest {
    pub tables: Vec<TableState>,
    pub contents: Vec<Vec<ControlValue>>,
    pub packets: Packets,
    pub events: Vec<Event>,
}

/// The property's file, which a case names that is read with one.
fn property_name<'a>(case: &Case<'a>) -> &'a str
    ensures { result.now ≡ course.property_name (case_view case.now) }
{
    match case.property {
        Some(name) => name,
        None => "",
    }
}

/// The file that a refusal of too many table items names.
fn items_name<'a>(name: &'a str, case: &Case<'a>) -> &'a str
    ensures { result.now ≡ course.items_name name.now (case_view case.now) }
{
    match case.schedule {
        Some(name) => name,
        None => name,
    }
}

/// A network has 1 to 256 switches, whose ports its links join.
fn is_sound(network: &Network)
    ensures some { 0 < length network.now.names }
    ensures few { length network.now.names ≤ 256 }
    ensures wiring { IsWiring (wiring_of network.now) }
{
    let _count = network.count();
}

/// Tables run actions of their lists alone.
fn are_listed(tables: &[TableState])
    ensures { All RunsListed tables.now }
{
    for state in tables {
        actions_are_listed(state);
    }
}

/// The property, the program, the network and where the captures enter it, and what is linked.
fn load_base<S: Store>(
    alloc: Global,
    store: &mut S,
    name: &str,
    case: &Case<'_>,
) -> Result<Base, Stop>
    requires room { case.now.room ≤ 256 }
    ensures follows { Follows (base_course name.now (case_view case.now)) base_of (S.state store.old) (S.state store.new) result }
    ensures spelled { IfOk result (λ b. All (λ t. CanSpell (program_of t)) b.site.linked.programs.items) }
    ensures layout { IfOk result (λ b. IsLayoutOf (property_of b.site.property) b.site.linked.layout) }
{
    texts_are_plain();
    texts_declare_words();
    let property = load_property(alloc, store, property_name(case))?;
    let ground = load_ground(alloc, store, name, case)?;
    is_sound(&ground.network);
    let linked = load_link(
        alloc,
        &ground.program,
        &property,
        &ground.network,
        case.room,
    )?;
    Ok(Base {
        site: Site {
            property,
            program: ground.program,
            network: ground.network,
            linked,
        },
        places: ground.places,
    })
}

/// The entries, the contents of control variables, the captures, the schedule, and the number of table
/// items.
fn load_rest<S: Store>(
    alloc: Global,
    store: &mut S,
    name: &str,
    case: &Case<'_>,
    site: &Site,
    places: Vec<Place>,
) -> Result<Rest, Stop>
    ensures follows { Follows (rest_course name.now (case_view case.now) (base_at site.now places.items)) rest_of (S.state store.old) (S.state store.new) result }
    ensures tables { IfOk result (λ r. AreOf (program_of site.now.program) site.now.network.names r.tables.items) }
    ensures listed { IfOk result (λ r. All RunsListed r.tables.items) }
{
    is_sound(&site.network);
    let tables = load_tables(alloc, store, case.entries, &site.program, &site.network)?;
    are_listed(&tables);
    let contents = load_contents(alloc, store, case.control, &site.property, &site.network)?;
    let packets = load_packets(alloc, store, name, case, places)?;
    let count = packets.packets.len() as u32;
    let property = Some(&site.property);
    let events = load_events(alloc, store, case.schedule, count, property, &site.network)?;
    let named = items_name(name, case);
    items_in(alloc, named, &site.property, &tables, &contents, &events)?;
    Ok(Rest {
        tables,
        contents,
        packets,
        events,
    })
}

/// The case of this name up to what is linked: of its captures only where they enter the network is read.
pub fn load_linked<S: Store>(alloc: Global, store: &mut S, name: &str) -> Result<Base, Stop>
    ensures follows { Follows (linked_course name.now) base_of (S.state store.old) (S.state store.new) result }
    ensures read { IfOk result IsLinkedBase }
{
    texts_are_plain();
    texts_declare_words();
    let value = load_value(alloc, store, name)?;
    let case = case_in(alloc, name, &value, true)?;
    let base = load_base(alloc, store, name, &case)?;
    is_sound(&base.site.network);
    Ok(base)
}

/// The job of the case of this name, with what is linked for it.
pub fn load_run<S: Store>(alloc: Global, store: &mut S, name: &str) -> Result<LinkedJob, Stop>
    ensures follows { Follows (run_course name.now) task_of (S.state store.old) (S.state store.new) result }
    ensures read { IfOk result IsLinkedJob }
{
    texts_are_plain();
    texts_declare_words();
    files_fit();
    schedules_fit();
    let value = load_value(alloc, store, name)?;
    let case = case_in(alloc, name, &value, true)?;
    let base = load_base(alloc, store, name, &case)?;
    is_sound(&base.site.network);
    let Base { site, places } = base;
    let rest = load_rest(alloc, store, name, &case, &site, places)?;
    Ok(LinkedJob {
        property: site.property,
        program: site.program,
        linked: site.linked,
        network: site.network,
        hops: case.hops,
        room: case.room,
        tables: rest.tables,
        contents: rest.contents,
        packets: rest.packets.packets,
        times: rest.packets.times,
        events: rest.events,
    })
}
