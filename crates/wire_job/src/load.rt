//! The files of `wire`, one after the other.

ghost use Rattle.std.specs.Prelude.{◌≡◌, ◌≤◌, ◌∷◌, [], length, map, IfOk, None, option_map, string_bytes};
ghost use Rattle.outside.specs.State.{StoreState};
ghost use Rattle.indus_tree.specs.View.{decl_of, property_of};
ghost use Rattle.indus_tree.specs.Hops.{same_kind};
ghost use Rattle.indus_tree.specs.declared.tree.DeclKind.TheVariants.{Control};
ghost use Rattle.indus_rules.specs.Rules.{IsWellTyped};
ghost use Rattle.property_course.specs.Files.{IsOfText};
ghost use Rattle.job_course.specs.Steps.{Follows, Judged};
ghost use Rattle.control_file.specs.Control.{all_unset};
ghost use Rattle.control_file.specs.Views.{decls_of, switches_view};
ghost use Rattle.path_runner.specs.Packets.{arrival_of};
ghost use Rattle.run_captures.specs.Views.{time_view};
ghost use Rattle.linked_jobs.specs.Views.{IsLinkedJob};
ghost use Rattle.run_job.specs.Views.{task_of};
ghost use Rattle.wire_job.specs.Course as course;
ghost use Rattle.wire_job.specs.Course.{IsUncontrolled, NeedsControl, arrival, beginning, linked_course, wire_course};
ghost use Rattle.wire_job.specs.Lines.{control_line};

use crate::line::wire_line;
use control_file::contents_before;
use indus_tree::{Decl, DeclKind};
use indus_types::TypedProperty;
use indus_values::ControlValue;
use job_course::{Area, Refusal, Status, Stop, read_file};
use link_course::load_link;
use linked_jobs::LinkedJob;
use network_file::Network;
use outside::Store;
use path_runner::Packet;
use plain_texts::laws::{texts_are_plain, texts_declare_words};
use property_course::load_property;
use read_contents::files_fit;
use run_captures::Time;
use std::alloc::{AllocError, Global};

/// The greatest length of a frame, in bytes.
const FRAME_LIMIT: u64 = 65_535;

/// How many switches a packet may pass.
const HOPS: u8 = 64;

/// How many bytes of telemetry a frame may carry.
const ROOM: u16 = 128;

// ---- the property

/// Whether variables of a kind are control variables.
fn is_control(kind: DeclKind) -> bool
    ensures { result ≡ same_kind Control kind }
{
    match kind {
        DeclKind::Control => true,
        DeclKind::Tele | DeclKind::Sensor | DeclKind::Header => false,
    }
}

/// The name of the first control variable.
fn first_control(decls: &[Decl]) -> Option<&str>
    ensures { option_map (λ s. s.now) result ≡ course.first_control (map decl_of decls.now) }
{
    for decl in decls {
        if is_control(decl.kind) {
            return Some(decl.name.as_str());
        }
    }
    None
}

/// The line of a property that declares a control variable.
fn control_text(alloc: Global, name: &str, variable: &str) -> Result<String, AllocError>
    ensures { IfOk result (λ s. string_bytes s ≡ control_line name.now variable.now) }
{
    format!(in alloc; "hydra: property {name} NeedsControl {variable}\n")
}

/// The property declares no control variable.
fn uncontrolled(alloc: Global, name: &str, property: &TypedProperty) -> Result<(), Stop>
    ensures judged { Judged (IsUncontrolled (property_of property.now)) (NeedsControl name.now (property_of property.now)) (λ x. x) result }
{
    match first_control(&property.property().decls) {
        None => Ok(()),
        Some(variable) => Err(Stop::Refused(Refusal {
            status: Status::BadProperty,
            line: control_text(alloc, name, variable)?,
        })),
    }
}

// ---- the job

/// What the control variables of each switch hold, and the one packet with its time.
#[derive(Drop)]
struct Start {
    contents: Vec<Vec<ControlValue>>,
    packets: Vec<Packet>,
    times: Vec<Time>,
}

/// No variable is set, and the packet comes to port 1 of the first switch.
fn start_of(
    alloc: Global,
    property: &TypedProperty,
    network: &Network,
    frame: Vec<u8>,
) -> Result<Start, AllocError>
    ensures contents { IfOk result (λ s. switches_view s.contents ≡ map (λ name. all_unset (decls_of property.now)) network.now.names) }
    ensures packets { IfOk result (λ s. map arrival_of s.packets.items ≡ arrival frame.items ∷ []) }
    ensures times { IfOk result (λ s. map time_view s.times.items ≡ beginning ∷ []) }
{
    let contents = contents_before(alloc, property, network)?;
    let packets = packet(alloc, frame)?;
    let times = time(alloc)?;
    Ok(Start {
        contents,
        packets,
        times,
    })
}

fn packet(alloc: Global, frame: Vec<u8>) -> Result<Vec<Packet>, AllocError>
    ensures { IfOk result (λ v. map arrival_of v.items ≡ arrival frame.items ∷ []) }
{
    let mut packets = Vec::new(alloc);
    packets.push(Packet {
        switch: 0,
        port: 1,
        bytes: frame,
    })?;
    Ok(packets)
}

fn time(alloc: Global) -> Result<Vec<Time>, AllocError>
    ensures { IfOk result (λ v. map time_view v.items ≡ beginning ∷ []) }
{
    let mut times = Vec::new(alloc);
    times.push(Time {
        seconds: 0,
        micros: 0,
    })?;
    Ok(times)
}

/// What the property and the wire program are linked to, and what is to be run of it.
fn load_linked(alloc: Global, property: TypedProperty, frame: Vec<u8>) -> Result<LinkedJob, Stop>
    requires typed { IsWellTyped (property_of property) }
    requires read { IsOfText (property_of property) }
    requires free { course.first_control (property_of property).decls ≡ None }
    requires short { length frame.items ≤ 65535 }
    ensures follows { (s : StoreState) → Follows (linked_course (property_of property) frame.items) task_of s s result }
    ensures read { IfOk result IsLinkedJob }
{
    texts_are_plain();
    texts_declare_words();
    files_fit();
    let line = wire_line(alloc)?;
    let linked = load_link(alloc, &line.program, &property, &line.network, ROOM)?;
    let start = start_of(alloc, &property, &line.network, frame)?;
    Ok(LinkedJob {
        property,
        program: line.program,
        linked,
        network: line.network,
        hops: HOPS,
        room: ROOM,
        tables: line.tables,
        contents: start.contents,
        packets: start.packets,
        times: start.times,
        events: Vec::new(alloc),
    })
}

/// The job of a property's file and a frame's, with what is linked for it.
pub fn load_wire<S: Store>(
    alloc: Global,
    store: &mut S,
    property: &str,
    frame: &str,
) -> Result<LinkedJob, Stop>
    ensures follows { Follows (wire_course property.now frame.now) task_of (S.state store.old) (S.state store.new) result }
    ensures read { IfOk result IsLinkedJob }
{
    let tree = load_property(alloc, store, property)?;
    uncontrolled(alloc, property, &tree)?;
    let bytes = read_file(alloc, store, frame, FRAME_LIMIT, Area::Capture)?;
    load_linked(alloc, tree, bytes)
}
