//! The lines of refused files.

ghost use Rattle.std.specs.Prelude.{◌≡◌, ◌≢◌, IfOk, string_bytes};
ghost use Rattle.table_faults.specs.declared.table.TableFault.TheVariants as table;
ghost use Rattle.table_course.specs.Lines as lines;

use job_course::{Area, place_text};
use network_course::path_text;
use schedule_file::ScheduleFault;
use std::alloc::{AllocError, Global};
use table_faults::{EntryFault, TableFault};

fn entry_word(fault: EntryFault) -> &'static str
    ensures { result.now ≡ lines.entry_word fault }
{
    match fault {
        EntryFault::NoSuchAction => "Entry NoSuchAction",
        EntryFault::WidthDiffers => "Entry WidthDiffers",
        EntryFault::SameEntry => "Entry SameEntry",
        EntryFault::SamePriority => "Entry SamePriority",
        EntryFault::TableLimit => "Entry TableLimit",
        EntryFault::ConstDefault => "Entry ConstDefault",
        EntryFault::NoMemory => "Entry NoMemory",
    }
}

fn table_word(fault: &TableFault) -> &'static str
    ensures { result.now ≡ lines.table_word fault.now }
{
    match fault {
        TableFault::NoMemory => "",
        TableFault::Shape { .. } => "Shape",
        TableFault::NoSuchTable { .. } => "NoSuchTable",
        TableFault::NoSuchVariable { .. } => "NoSuchVariable",
        TableFault::Value { .. } => "Value",
        TableFault::Entry { fault, .. } => entry_word(*fault),
        TableFault::KeyTwice { .. } => "KeyTwice",
        TableFault::NoSuchSwitch { .. } => "NoSuchSwitch",
    }
}

fn table_path(fault: &TableFault) -> &str
    ensures { result.now ≡ lines.table_path fault.now }
{
    match fault {
        TableFault::NoMemory => "",
        TableFault::Shape { path }
        | TableFault::NoSuchTable { path }
        | TableFault::NoSuchVariable { path }
        | TableFault::Value { path }
        | TableFault::Entry { path, .. }
        | TableFault::KeyTwice { path }
        | TableFault::NoSuchSwitch { path } => path.as_str(),
    }
}

/// Why a file of tables or of contents is refused.
pub fn table_text(alloc: Global, name: &str, fault: &TableFault) -> Result<String, AllocError>
    ensures { IfOk result (λ s. string_bytes s ≡ lines.table_line name.now fault.now) }
{
    path_text(alloc, name, table_word(fault), table_path(fault))
}

/// Why what a member of a schedule sets is refused.
fn control_text(
    alloc: Global,
    name: &str,
    at: u32,
    fault: &TableFault,
) -> Result<String, AllocError>
    ensures { IfOk result (λ s. string_bytes s ≡ lines.control_line name.now at fault.now) }
{
    let word = table_word(fault);
    let path = table_path(fault);
    format!(in alloc; "hydra: network {name} Control {word} {at} {path}\n")
}

/// Why a schedule is refused.
pub(crate) fn schedule_text(
    alloc: Global,
    name: &str,
    fault: &ScheduleFault,
) -> Result<String, AllocError>
    ensures { IfOk result (λ s. string_bytes s ≡ lines.schedule_line name.now fault.now) }
{
    match fault {
        ScheduleFault::NoMemory => String::from_str(alloc, "hydra: memory\n"),
        ScheduleFault::Shape { at } => {
            place_text(alloc, Area::Network, name, "Shape", *at as u64)
        }
        ScheduleFault::NoSuchPacket { at } => {
            place_text(alloc, Area::Network, name, "NoSuchPacket", *at as u64)
        }
        ScheduleFault::Control { at, fault } => control_text(alloc, name, *at, fault),
        ScheduleFault::Queued { at } => {
            place_text(alloc, Area::Network, name, "Queued", *at as u64)
        }
    }
}
