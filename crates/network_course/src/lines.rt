//! The lines of refused files.

ghost use Rattle.std.specs.Prelude.{◌≡◌, IfOk, string_bytes};
ghost use Rattle.job_course.specs.Lines as job;
ghost use Rattle.network_course.specs.Lines as lines;

use crate::places::PlaceFault;
use job_course::{Area, cause_text};
use json_parts::ShapeFault;
use network_file::NetworkFault;
use std::alloc::{AllocError, Global};

/// A file with a cause and the path of its place.
pub fn path_text(alloc: Global, name: &str, cause: &str, path: &str) -> Result<String, AllocError>
    ensures { IfOk result (λ s. string_bytes s ≡ lines.path_line name.now cause.now path.now) }
{
    format!(in alloc; "hydra: network {name} {cause} {path}\n")
}

fn memory_text(alloc: Global) -> Result<String, AllocError>
    ensures { IfOk result (λ s. string_bytes s ≡ job.memory_line) }
{
    String::from_str(alloc, "hydra: memory\n")
}

pub(crate) fn shape_text(
    alloc: Global,
    name: &str,
    fault: &ShapeFault,
) -> Result<String, AllocError>
    ensures { IfOk result (λ s. string_bytes s ≡ lines.shape_line name.now fault.now) }
{
    match fault {
        ShapeFault::NoMemory => memory_text(alloc),
        ShapeFault::Shape { path } => path_text(alloc, name, "Shape", path.as_str()),
    }
}

pub(crate) fn network_text(
    alloc: Global,
    name: &str,
    fault: &NetworkFault,
) -> Result<String, AllocError>
    ensures { IfOk result (λ s. string_bytes s ≡ lines.network_line name.now fault.now) }
{
    match fault {
        NetworkFault::NoMemory => memory_text(alloc),
        NetworkFault::Shape { path } => path_text(alloc, name, "Shape", path.as_str()),
        NetworkFault::NameTwice { path } => path_text(alloc, name, "NameTwice", path.as_str()),
        NetworkFault::NoSuchSwitch { path } => {
            path_text(alloc, name, "NoSuchSwitch", path.as_str())
        }
        NetworkFault::PortTwice { path } => path_text(alloc, name, "PortTwice", path.as_str()),
        NetworkFault::BadPort { path } => path_text(alloc, name, "BadPort", path.as_str()),
        NetworkFault::Limit => cause_text(alloc, Area::Network, name, "Limit"),
    }
}

pub(crate) fn place_text(
    alloc: Global,
    name: &str,
    fault: &PlaceFault,
) -> Result<String, AllocError>
    ensures { IfOk result (λ s. string_bytes s ≡ lines.place_line name.now fault.now) }
{
    match fault {
        PlaceFault::NoMemory => memory_text(alloc),
        PlaceFault::NoSuchSwitch { path } => {
            path_text(alloc, name, "NoSuchSwitch", path.as_str())
        }
        PlaceFault::LinkedPort { path } => path_text(alloc, name, "LinkedPort", path.as_str()),
    }
}
