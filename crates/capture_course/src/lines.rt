//! The lines of refused captures.

ghost use Rattle.std.specs.Prelude.{◌≡◌, IfOk, string_bytes};
ghost use Rattle.capture_course.specs.Lines as lines;

use job_course::{Area, cause_text, place_text};
use pcap_io::CaptureFault;
use std::alloc::{AllocError, Global};

/// Why a file is no capture.
pub(crate) fn capture_text(
    alloc: Global,
    name: &str,
    fault: CaptureFault,
) -> Result<String, AllocError>
    ensures { IfOk result (λ s. string_bytes s ≡ lines.capture_line name.now fault) }
{
    match fault {
        CaptureFault::NoMemory => String::from_str(alloc, "hydra: memory\n"),
        CaptureFault::ShortHeader => cause_text(alloc, Area::Capture, name, "ShortHeader"),
        CaptureFault::BadMagic => cause_text(alloc, Area::Capture, name, "BadMagic"),
        CaptureFault::BadVersion => cause_text(alloc, Area::Capture, name, "BadVersion"),
        CaptureFault::NotEthernet => cause_text(alloc, Area::Capture, name, "NotEthernet"),
        CaptureFault::TornRecord { at } => {
            place_text(alloc, Area::Capture, name, "TornRecord", at)
        }
        CaptureFault::TooLong { at } => place_text(alloc, Area::Capture, name, "TooLong", at),
    }
}
