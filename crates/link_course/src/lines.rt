//! The lines of programs that are not linked.

ghost use Rattle.std.specs.Prelude.{◌≡◌, IfOk, string_bytes};
ghost use Rattle.link_course.specs.Lines as lines;

use std::alloc::{AllocError, Global};

/// A name that is refused.
pub(crate) fn name_text(alloc: Global, cause: &str, name: &str) -> Result<String, AllocError>
    ensures { IfOk result (λ s. string_bytes s ≡ lines.name_line cause.now name.now) }
{
    format!(in alloc; "hydra: link {cause} {name}\n")
}

/// Telemetry that needs more bytes than there is room for.
pub(crate) fn room_text(alloc: Global, need: u64, room: u16) -> Result<String, AllocError>
    ensures { IfOk result (λ s. string_bytes s ≡ lines.room_line need room) }
{
    format!(in alloc; "hydra: link RoomShort {need} {room}\n")
}

/// A property that is too large.
pub(crate) fn weight_text(alloc: Global, weight: u32) -> Result<String, AllocError>
    ensures { IfOk result (λ s. string_bytes s ≡ lines.weight_line weight) }
{
    format!(in alloc; "hydra: link TooLarge {weight}\n")
}
