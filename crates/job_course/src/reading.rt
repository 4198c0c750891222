//! Files that are read, with their refusals.

ghost use Rattle.std.specs.Prelude.{◌≡◌, ◌≤◌, length, IfOk, string_bytes};
ghost use Rattle.job_course.specs.Course.{file};
ghost use Rattle.job_course.specs.Lines.{long_line};
ghost use Rattle.job_course.specs.Steps.{Follows};

use crate::status::{Area, Refusal, Status, Stop};
use outside::{Store, StoreStop};
use std::alloc::{AllocError, Global};

/// A file of at most `limit` bytes. A longer one is refused in its area.
pub fn read_file<S: Store>(
    alloc: Global,
    store: &mut S,
    name: &str,
    limit: u64,
    area: Area,
) -> Result<Vec<u8>, Stop>
    ensures follows { Follows (file name.now limit area) (λ b. b.items) (S.state store.old) (S.state store.new) result }
    ensures within { IfOk result (λ b. length b.items ≤ limit) }
{
    match store.read(alloc, name, limit) {
        Ok(bytes) => Ok(bytes),
        Err(StoreStop::NoMemory) => Err(Stop::Starved),
        Err(StoreStop::TooLong) => Err(Stop::Refused(Refusal {
            status: area.status(),
            line: long_text(alloc, area, name)?,
        })),
        Err(_) => Err(Stop::Refused(Refusal {
            status: Status::ReadFault,
            line: format!(in alloc; "hydra: read {name}\n")?,
        })),
    }
}

fn long_text(alloc: Global, area: Area, name: &str) -> Result<String, AllocError>
    ensures { IfOk result (λ s. string_bytes s ≡ long_line area name.now) }
{
    let word = area.word();
    format!(in alloc; "hydra: {word} {name} Long\n")
}
