//! Registers at the start.

ghost use Rattle.std.specs.Prelude.{◌≡◌, IfOk, map};
ghost use Rattle.bit_values.specs.Widths.{sound_width};
ghost use Rattle.p4_meaning.specs.Pass.{start_cells, zero_cells};
ghost use Rattle.p4_parts.specs.PartsIn.{cells_decl};
ghost use Rattle.p4_statements.specs.Runs.{cells_in};

use bit_values::sound_width;
use p4_parts::Cells as Declared;
use p4_registers::Cells;
use p4_statements::Registers;
use std::alloc::{AllocError, Global};

/// The cells of a register at the start. No memory holds as many as 32 bits don't count.
fn cells_before(alloc: Global, declared: &Declared) -> Result<Cells, AllocError>
    ensures { IfOk result (λ c. c ≡ zero_cells (sound_width declared.now.width) declared.now.count) }
{
    match u32::try_from(declared.count) {
        Ok(count) => Cells::new(alloc, sound_width(declared.width), count),
        Err(_) => Err(AllocError),
    }
}

/// The registers at the start.
pub fn start_cells(alloc: Global, list: &[Declared]) -> Result<Registers, AllocError>
    ensures { IfOk result (λ v. cells_in v ≡ start_cells (map cells_decl list.now)) }
{
    let mut rows = Vec::new(alloc);
    for declared in list {
        let cells = cells_before(alloc, declared)?;
        rows.push((declared.name.copy(alloc)?, cells))?;
    }
    Registers::of(alloc, rows)
}
