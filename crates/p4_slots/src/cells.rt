//! The cells of registers, by the names and the numbers that a program has for them.

ghost use Rattle.std.specs.Prelude.{◌≡◌, map, slice_get};
ghost use Rattle.p4_meaning.specs.Statements.{cell_at};
ghost use Rattle.p4_parts.specs.PartsIn.{cells_decl};
ghost use Rattle.p4_statements.specs.Cells.{cells_in};
ghost use Rattle.p4_machine.specs.Passages.{name_or};
ghost use Rattle.slot_controls.specs.Callees.{named_cells};

use bit_values::Bits;
use p4_parts::Cells as Declared;
use p4_registers::Cells;
use p4_values::same_text;

/// The full name of the register of a number; nothing where there is none.
pub(crate) fn register_name(declared: &[Declared], number: u32) -> &str
    ensures { result.now ≡ name_or (slice_get (map cells_decl declared.now) number) }
{
    match declared.get(number as usize) {
        Some(cells) => cells.name.as_str(),
        None => "",
    }
}

/// A cell of the first register of a name; out of range, or where there is no register, it is 0.
pub(crate) fn read_named(
    declared: &[Declared],
    registers: &[Cells],
    name: &str,
    index: u128,
) -> Bits
    ensures { result ≡ cell_at (cells_in (named_cells (map cells_decl declared.now) registers.now) name.now) index }
{
    for (register, cells) in declared.iter().zip(registers) {
        if same_text(register.name.as_str(), name) {
            return cells.read(index);
        }
    }
    Bits::default()
}
