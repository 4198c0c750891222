//! The cells of a switch's registers.

ghost use Rattle.std.specs.Prelude.{◌≡◌, map, length, slice_get, Some, IfOk, string_bytes};
ghost use Rattle.p4_meaning.specs.Parts.{parts_of};
ghost use Rattle.p4_parts.specs.PartsIn.{cells_decl};
ghost use Rattle.report_writer.specs.Texts.{cells_of};
ghost use Rattle.register_texts.specs.Rows.{cell_if, cells_from, first_cell, register_cells, registers_cells};
ghost use Rattle.register_texts.specs.Which.{is_one_of};

use crate::which::Which;
use bit_values::Bits;
use p4_machine::Pass;
use p4_parts::Cells;
use p4_values::same_text;
use report_writer::{CellRow, cells_text};
use std::alloc::{AllocError, Global};

/// So many registers, or cells of one, are numbered by 32 bits. No memory holds more.
fn numbered(count: u128) -> Result<u32, AllocError>
    ensures { IfOk result (λ n. n ≡ count) }
{
    match u32::try_from(count) {
        Ok(count) => Ok(count),
        Err(_) => Err(AllocError),
    }
}

/// The line of a cell, where it is not 0.
fn cell_text<'a>(
    alloc: Global,
    switch: &'a str,
    register: &'a str,
    index: u32,
    value: Bits,
) -> Result<String, AllocError>
    ensures { IfOk result (λ s. string_bytes s ≡ cells_of (cell_if switch.now register.now index value.value)) }
{
    if value.value == 0 {
        return Ok(String::new(alloc));
    }
    let row = CellRow {
        switch,
        register,
        index,
        value,
    };
    cells_text(alloc, &[row])
}

/// The cells of a register that are not 0, which is shown by this name.
fn register_text<P: Pass>(
    alloc: Global,
    name: &str,
    shown: &str,
    switch: &P,
    number: u32,
    register: &Cells,
) -> Result<String, AllocError>
    requires { slice_get (parts_of (P.program switch.now)).registers number ≡ Some (cells_decl register.now) }
    ensures { IfOk result (λ s. string_bytes s ≡ cells_of (cells_from name.now shown.now
        (P.cells switch.now register.now.name) 0 register.now.count)) }
{
    let mut text = String::new(alloc);
    for index in 0..numbered(register.count)? {
        let value = switch.cell(number, index);
        let line = cell_text(alloc, name, shown, index, value)?;
        text.push_str(line.as_str())?;
    }
    Ok(text)
}

/// The same, where the register is meant.
fn meant_text<P: Pass>(
    alloc: Global,
    which: Which,
    name: &str,
    shown: &str,
    switch: &P,
    number: u32,
    register: &Cells,
) -> Result<String, AllocError>
    requires { slice_get (parts_of (P.program switch.now)).registers number ≡ Some (cells_decl register.now) }
    ensures { IfOk result (λ s. string_bytes s ≡ cells_of (register_cells (is_one_of which) name.now
        (P.cells switch.now) shown.now (cells_decl register.now))) }
{
    if which.has(shown) {
        register_text(alloc, name, shown, switch, number, register)
    } else {
        Ok(String::new(alloc))
    }
}

/// The cells of some registers of a switch that are not 0, a line each. `names` and `registers` are those
/// of its program.
pub fn switch_text<P: Pass>(
    alloc: Global,
    which: Which,
    name: &str,
    switch: &P,
    names: &[String],
    registers: &[Cells],
) -> Result<String, AllocError>
    requires names { length names.now ≡ length registers.now }
    requires registers { (parts_of (P.program switch.now)).registers ≡ map cells_decl registers.now }
    ensures { IfOk result (λ s. string_bytes s ≡ cells_of (registers_cells (is_one_of which) name.now (P.cells switch.now)
        (map string_bytes names.now) (map cells_decl registers.now))) }
{
    let mut text = String::new(alloc);
    for number in 0..numbered(registers.len() as u128)? {
        let shown = names[number as usize].as_str();
        let register = &registers[number as usize];
        let cells = meant_text(alloc, which, name, shown, switch, number, register)?;
        text.push_str(cells.as_str())?;
    }
    Ok(text)
}

/// The number in the first cell of the register of a full name; 0 where there is none. `registers` are
/// those of the switch's program.
pub fn first_cell<P: Pass>(switch: &P, registers: &[Cells], name: &str) -> Result<u128, AllocError>
    requires { (parts_of (P.program switch.now)).registers ≡ map cells_decl registers.now }
    ensures { IfOk result (λ n. n ≡ first_cell (map cells_decl registers.now)
        (P.cells switch.now) name.now) }
{
    for number in 0..numbered(registers.len() as u128)? {
        if same_text(registers[number as usize].name.as_str(), name) {
            return Ok(switch.cell(number, 0).value);
        }
    }
    Ok(0)
}
