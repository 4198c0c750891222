//! The registers of sensors that are declared in texts, and what their cells hold.

use crate::texts::{put, put_count, same, sides, typed};
use bit_values::Bits;
use p4_tree::{PTy, Register};
use sensor_registers::{cell_value, register_for};
use std::alloc::Global;
use std::mem::forget;
use std::process::Abort;

/// The bits of a cell; 0 where cells hold no numbers.
fn bits(ty: &PTy) -> u8 {
    match ty {
        PTy::Bit(width) => *width,
        PTy::Bool | PTy::Named(_) => 0,
    }
}

/// The name of a register, the bits of a cell and the number of cells.
fn shown(rt: &impl Abort, alloc: Global, register: &Register) -> String {
    let mut line = String::new(alloc);
    put(rt, &mut line, register.name.as_str());
    let width = u128::from(bits(&register.ty));
    put_count(rt, alloc, &mut line, " ", width, " ");
    put_count(rt, alloc, &mut line, "", register.count, "");
    line
}

/// The register of the sensor that a text declares.
fn register(rt: &impl Abort, alloc: Global, declaration: &str) -> String {
    let mut text = String::new(alloc);
    put(rt, &mut text, declaration);
    put(rt, &mut text, " {} {} {}");
    let property = typed(rt, alloc, &text);
    let sensor = property.property().decls.first().expect(rt, "a sensor");
    let register = register_for(alloc, sensor).expect(rt, "memory");
    let line = shown(rt, alloc, &register);
    forget(property);
    line
}

const REGISTERS: &str = "\
sensor bit<32> count; => hydra_s_count 32 1
sensor bit<8> level = 250; => hydra_s_level 8 1
sensor bool seen; => hydra_s_seen 1 1
sensor bit<128>[16] cells; => hydra_s_cells 128 16
sensor bool[3] marks = true; => hydra_s_marks 1 3
";

#[test]
fn registers(rt: HostRuntime) {
    for row in REGISTERS.lines() {
        let (declaration, wanted) = sides(&rt, row);
        let found = register(&rt, rt.alloc(), declaration);
        same(&rt, &found, wanted, row);
    }
}

/// A number of 8 bits.
fn byte(rt: &impl Abort, digits: &str) -> u8 {
    u8::from_str_radix(digits, 10).expect(rt, "a number")
}

/// A cell's number in 8 bits where a sensor began with `start` and has this value.
fn cell(start: u8, value: u8) -> u128 {
    cell_value(
        Bits::new(8, u128::from(start)),
        Bits::new(8, u128::from(value)),
    )
    .value
}

/// Each row is what a sensor began with, the value that it has, and what its cell holds: the xor.
const CELLS: &str = "\
5 3 => 6
250 250 => 0
0 7 => 7
255 1 => 254
";

/// A row is as it says.
fn is_cell(rt: &impl Abort, row: &str) {
    let (words, wanted) = sides(rt, row);
    let (start, value) = words.split_once(" ").expect(rt, "a value");
    let found = cell(byte(rt, start), byte(rt, value));
    assert!(rt; found == u128::from(byte(rt, wanted)), "{row}");
}

#[test]
fn cells(rt: HostRuntime) {
    for row in CELLS.lines() {
        is_cell(&rt, row);
    }
}
