//! The cells of a register.

ghost use Rattle.std.specs.Prelude.{◌≡◌, ◌≤◌, get_or, slice_get, IfOk};
ghost use Rattle.bit_values.specs.Bits.{word};
ghost use Rattle.p4_meaning.specs.Store.{zero_of};
ghost use Rattle.p4_meaning.specs.Statements.{cell_at, cell_set};
ghost use Rattle.p4_meaning.specs.Pass.{zero_cells};

use bit_values::{Bits, sound_width};
use std::alloc::{AllocError, Global};
use std::marker::Model;

/// The cells of a register.
pub struct Cells {
    cells: Vec<Bits>,
}

impl Drop for Cells {
    fn drop(self) {
        let Cells { cells: _cells } = self;
    }
}

impl Model for Cells {
    ghost use Rattle.std.specs.Prelude.{List};
    ghost use Rattle.bit_values.specs.Bits.{Word};

    ghost Value = { List Word };

    ghost view = { λ c. c.cells.items };
}

/// The number 0, as wide as the cells; one bit where there are none.
fn zero_cell(cells: &[Bits]) -> Bits
    ensures { result ≡ zero_of (get_or cells.now 0 (word 1 0)) }
{
    match cells {
        [] => Bits::default(),
        [first, _others @ ..] => Bits::new(first.width(), 0),
    }
}

impl Cells {
    /// So many cells of so many bits, that are 0.
    pub fn new(alloc: Global, width: u8, count: u32) -> Result<Cells, AllocError>
        requires wide { 1 ≤ width }
        requires narrow { width ≤ 128 }
        ensures { IfOk result (λ c. c ≡ zero_cells width count) }
    {
        let mut cells = Vec::new(alloc);
        for i in 0..count {
            cells.push(Bits::new(width, 0))?;
        }
        Ok(Cells { cells })
    }

    /// A cell; out of range it is 0, as wide as the cells.
    pub fn read(&self, index: u128) -> Bits
        ensures { result ≡ cell_at self.now index }
    {
        if index < self.cells.len() as u128 {
            self.cells[index as usize]
        } else {
            zero_cell(&self.cells)
        }
    }

    /// A cell; `None` out of range.
    pub fn get(&self, index: usize) -> Option<Bits>
        ensures { result ≡ slice_get self.now index }
    {
        self.cells.get(index).copied()
    }

    /// Writes a cell, cut or widened to the cells' width; out of range nothing changes.
    pub fn write(&mut self, index: u128, v: Bits)
        ensures { self.new ≡ cell_set self.old index v }
    {
        let v = v.cast(sound_width(self.read(index).width()));
        if index < self.cells.len() as u128 {
            self.cells[index as usize] = v;
        }
    }
}
