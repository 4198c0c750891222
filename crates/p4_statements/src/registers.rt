//! The registers of a program, by their full names.

ghost use Rattle.std.specs.Prelude.{◌≡◌, [], IfOk};
ghost use Rattle.p4_meaning.specs.Statements.{cell_at, cell_set, put_cells};
ghost use Rattle.p4_parts.specs.Places.{Tells};
ghost use Rattle.p4_statements.specs.Cells.{cells_in, names_in, place_in};

use bit_values::Bits;
use indexmap::IndexMap;
use lex_text::Name;
use p4_parts::add_place;
use p4_registers::Cells;
use std::alloc::{AllocError, Global};
use std::marker::Model;

/// Registers with their cells, and a table of their names. Of those of one name the first counts.
/// Contracts see the names with the cells, in order.
pub struct Registers {
    rows: Vec<(Name, Cells)>,
    places: IndexMap<String, usize>,
}

impl Drop for Registers {
    fn drop(self) {
        let Registers {
            rows: _rows,
            places: _places,
        } = self;
    }
}

impl Model for Registers {
    ghost use Rattle.p4_statements.specs.Cells.{Rows};

    ghost Value = { Rows };

    ghost use Rattle.p4_statements.specs.Kept.{rows_of, IsKept};

    ghost view = { rows_of };

    ghost invariant = { IsKept };
}

/// The places of registers by their names.
fn places_of(alloc: Global, rows: &[(Name, Cells)]) -> Result<IndexMap<String, usize>, AllocError>
    ensures { IfOk result (λ places. Tells places.entries (names_in rows.now)) }
{
    let mut places = IndexMap::new(alloc);
    for i in 0..rows.len() {
        add_place(alloc, &mut places, &rows[i].0, i)?;
    }
    Ok(places)
}

impl Registers {
    /// No register.
    pub fn none(alloc: Global) -> Registers
        ensures { result ≡ [] }
    {
        Registers {
            rows: Vec::new(alloc),
            places: IndexMap::new(alloc),
        }
    }

    /// These registers.
    pub fn of(alloc: Global, rows: Vec<(Name, Cells)>) -> Result<Registers, AllocError>
        ensures { IfOk result (λ r. r ≡ rows.items) }
    {
        let places = places_of(alloc, &rows)?;
        Ok(Registers { rows, places })
    }

    /// How many registers stand before the first of a name.
    fn place(&self, name: &str) -> usize
        ensures { result ≡ place_in self.now name.now }
    {
        match self.places.get(name) {
            Some(place) => *place,
            None => self.rows.len(),
        }
    }

    /// A cell of the first register of a name; out of range, or where there is no register, it is 0.
    pub fn read(&self, name: &str, index: u128) -> Bits
        ensures { result ≡ cell_at (cells_in self.now name.now) index }
    {
        let at = self.place(name);
        if at < self.rows.len() {
            self.rows[at].1.read(index)
        } else {
            Bits::default()
        }
    }

    /// Writes a cell of the first register of a name, if there is one.
    pub fn write(&mut self, name: &str, index: u128, v: Bits)
        ensures { cells_in self.new ≡ put_cells (cells_in self.old) name.now (cell_set (cells_in self.old name.now) index v) }
    {
        let at = self.place(name);
        if at < self.rows.len() {
            self.rows[at].1.write(index, v);
        }
    }
}
