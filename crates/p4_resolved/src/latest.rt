//! What names stand for, where the last of a name counts.

ghost use Rattle.std.specs.Prelude.{◌≡◌, ◌∷◌, ◌++◌, [], List, ℕ, reverse, OnOk};
ghost use Rattle.p4_resolved.specs.Lent.{lent};
ghost use Rattle.p4_resolved.specs.Rows.{at_name, named, place_in};

use indexmap::IndexMap;
use lex_text::Name;
use std::alloc::{AllocError, Global};

/// Names with what they stand for, in order, and a table of them. The last of a name counts.
#[derive(Drop)]
pub struct Latest<T: Drop> {
    rows: Vec<(Name, T)>,
    /// The place of the last row of each name.
    places: IndexMap<String, usize>,
    ghost told: { (x : List ℕ) → at_name places.entries x ≡ place_in (reverse rows.items) x },
}

impl<T: Drop> Latest<T> {
    /// No name.
    pub(crate) fn new(alloc: Global) -> Latest<T>
        ensures { result.rows.items ≡ [] }
    {
        Latest {
            rows: Vec::new(alloc),
            places: IndexMap::new(alloc),
        }
    }

    /// The names with what they stand for, in order.
    pub(crate) fn rows(&self) -> &[(Name, T)]
        ensures { result.now ≡ self.now.rows.items }
    {
        &self.rows
    }

    /// The name stands for this from here on.
    pub(crate) fn push(&mut self, alloc: Global, name: &Name, value: T) -> Result<(), AllocError>
        ensures rows { OnOk result (self.new.rows.items ≡ self.old.rows.items ++ (name.now, value) ∷ []) }
        ensures nearest { OnOk result (reverse self.new.rows.items ≡ (name.now, value) ∷ reverse self.old.rows.items) }
    {
        let key = String::from_str(alloc, name.as_str())?;
        let own = name.copy(alloc)?;
        let place = self.rows.len();
        self.rows.push((own, value))?;
        match self.places.insert(key, place) {
            Ok(_) => Ok(()),
            Err(_) => {
                self.rows.truncate(place);
                Err(AllocError)
            }
        }
    }

    /// What a name stands for.
    pub(crate) fn find(&self, name: &str) -> Option<&T>
        ensures { lent result ≡ named (reverse self.now.rows.items) name.now }
    {
        match self.places.get(name) {
            Some(place) => match self.rows.get(*place) {
                Some(row) => Some(&row.1),
                None => None,
            },
            None => None,
        }
    }
}
