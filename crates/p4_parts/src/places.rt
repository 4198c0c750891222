//! Actions with the places of their names.

ghost use Rattle.std.specs.Prelude.{◌≡◌, ◌∷◌, ◌++◌, [], List, ℕ, length, map, IfOk, OnOk};
ghost use Rattle.std.specs.Option.{option_map};
ghost use Rattle.p4_meaning.specs.Actions.{action_named};
ghost use Rattle.p4_resolved.specs.Lent.{lent};
ghost use Rattle.p4_parts.specs.PartsIn.{action_in};
ghost use Rattle.p4_parts.specs.Places.{Tells, action_names, first_in};

use crate::parts::Action;
use indexmap::IndexMap;
use lex_text::Name;
use std::alloc::{AllocError, Global};

/// Actions, and a table of the place of the first of each name.
#[derive(Clone, Copy)]
pub struct ActionTable<'a> {
    pub actions: &'a [Action],
    pub places: &'a IndexMap<String, usize>,
    pub ghost told: { Tells places.now.entries (action_names actions.now) },
}

impl<'a> ActionTable<'a> {
    /// The place of the action of a full name.
    pub fn place(&self, name: &str) -> Option<usize>
        ensures { result ≡ first_in (action_names self.now.actions.now) name.now }
    {
        self.places.get(name).copied()
    }

    /// The action of a full name.
    pub fn named(&self, name: &str) -> Option<&'a Action>
        ensures { option_map action_in (lent result) ≡ action_named (map action_in self.now.actions.now) name.now }
    {
        match self.place(name) {
            Some(place) => match self.actions.get(place) {
                Some(action) => Some(action),
                None => None,
            },
            None => None,
        }
    }
}

/// A name of this place goes behind those of a table, in which the first of each name counts.
pub fn add_place(
    alloc: Global,
    places: &mut IndexMap<String, usize>,
    name: &Name,
    place: usize,
) -> Result<(), AllocError>
    ensures { OnOk result ((names : List (List ℕ)) → Tells places.old.entries names → place ≡ length names
        → Tells places.new.entries (names ++ name.now ∷ [])) }
{
    if places.contains_key(name.as_str()) {
        return Ok(());
    }
    places.insert(String::from_str(alloc, name.as_str())?, place)?;
    Ok(())
}

/// The places of actions by their full names.
pub fn action_places(
    alloc: Global,
    actions: &[Action],
) -> Result<IndexMap<String, usize>, AllocError>
    ensures { IfOk result (λ places. Tells places.entries (action_names actions.now)) }
{
    let mut places = IndexMap::new(alloc);
    for i in 0..actions.len() {
        add_place(alloc, &mut places, &actions[i].name, i)?;
    }
    Ok(places)
}
