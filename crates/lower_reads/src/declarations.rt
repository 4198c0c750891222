//! Declarations with the table of their names.

ghost use Rattle.std.specs.Prelude.{◌≡◌, ℕ, List, None, Some, map, string_bytes, if◌then◌else◌, IfOk, OnOk};
ghost use Rattle.std.specs.Option.{option_map, option_or};
ghost use Rattle.indus_tree.specs.Hops.{variable_number};
ghost use Rattle.indus_tree.specs.State.{lookup};
ghost use Rattle.indus_tree.specs.View.{decl_of};
ghost use Rattle.lex_text.specs.Names.{same_text};
ghost use Rattle.p4_types.specs.Kept.{at_name};
ghost use Rattle.lower_reads.specs.Places.{HasPlaces};

use indexmap::IndexMap;
use indus_tree::Decl;
use lex_text::Name;
use std::alloc::{AllocError, Global};

/// Declarations. Of those of one name the first counts.
pub struct Declarations {
    pub decls: Vec<Decl>,
    places: IndexMap<String, usize>,
    ghost placed: { HasPlaces places.entries (map decl_of decls.items) },
}

impl Drop for Declarations {
    fn drop(self) {
        let Declarations {
            decls: _decls,
            places: _places,
        } = self;
    }
}

impl Declarations {
    /// The declarations of a list.
    pub fn new(alloc: Global, decls: Vec<Decl>) -> Result<Self, AllocError>
        ensures { IfOk result (λ ds. map decl_of ds.decls.items ≡ map decl_of decls.items) }
    {
        let places = places(alloc, &decls)?;
        Ok(Self { decls, places })
    }

    /// The place of the first declaration of a name.
    fn place(&self, name: &Name) -> Option<usize>
        ensures { result ≡ variable_number (map decl_of self.now.decls.items) name.now }
    {
        self.places.get(name.as_str()).copied()
    }

    /// The declaration of a name.
    pub fn find(&self, name: &Name) -> Option<&Decl>
        ensures { option_map (λ d. decl_of d.now) result ≡ lookup (map decl_of self.now.decls.items) name.now }
    {
        match self.place(name) {
            Some(i) => self.decls.get(i),
            None => None,
        }
    }
}

/// A name with its place, which counts where the name is new.
fn add_place(
    name: String,
    place: usize,
    out: &mut IndexMap<String, usize>,
) -> Result<(), AllocError>
    ensures { (x : List ℕ) → OnOk result (at_name out.new.entries x
        ≡ option_or (at_name out.old.entries x) (if same_text (string_bytes name) x then Some place else None)) }
{
    if out.contains_key(name.as_str()) {
        return Ok(());
    }
    out.insert(name, place)?;
    Ok(())
}

fn places(alloc: Global, decls: &[Decl]) -> Result<IndexMap<String, usize>, AllocError>
    ensures { IfOk result (λ t. HasPlaces t.entries (map decl_of decls.now)) }
{
    let mut out = IndexMap::new(alloc);
    for place in 0..decls.len() {
        let name = String::from_str(alloc, decls[place].name.as_str())?;
        add_place(name, place, &mut out)?;
    }
    Ok(out)
}
