//! Declarations with the table of their names.

ghost use Rattle.std.specs.Prelude.{◌≡◌, map};
ghost use Rattle.std.specs.Option.{option_map};
ghost use Rattle.indus_tree.specs.State.{lookup};
ghost use Rattle.indus_tree.specs.View.{decl_of};
ghost use Rattle.indus_scopes.specs.NameTable.{names_of, texts};

use indexmap::IndexSet;
use indus_tree::Decl;
use lex_text::Name;

/// Declarations with the table of their names, none of which is there twice.
#[derive(Clone, Copy)]
pub struct Declared<'a> {
    pub decls: &'a [Decl],
    pub names: &'a IndexSet<String>,
    pub ghost named: { texts names.now.keys ≡ names_of (map decl_of decls.now) },
}

impl<'a> Declared<'a> {
    /// The declaration of a name.
    pub fn find(&self, name: &Name) -> Option<&'a Decl>
        ensures { option_map (λ d. decl_of d.now) result ≡ lookup (map decl_of self.now.decls.now) name.now }
    {
        match self.names.get_index_of(name.as_str()) {
            Some(i) => self.decls.get(i),
            None => None,
        }
    }
}
