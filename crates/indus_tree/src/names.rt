//! Declarations by their names.

ghost use Rattle.std.specs.Prelude.{◌≡◌, map};
ghost use Rattle.std.specs.Option.{option_map};
ghost use Rattle.indus_tree.specs.State.{lookup};
ghost use Rattle.indus_tree.specs.View.{decl_of};

use crate::tree::Decl;
use lex_text::Name;

/// The declaration of a name.
pub fn find<'a>(decls: &'a [Decl], name: &Name) -> Option<&'a Decl>
    ensures { option_map (λ d. decl_of d.now) result ≡ lookup (map decl_of decls.now) name.now }
{
    for d in decls {
        if d.name.as_str() == name.as_str() {
            return Some(d);
        }
    }
    None
}
