//! The sizes of lists.

ghost use Rattle.std.specs.Prelude.{◌≡◌, map};
ghost use Rattle.indus_tree.specs.View.{decl_of, shape_of};
ghost use Rattle.indus_types.specs.Sums.{is_list, size_of, smallest};

use indus_scopes::declared::Declared;
use indus_tree::Shape;
use lex_text::Name;

/// The size of a list, and 0 where the name is of no list.
pub fn size_of(decls: &Declared, name: &Name) -> u8
    ensures { result ≡ size_of (map decl_of decls.now.decls.now) name.now }
{
    match decls.find(name) {
        Some(d) => match &d.shape {
            Shape::List(_, n) => *n,
            _ => 0,
        },
        None => 0,
    }
}

/// Whether the name is of a list.
pub fn is_list(decls: &Declared, name: &Name) -> bool
    ensures { result ≡ is_list (map decl_of decls.now.decls.now) name.now }
{
    match decls.find(name) {
        Some(d) => match &d.shape {
            Shape::List(_, _) => true,
            _ => false,
        },
        None => false,
    }
}

/// The smallest size of some lists.
pub fn smallest(decls: &Declared, lists: &[Name]) -> u8
    ensures { result ≡ smallest (map decl_of decls.now.decls.now) lists.now }
{
    let mut least: Option<u8> = None;
    for x in lists {
        least = Some(match least {
            None => size_of(decls, x),
            Some(n) => n.min(size_of(decls, x)),
        });
    }
    least.unwrap_or(0)
}
