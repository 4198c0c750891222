//! Which name of some is taken, the first.

ghost use Rattle.std.specs.Prelude.{◌≡◌, ◌∷◌, ◌++◌, []};
ghost use Rattle.link_faults.specs.WrittenNames.{Names, first_taken};
ghost use Rattle.link_checks.specs.View.{text_of};

use lex_text::Name;
use p4_values::same_text;

/// The first that is there. So of the names of two parts it is the first that is taken, where the two are
/// those of the parts.
pub(crate) fn first<'a>(a: Option<&'a str>, b: Option<&'a str>) -> Option<&'a str>
    ensures { (x y : Names) → text_of a.entry ≡ first_taken x → text_of b.entry ≡ first_taken y
        → text_of result ≡ first_taken (x ++ y) }
{
    match a {
        Some(_) => a,
        None => b,
    }
}

/// The name, where it is taken.
pub(crate) fn in_name(x: &Name) -> Option<&str>
    ensures { text_of result ≡ first_taken (x.now ∷ []) }
{
    if x.as_str().starts_with("hydra_") || same_text("1213809746", x.as_str()) {
        Some(x.as_str())
    } else {
        None
    }
}

/// The first of some names.
pub(crate) fn in_names(names: &[Name]) -> Option<&str>
    ensures { text_of result ≡ first_taken names.now }
{
    for x in names {
        let taken = in_name(x);
        if taken.is_some() {
            return taken;
        }
    }
    None
}
