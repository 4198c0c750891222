//! The names by which lowered code reads what is around it.

ghost use Rattle.std.specs.Prelude.{◌≡◌, IfOk};
ghost use Rattle.lowered_code.specs.Environment.{rooted, rooted_path};
ghost use Rattle.lower_code.specs.View.{roots_of};

use lex_text::Name;
use std::alloc::{AllocError, Global};

/// A control of the forwarding program, and the names that it gives its parameters.
#[derive(Debug, Drop)]
pub struct Roots {
    /// The control's name.
    pub control: Name,
    /// The headers.
    pub headers: Name,
    /// The metadata.
    pub meta: Name,
    /// The standard metadata.
    pub standard: Name,
}

/// The parameter's name in the place of a fixed one.
fn rooted(alloc: Global, roots: &Roots, name: &Name) -> Result<Name, AllocError>
    ensures { IfOk result (λ x. x ≡ rooted (roots_of roots.now) name.now) }
{
    if "hdr" == name.as_str() {
        return roots.headers.copy(alloc);
    }
    if "meta" == name.as_str() {
        return roots.meta.copy(alloc);
    }
    if "standard_metadata" == name.as_str() {
        return roots.standard.copy(alloc);
    }
    name.copy(alloc)
}

/// A path by the parameters' names.
pub(crate) fn rooted_path(
    alloc: Global,
    roots: &Roots,
    path: &[Name],
) -> Result<Vec<Name>, AllocError>
    ensures { IfOk result (λ v. v.items ≡ rooted_path (roots_of roots.now) path.now) }
{
    let mut out = Vec::new(alloc);
    if let [first, rest @ ..] = path {
        out.push(rooted(alloc, roots, first)?)?;
        for name in rest {
            out.push(name.copy(alloc)?)?;
        }
    }
    Ok(out)
}
