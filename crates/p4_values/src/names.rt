//! Names and paths: whether two are the same, and the parts of a path.

ghost use Rattle.std.specs.Prelude.{◌≡◌, ◌∷◌, ◌++◌, [], IfOk};
ghost use Rattle.lex_text.specs.Names.{same_text, same_path, parent};

use lex_text::Name;
use std::alloc::{AllocError, Global};

/// Whether two texts are the same.
pub fn same_text(a: &str, b: &str) -> bool
    ensures { result ≡ same_text a.now b.now }
{
    a == b
}

/// Whether two paths are the same.
pub fn same_path(a: &[Name], b: &[Name]) -> bool
    ensures { result ≡ same_path a.now b.now }
{
    if a.len() != b.len() {
        return false;
    }
    for i in 0..a.len() {
        if !same_text(a[i].as_str(), b[i].as_str()) {
            return false;
        }
    }
    true
}

/// The path without its last name.
pub fn parent(path: &[Name]) -> &[Name]
    ensures { result.now ≡ parent path.now }
{
    &path[..path.len().saturating_sub(1)]
}

/// An equal path.
pub fn copy_path(alloc: Global, path: &[Name]) -> Result<Vec<Name>, AllocError>
    ensures { IfOk result (λ v. v.items ≡ path.now) }
{
    let mut copies = Vec::with_capacity(alloc, path.len())?;
    for name in path {
        copies.push(name.copy(alloc)?)?;
    }
    Ok(copies)
}

/// The path of one name.
pub fn path_of_one(alloc: Global, name: &Name) -> Result<Vec<Name>, AllocError>
    ensures { IfOk result (λ v. v.items ≡ name.now ∷ []) }
{
    let mut path = Vec::new(alloc);
    path.push(name.copy(alloc)?)?;
    Ok(path)
}

/// The path of two names.
pub fn path_of_two(alloc: Global, first: &str, second: &str) -> Result<Vec<Name>, AllocError>
    ensures { IfOk result (λ v. v.items ≡ first.now ∷ second.now ∷ []) }
{
    let mut path = Vec::new(alloc);
    path.push(Name::new(alloc, first)?)?;
    path.push(Name::new(alloc, second)?)?;
    Ok(path)
}

/// The path of a header's field.
pub fn field_path(alloc: Global, header: &[Name], field: &Name) -> Result<Vec<Name>, AllocError>
    ensures { IfOk result (λ v. v.items ≡ header.now ++ field.now ∷ []) }
{
    let mut path = copy_path(alloc, header)?;
    path.push(field.copy(alloc)?)?;
    Ok(path)
}
