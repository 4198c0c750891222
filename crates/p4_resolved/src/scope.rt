//! What names stand for at a place of a program.

ghost use Rattle.std.specs.Prelude.{◌≡◌, ◌++◌, IfOk, OnOk};
ghost use Rattle.std.specs.Option.{option_map};
ghost use Rattle.p4_meaning.specs.Scope.{full, full_name, first_name, root_of, is_inner, inner_name, path_under, constant_at, constant_named, type_named, type_under};
ghost use Rattle.p4_meaning.specs.Under.{callee_under};
ghost use Rattle.p4_meaning.specs.Value.{width_of};
ghost use Rattle.p4_resolved.specs.Lent.{lent};
ghost use Rattle.p4_resolved.specs.Scopes.{scope_of, inner_of, roots_in, type_or};

use crate::layer::{Inner, Layer, Roots};
use bit_values::Bits;
use lex_text::Name;
use p4_tree::PTy;
use p4_values::{same_text, width_of};
use std::alloc::{AllocError, Global};

/// What names stand for at a place: the layer of the part that is around it, with that of the program
/// around this, or at top level the program's alone; and the action around.
#[derive(Clone, Copy)]
pub struct Scope<'a> {
    pub top: Option<&'a Layer>,
    pub layer: &'a Layer,
    pub inner: Option<&'a Inner>,
}

/// The full name of what is declared in a control or an action.
fn full(alloc: Global, around: &Name, x: &Name) -> Result<Name, AllocError>
    ensures { IfOk result (λ n. n ≡ full around.now x.now) }
{
    let behind = Name::joined(alloc, ".", around.as_str())?;
    Name::joined(alloc, x.as_str(), behind.as_str())
}

/// The full name of a register, a table or an action.
pub fn full_name(alloc: Global, sc: &Scope, x: &Name) -> Result<Name, AllocError>
    ensures { IfOk result (λ n. n ≡ full_name (scope_of sc.now) x.now) }
{
    if sc.layer.own.has(x.as_str()) {
        full(alloc, &sc.layer.control, x)
    } else {
        x.copy(alloc)
    }
}

/// The action around declares the name.
fn is_inner(inner: Option<&Inner>, x: &Name) -> bool
    ensures { result ≡ is_inner (option_map inner_of (lent inner.entry)) x.now }
{
    match inner {
        None => false,
        Some(i) => i.names.has(x.as_str()),
    }
}

/// The full name of what an action declares.
fn inner_name(
    alloc: Global,
    inner: Option<&Inner>,
    control: &Name,
    x: &Name,
) -> Result<Name, AllocError>
    ensures { IfOk result (λ n. n ≡ inner_name (option_map inner_of (lent inner.entry)) control.now x.now) }
{
    match inner {
        None => x.copy(alloc),
        Some(i) => {
            let in_action = full(alloc, &i.action, x)?;
            full(alloc, control, &in_action)
        }
    }
}

/// The fixed root of a name.
fn root_of(alloc: Global, r: &Roots, x: &Name) -> Result<Name, AllocError>
    ensures { IfOk result (λ n. n ≡ root_of (roots_in r.now) x.now) }
{
    if same_text(r.headers.as_str(), x.as_str()) {
        Name::new(alloc, "hdr")
    } else if same_text(r.metadata.as_str(), x.as_str()) {
        Name::new(alloc, "meta")
    } else if same_text(r.standard.as_str(), x.as_str()) {
        Name::new(alloc, "standard_metadata")
    } else {
        x.copy(alloc)
    }
}

/// What a path's first name is in a store.
pub fn first_name(alloc: Global, sc: &Scope, x: &Name) -> Result<Name, AllocError>
    ensures { IfOk result (λ n. n ≡ first_name (scope_of sc.now) x.now) }
{
    if is_inner(sc.inner, x) {
        inner_name(alloc, sc.inner, &sc.layer.control, x)
    } else {
        root_of(alloc, &sc.layer.roots, x)
    }
}

/// The names go behind those that are there.
fn push_path(alloc: Global, path: &[Name], copies: &mut Vec<Name>) -> Result<(), AllocError>
    ensures { OnOk result (copies.new.items ≡ copies.old.items ++ path.now) }
{
    for x in path {
        copies.push(x.copy(alloc)?)?;
    }
    Ok(())
}

/// The path of a store that a path is.
pub fn path_under(alloc: Global, sc: &Scope, path: &[Name]) -> Result<Vec<Name>, AllocError>
    ensures { IfOk result (λ v. v.items ≡ path_under (scope_of sc.now) path.now) }
{
    let mut copies = Vec::new(alloc);
    match path {
        [] => Ok(copies),
        [x, rest @ ..] => {
            copies.push(first_name(alloc, sc, x)?)?;
            push_path(alloc, rest, &mut copies)?;
            Ok(copies)
        }
    }
}

/// The callee of a call: an action, a table or a register by its full name, a header by its path.
pub fn callee_under(alloc: Global, sc: &Scope, path: &[Name]) -> Result<Vec<Name>, AllocError>
    ensures { IfOk result (λ v. v.items ≡ callee_under (scope_of sc.now) path.now) }
{
    let mut copies = Vec::new(alloc);
    match path {
        [] => Ok(copies),
        [x, rest @ ..] => match rest {
            [] => {
                copies.push(full_name(alloc, sc, x)?)?;
                Ok(copies)
            }
            [verb, more @ ..] => match more {
                [] => {
                    copies.push(full_name(alloc, sc, x)?)?;
                    copies.push(verb.copy(alloc)?)?;
                    Ok(copies)
                }
                [_third, _others @ ..] => {
                    copies.push(first_name(alloc, sc, x)?)?;
                    push_path(alloc, rest, &mut copies)?;
                    Ok(copies)
                }
            },
        },
    }
}

/// The word of the nearest constant of a name.
fn constant_named(sc: &Scope, x: &str) -> Option<Bits>
    ensures { result ≡ constant_named (scope_of sc.now).constants x.now }
{
    match sc.layer.constants.find(x) {
        Some(word) => Some(*word),
        None => match sc.top {
            Some(top) => top.constants.find(x).copied(),
            None => None,
        },
    }
}

/// The word of the constant that a path is, which no declaration of the action around hides.
pub fn constant_at(sc: &Scope, path: &[Name]) -> Option<Bits>
    ensures { result ≡ constant_at (scope_of sc.now) path.now }
{
    match path {
        [] => None,
        [x, rest @ ..] => match rest {
            [] => {
                if is_inner(sc.inner, x) {
                    None
                } else {
                    constant_named(sc, x.as_str())
                }
            }
            [_second, _others @ ..] => None,
        },
    }
}

/// The type that the nearest typedef of a name stands for; `None` where there is none.
fn type_named<'a>(sc: &'a Scope, x: &str) -> Option<&'a PTy>
    ensures { type_or x.now (lent result) ≡ type_named (scope_of sc.now).types x.now }
{
    match sc.layer.types.find(x) {
        Some(ty) => Some(ty),
        None => match sc.top {
            Some(top) => top.types.find(x),
            None => None,
        },
    }
}

/// The type that a type stands for.
pub fn type_under(alloc: Global, sc: &Scope, ty: &PTy) -> Result<PTy, AllocError>
    ensures { IfOk result (λ t. t ≡ type_under (scope_of sc.now).types ty.now) }
{
    match ty {
        PTy::Bit(w) => Ok(PTy::Bit(*w)),
        PTy::Bool => Ok(PTy::Bool),
        PTy::Named(x) => match type_named(sc, x.as_str()) {
            None => Ok(PTy::Named(x.copy(alloc)?)),
            Some(t) => t.copy(alloc),
        },
    }
}

/// The bits of a value of the type that a type stands for.
pub fn width_under(sc: &Scope, ty: &PTy) -> u8
    ensures { result ≡ width_of (type_under (scope_of sc.now).types ty.now) }
{
    match ty {
        PTy::Bit(w) => *w,
        PTy::Bool => 1,
        PTy::Named(x) => match type_named(sc, x.as_str()) {
            None => 0,
            Some(t) => width_of(t),
        },
    }
}
