//! Declarations and lists by names.

ghost use Rattle.std.specs.Prelude.{◌≡◌, ◌≤◌, length, map, IfSome};
ghost use Rattle.std.specs.Option.{option_map};
ghost use Rattle.indus_tree.specs.View.{decl_of};
ghost use Rattle.indus_tree.specs.Hops.{variable_number, same_kind, seat_of};
ghost use Rattle.indus_values.specs.View.{cells_in, contents_of, hop_of, or_no_members, seats};

use crate::state::{ControlValue, Env};
use bit_values::Bits;
use indus_tree::{Decl, DeclKind};
use lex_text::Name;

fn same_kind(a: DeclKind, b: DeclKind) -> bool
    ensures { result ≡ same_kind a b }
{
    match (a, b) {
        (DeclKind::Tele, DeclKind::Tele) => true,
        (DeclKind::Sensor, DeclKind::Sensor) => true,
        (DeclKind::Header, DeclKind::Header) => true,
        (DeclKind::Control, DeclKind::Control) => true,
        _ => false,
    }
}

/// The place of a variable among those of its kind.
pub fn seat(kind: DeclKind, decls: &[Decl], name: &Name) -> Option<usize>
    ensures { result ≡ seat_of kind (map decl_of decls.now) name.now }
{
    let mut n: usize = 0;
    for d in decls {
        let there = same_kind(kind, d.kind);
        if d.name.as_str() == name.as_str() {
            return if there { Some(n) } else { None };
        }
        if there {
            n += 1;
        }
    }
    None
}

/// How many variables of a kind are declared.
pub fn seats(kind: DeclKind, decls: &[Decl]) -> usize
    ensures { result ≡ seats kind (map decl_of decls.now) }
{
    let mut n: usize = 0;
    for d in decls {
        if same_kind(kind, d.kind) {
            n += 1;
        }
    }
    n
}

/// The place of a variable among all declarations.
fn number(decls: &[Decl], name: &Name) -> Option<usize>
    ensures number { result ≡ variable_number (map decl_of decls.now) name.now }
    ensures within { IfSome result (λ n. n ≤ length decls.now) }
{
    for (n, d) in decls.iter().enumerate() {
        if d.name.as_str() == name.as_str() {
            return Some(n);
        }
    }
    None
}

/// The list of a variable of a kind.
pub fn cells<'a>(kind: DeclKind, decls: &[Decl], lists: &'a [Vec<Bits>], name: &Name) -> &'a [Bits]
    ensures { result.now ≡ cells_in kind (map decl_of decls.now) lists.now name.now }
{
    match seat(kind, decls, name) {
        None => &[],
        Some(n) => match lists.get(n) {
            None => &[],
            Some(list) => list.as_slice(),
        },
    }
}

/// What a control variable was set to.
pub fn contents<'a>(env: &Env<'a>, name: &Name) -> Option<&'a ControlValue>
    ensures { or_no_members (option_map (λ c. contents_of c.now) result) ≡ (hop_of env.now).contents name.now }
{
    match number(env.decls, name) {
        None => None,
        Some(v) => {
            let n = seats(DeclKind::Control, &env.decls[..v]);
            match env.view.control.get(n) {
                None => None,
                Some(c) => Some(c),
            }
        }
    }
}
