//! Copies of trees.

use crate::texts::{read, same};
use indus_tree::{DeclKind, Op, Property, Ty};
use std::alloc::Global;
use std::mem::forget;
use std::process::Abort;

/// Every form once, over several lines.
const EVERY_FORM: &str = "\
control set<(bit<8>, bool)> s; control dict<bit<9>, bit<8>> d; tele bit<8>[4] l;
sensor bool[3] a = true; header bool v = hdr.h.isValid(); tele bit<8> n;
{l.push((bit<8>) ~2w1); n = n + 1;}
{for (x, y in l, l) {a[1] = !((x, true) in s);}}
{if (n == 3) {reject;} else {report(length(l), d[9]);}}
";

/// Parts of the tree.
const PARTS: &str = "\
SetOf([Bit(8), Bool])
DictOf([Bit(9)], Bit(8))
start: Some(Flag(45, true))
valid: true
Cast(71, 8, Invert(77, Num(78, Literal { width: 2, value: 1 })))";

/// A property with its places.
fn shown(rt: &impl Abort, alloc: Global, p: &Property) -> String {
    format!(in alloc; "{p:?}").expect(rt, "memory")
}

/// With its places, which rise over the tokens.
#[test]
fn a_copy_is_the_same_tree(rt: HostRuntime) {
    let property = read(&rt, rt.alloc(), EVERY_FORM);
    let copy = property.copy(rt.alloc()).expect(&rt, "memory");
    let text = shown(&rt, rt.alloc(), &copy);
    same(&rt, &text, &shown(&rt, rt.alloc(), &property), "a copy");
    assert!(rt; copy.decls.len() == 6);
    assert!(rt; copy.check.len() == 1);
    forget(property);
    forget(copy);
    for part in PARTS.lines() {
        assert!(rt; text.contains(part), "{part}");
    }
}

#[test]
fn types_kinds_and_operators_are_copied(rt: HostRuntime) {
    assert!(rt; matches!(Ty::Bit(9).copy(rt.alloc()), Ok(Ty::Bit(9))));
    assert!(rt; matches!(DeclKind::Sensor.copy(rt.alloc()), Ok(DeclKind::Sensor)));
    assert!(rt; matches!(Op::Shr.copy(rt.alloc()), Ok(Op::Shr)));
}
