//! A well-typed property and its copy.

use crate::texts::{same, typed};
use indus_types::TypedProperty;
use std::alloc::Global;
use std::mem::forget;
use std::process::Abort;

/// Its variable is looked up twice.
const TENANTS: &str =
    "control dict<bit<9>, bit<8>> tenants; header bit<9> i = standard_metadata.ingress_port; header bit<9> o = standard_metadata.egress_port; {} {} {report(tenants[o], tenants[i]);}";

/// The property and its places, the numbers of its variables, and its sums.
fn shown(rt: &impl Abort, alloc: Global, p: &TypedProperty) -> String {
    let (tree, o, other) = (p.property(), p.number("o"), p.number("x"));
    let (weight, bits) = (p.weight(), p.tele_bits());
    format!(in alloc; "{tree:?} {o:?} {other:?} {weight} {bits}").expect(rt, "memory")
}

#[test]
fn a_copy_is_typed(rt: HostRuntime) {
    let alloc = rt.alloc();
    let p = typed(&rt, alloc, TENANTS);
    let copy = p.copy(alloc).expect(&rt, "memory");
    let text = shown(&rt, alloc, &copy);
    same(&rt, &text, &shown(&rt, alloc, &p), "a copy");
    assert!(rt; text.ends_with(" Some(2) None 5 8"), "{text}");
    forget(copy);
    forget(p);
}
