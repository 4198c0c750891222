//! Values of expressions.

use crate::places::{expression, holds, number, places, state, width};
use slot_terms::{Fault, Places, State, eval, typed_term};
use std::alloc::Global;
use std::mem::forget;
use std::process::Abort;

/// Expressions with the width and the number that their terms give, where their places give no width.
const VALUES: &str = "\
8w5 => 8w5
true => 1w1
error.NoMatch => 2w2
a => 8w1
h.f => 8w171
g.f => 8w0
h.isValid() => 1w1
g.isValid() => 1w0
b * 5 => 8w64
h.f + h.f => 8w86
c + 65535 => 16w512
a - 2 => 8w255
g.f - 1 => 8w255
a ++ b => 16w320
b ++ a ++ b => 24w4194624
a << 7 => 8w128
a << 8 => 8w0
c >> 9 => 16w1
c >> 200 => 16w0
h.f & 15 => 8w11
a ^ h.f => 8w170
a | b => 8w65
a < b => 1w1
b < b => 1w0
b <= b => 1w1
b <= a => 1w0
a > b => 1w0
b > a => 1w1
a >= b => 1w0
b >= b => 1w1
a == b => 1w0
a == 1 => 1w1
a != b => 1w1
a != 1 => 1w0
a == 1 && b == 64 => 1w1
a == 1 && b == 65 => 1w0
a == 2 || b == 64 => 1w1
a == 2 || b == 65 => 1w0
!(a == 1) => 1w0
~h.f => 8w84
-h.f => 8w85
-a => 8w255
a == 1 ? b : h.f => 8w64
a == 2 ? b : h.f => 8w171
h.f[7:4] => 4w10
h.f[3:0] => 4w11
(bit<4>) h.f => 4w11
(bit<16>) h.f => 16w171
(bit<8>) (c + 1) => 8w2
((a + b) << 1) - (h.f & ~b) => 8w215";

/// Expressions of which some path has no place, or some header no number.
const UNKNOWN: &str = "\
x
h.x
k.isValid()
a + x
x + a
x == 1 && a == 1
a == 1 ? x : b
a == 1 ? b : x
x == 1 ? a : b
!(x == 1)
~x
-x
x[3:0]
(bit<4>) x";

/// The width and the number of an expression's term; none where there is no term.
fn value(
    rt: &impl Abort,
    alloc: Global,
    places: &Places,
    s: &State,
    text: &str,
) -> Option<(u8, u128)> {
    let tree = expression(rt, alloc, text);
    let found = typed_term(alloc, places, &tree, 0);
    forget(tree);
    match found {
        Ok(t) => {
            let number = eval(&t.term, &s.slots, &s.valid);
            let width = t.width;
            forget(t);
            Some((width, number))
        }
        Err(Fault::Unknown) => None,
        Err(Fault::NoMemory) => panic!(rt; "memory"),
    }
}

/// A line is as it says.
fn line_holds(rt: &impl Abort, alloc: Global, places: &Places, s: &State, line: &str) {
    let (text, wanted) = line.split_once(" => ").expect(rt, "a value");
    let (bits, digits) = wanted.split_once('w').expect(rt, "a word");
    let found = value(rt, alloc, places, s, text);
    holds(
        rt,
        found == Some((width(rt, bits), number(rt, digits))),
        line,
    );
}

#[test]
fn values(rt: HostRuntime) {
    let places = places(&rt, rt.alloc());
    let s = state(&rt, rt.alloc());
    for line in VALUES.lines() {
        line_holds(&rt, rt.alloc(), &places, &s, line);
    }
    forget(places);
    forget(s);
}

#[test]
fn unknown_expressions(rt: HostRuntime) {
    let places = places(&rt, rt.alloc());
    let s = state(&rt, rt.alloc());
    for text in UNKNOWN.lines() {
        let found = value(&rt, rt.alloc(), &places, &s, text);
        holds(&rt, found.is_none(), text);
    }
    forget(places);
    forget(s);
}
