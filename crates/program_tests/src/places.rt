//! Six places, what their slots hold, and trees from texts.
//!
//! `a` and `b` have 8 bits and the slots 0 and 1, `c` has 16 bits and slot 2, and `h.f` and `g.f`, fields of
//! two headers, have 8 bits and the slots 3 and 4. The header `h` is valid, and `g` is not. The port by which a
//! packet leaves has 9 bits and slot 5.

ghost use Rattle.slot_terms.specs.Places.{IsLaid, places_of};

use lex_text::{Name, Words, tokens};
use p4_reader::{read_expr, read_stmts};
use p4_tree::{Expr, Stmt};
use slot_statements::Flow;
use slot_terms::{Places, State, add_place, no_places};
use std::alloc::Global;
use std::process::Abort;

/// A row is as it says.
pub fn holds(rt: &impl Abort, found: bool, row: &str) {
    assert!(rt; found, "{row}");
}

/// A number of decimal digits.
pub fn number(rt: &impl Abort, digits: &str) -> u128 {
    u128::from_str_radix(digits, 10).expect(rt, "a number")
}

/// A width.
pub fn width(rt: &impl Abort, digits: &str) -> u8 {
    u8::from_str_radix(digits, 10).expect(rt, "a width")
}

/// A name.
pub fn name(rt: &impl Abort, alloc: Global, text: &str) -> Name {
    Name::new(alloc, text).expect(rt, "memory")
}

/// The names of a path, with points between them.
fn path(rt: &impl Abort, alloc: Global, text: &str) -> Vec<Name> {
    let mut names = Vec::new(alloc);
    for text in text.split('.') {
        names.push(name(rt, alloc, text)).expect(rt, "memory");
    }
    names
}

/// A path gets the next slot.
fn add(
    rt: &impl Abort,
    alloc: Global,
    places: &mut Places,
    text: &str,
    width: u8,
    header: Option<u32>,
)
    ensures { IsLaid (places_of places.old) → IsLaid (places_of places.new) }
{
    let path = path(rt, alloc, text);
    add_place(places, path, width, header).expect(rt, "a slot");
}

/// The headers by their numbers.
fn headers(rt: &impl Abort, alloc: Global) -> Vec<Vec<Name>> {
    let mut all = Vec::new(alloc);
    all.push(path(rt, alloc, "h")).expect(rt, "memory");
    all.push(path(rt, alloc, "g")).expect(rt, "memory");
    all
}

/// The six places, and three slots that are free.
pub fn places(rt: &impl Abort, alloc: Global) -> Places
    ensures { IsLaid (places_of result) }
{
    let mut places = no_places(alloc, headers(rt, alloc), 9);
    add(rt, alloc, &mut places, "a", 8, None);
    add(rt, alloc, &mut places, "b", 8, None);
    add(rt, alloc, &mut places, "c", 16, None);
    add(rt, alloc, &mut places, "h.f", 8, Some(0));
    add(rt, alloc, &mut places, "g.f", 8, Some(1));
    add(
        rt,
        alloc,
        &mut places,
        "standard_metadata.egress_spec",
        9,
        None,
    );
    places
}

/// What the slots hold.
pub fn state(rt: &impl Abort, alloc: Global) -> State {
    State {
        slots: vec![in alloc; 1, 64, 513, 171, 99, 0, 0, 0, 0].expect(rt, "memory"),
        valid: vec![in alloc; true, false].expect(rt, "memory"),
    }
}

/// The expression of a text.
pub fn expression(rt: &impl Abort, alloc: Global, text: &str) -> Expr {
    assert!(rt; text.len() <= 65_536);
    let bytes = text.as_bytes();
    let list = tokens(alloc, bytes, Words::P4).expect(rt, "tokens");
    match read_expr(alloc, bytes, &list, 0) {
        Ok((tree, end)) => {
            assert!(rt; end == list.len());
            tree
        }
        Err(_) => panic!(rt; "no expression"),
    }
}

/// The statements of a text, which ends with the brace behind them.
pub fn statements(rt: &impl Abort, alloc: Global, text: &str) -> Vec<Stmt> {
    assert!(rt; text.len() <= 65_536);
    let bytes = text.as_bytes();
    let list = tokens(alloc, bytes, Words::P4).expect(rt, "tokens");
    match read_stmts(alloc, bytes, &list, 0) {
        Ok((trees, _)) => trees,
        Err(_) => panic!(rt; "no statements"),
    }
}

/// How code ends, as a word.
fn flow_word(flow: Flow) -> &'static str {
    match flow {
        Flow::Go => "go",
        Flow::Return => "return",
        Flow::Exit => "exit",
    }
}

/// The first slots hold these numbers.
fn hold(rt: &impl Abort, slots: &[u128], numbers: &str) -> bool {
    let mut at = 0;
    for digits in numbers.split(' ') {
        if at >= slots.len() || slots[at] != number(rt, digits) {
            return false;
        }
        at += 1;
    }
    true
}

/// Code ends so, and the first slots hold these numbers.
pub fn ends(rt: &impl Abort, s: &State, flow: Flow, wanted: &str) -> bool {
    match wanted.split_once(", ") {
        Some((numbers, word)) => flow_word(flow) == word && hold(rt, &s.slots, numbers),
        None => false,
    }
}
