//! The values of expressions, and copies of what control variables hold.

use crate::texts::{put, read, same, show_word, sides};
use bit_values::Bits;
use indus_tree::{Expr, Property, Stmt};
use indus_values::{ControlValue, HopView, SensorState, TeleState, eval_expr};
use std::alloc::Global;
use std::mem::forget;
use std::process::Abort;

/// The property of one statement, which sets a variable to an expression.
fn setting(rt: &impl Abort, alloc: Global, text: &str) -> Property {
    let mut all = String::new(alloc);
    put(rt, &mut all, "{n = ");
    put(rt, &mut all, text);
    put(rt, &mut all, ";} {} {}");
    read(rt, alloc, &all)
}

/// The value of an expression of a property, in a place of this width, at the switch 7.
fn value_in(rt: &impl Abort, alloc: Global, p: &Property, e: &Expr, width: u8) -> Bits {
    let tele = TeleState {
        items: Vec::new(alloc),
    };
    let sensors = SensorState {
        cells: Vec::new(alloc),
    };
    let hop = HopView {
        switch: 7,
        first: true,
        last: false,
        entry_: Vec::new(alloc),
        exit_: Some(Vec::new(alloc)),
        control: Vec::new(alloc),
    };
    eval_expr(alloc, p, e, width, &hop, &[], &tele, &sensors, &[]).expect(rt, "memory")
}

/// The value of an expression without variables.
fn value(rt: &impl Abort, alloc: Global, text: &str, width: u8) -> Bits {
    let p = setting(rt, alloc, text);
    let found = match p.init.first() {
        Some(Stmt::Assign(_, _, e)) => value_in(rt, alloc, &p, e, width),
        _ => panic!(rt; "no value is assigned"),
    };
    forget(p);
    found
}

/// Each expression of a table has this value in a place of this width; 0 gives it none.
fn values(rt: &impl Abort, alloc: Global, width: u8, table: &str) {
    for row in table.lines() {
        let (text, wanted) = sides(rt, row);
        let found = value(rt, alloc, text, width);
        same(rt, &show_word(rt, alloc, found), wanted, text);
    }
}

/// Each operator on the narrowest, on usual and on the widest numbers; shifts by the width and more.
#[test]
fn operators(rt: HostRuntime) {
    values(
        &rt,
        rt.alloc(),
        0,
        "\
1w1 * 1w1 => 1w1
1w1 + 1w1 => 1w0
1w0 - 1w1 => 1w1
1w1 << 1w1 => 1w0
1w1 >> 1w0 => 1w1
1w1 >> 1w1 => 1w0
1w1 & 1w0 => 1w0
1w1 ^ 1w0 => 1w1
1w1 | 1w0 => 1w1
1w0 < 1w1 => 1w1
1w1 <= 1w0 => 1w0
1w1 > 1w0 => 1w1
1w1 >= 1w1 => 1w1
1w1 == 1w0 => 1w0
1w1 != 1w0 => 1w1
1w1 && 1w0 => 1w0
1w1 || 1w0 => 1w1
8w20 * 8w13 => 8w4
8w250 + 8w6 => 8w0
8w3 - 8w5 => 8w254
8w129 << 8w1 => 8w2
8w255 << 8w8 => 8w0
8w255 << 8w9 => 8w0
8w129 >> 8w1 => 8w64
8w255 >> 8w8 => 8w0
8w255 >> 8w9 => 8w0
8w12 & 8w10 => 8w8
8w12 ^ 8w10 => 8w6
8w12 | 8w10 => 8w14
8w127 < 8w128 => 1w1
8w128 <= 8w127 => 1w0
8w255 > 8w1 => 1w1
8w1 >= 8w255 => 1w0
8w200 == 8w200 => 1w1
8w200 != 8w200 => 1w0
128w340282366920938463463374607431768211455 * 128w340282366920938463463374607431768211455 => 128w1
128w340282366920938463463374607431768211455 + 128w1 => 128w0
128w0 - 128w1 => 128w340282366920938463463374607431768211455
128w1 << 128w127 => 128w170141183460469231731687303715884105728
128w340282366920938463463374607431768211455 << 128w128 => 128w0
128w340282366920938463463374607431768211455 << 128w340282366920938463463374607431768211455 => 128w0
128w340282366920938463463374607431768211455 >> 128w127 => 128w1
128w340282366920938463463374607431768211455 >> 128w128 => 128w0
128w340282366920938463463374607431768211455 >> 128w1000 => 128w0
128w340282366920938463463374607431768211455 & 128w9 => 128w9
128w340282366920938463463374607431768211455 ^ 128w340282366920938463463374607431768211455 => 128w0
128w340282366920938463463374607431768211455 | 128w9 => 128w340282366920938463463374607431768211455
128w1 < 128w340282366920938463463374607431768211455 => 1w1
128w340282366920938463463374607431768211455 <= 128w1 => 1w0
128w340282366920938463463374607431768211455 > 128w1 => 1w1
128w1 >= 128w340282366920938463463374607431768211455 => 1w0
128w340282366920938463463374607431768211455 == 128w340282366920938463463374607431768211455 => 1w1
128w340282366920938463463374607431768211455 != 128w1 => 1w1",
    );
}

/// Each bit turned round: 5 is 0101, and 200 is 11001000.
#[test]
fn bits_turned_round(rt: HostRuntime) {
    values(
        &rt,
        rt.alloc(),
        0,
        "\
~1w0 => 1w1
~1w1 => 1w0
~4w5 => 4w10
~8w200 => 8w55
~128w0 => 128w340282366920938463463374607431768211455
~128w340282366920938463463374607431768211455 => 128w0",
    );
}

/// Bare numbers take the width of the other operand, else that of the place; a shift's right operand
/// has 128 bits of its own.
#[test]
fn widths_of_bare_numbers(rt: HostRuntime) {
    let alloc = rt.alloc();
    values(
        &rt,
        alloc,
        0,
        "\
255 + 8w1 => 8w0
8w1 << 256 => 8w0
(bit<3>) 8w13 => 3w5
(bit<9>) 3w5 => 9w5
!true => 1w0",
    );
    values(&rt, alloc, 9, "255 + 1 => 9w256");
    values(&rt, alloc, 4, "~5 => 4w10");
}

#[test]
fn names_without_a_declaration(rt: HostRuntime) {
    values(
        &rt,
        rt.alloc(),
        0,
        "\
first_hop => 1w1
last_hop => 1w0
switch_id => 16w7",
    );
}

// ---- control contents

/// The two words of a key.
pub fn key_words(rt: &impl Abort, alloc: Global, value: u128, flag: u128) -> Vec<Bits> {
    let mut words = Vec::new(alloc);
    words
        .push(Bits::new(128, value).cast(8))
        .expect(rt, "memory");
    words
        .push(Bits::new(128, flag).cast(1))
        .expect(rt, "memory");
    words
}

/// The words have these widths and values.
fn are(words: &[Bits], want: &[(u8, u128)]) -> bool {
    if words.len() != want.len() {
        return false;
    }
    for (k, w) in want.iter().enumerate() {
        match words.get(k) {
            None => return false,
            Some(b) => {
                if b.width != w.0 || b.value != w.1 {
                    return false;
                }
            }
        }
    }
    true
}

/// The list at a place holds these.
fn hold(lists: &[Vec<Bits>], n: usize, want: &[(u8, u128)]) -> bool {
    match lists.get(n) {
        None => false,
        Some(list) => are(list, want),
    }
}

/// Whether this is the word that `contents` makes.
fn is_one(one: &ControlValue) -> bool {
    match one {
        ControlValue::One(b) => b.width == 9 && b.value == 20,
        _ => false,
    }
}

/// Whether these are its members.
fn are_members(members: &ControlValue) -> bool {
    match members {
        ControlValue::Members(keys) => {
            keys.len() == 2 && hold(keys, 0, &[(8, 1), (1, 0)]) && hold(keys, 1, &[(8, 2), (1, 1)])
        }
        _ => false,
    }
}

/// Whether these are its pairs.
fn are_pairs(pairs: &ControlValue) -> bool {
    match pairs {
        ControlValue::Pairs(entries) => match entries.as_slice() {
            [a, b] => {
                are(&a.0, &[(8, 1), (1, 1)])
                    && a.1.value == 500
                    && are(&b.0, &[(8, 1), (1, 0)])
                    && b.1.value == 7
            }
            _ => false,
        },
        _ => false,
    }
}

/// The values are those of `contents`.
fn are_contents(list: &[ControlValue]) -> bool {
    match list {
        [one, members, pairs] => is_one(one) && are_members(members) && are_pairs(pairs),
        _ => false,
    }
}

/// Two keys.
fn members(rt: &impl Abort, alloc: Global) -> ControlValue {
    let mut keys = Vec::new(alloc);
    keys.push(key_words(rt, alloc, 1, 0)).expect(rt, "memory");
    keys.push(key_words(rt, alloc, 2, 1)).expect(rt, "memory");
    ControlValue::Members(keys)
}

/// Two keys with their values.
pub fn pairs(rt: &impl Abort, alloc: Global) -> ControlValue {
    let mut entries = Vec::new(alloc);
    entries
        .push((key_words(rt, alloc, 1, 1), Bits::new(16, 500)))
        .expect(rt, "memory");
    entries
        .push((key_words(rt, alloc, 1, 0), Bits::new(16, 7)))
        .expect(rt, "memory");
    ControlValue::Pairs(entries)
}

/// A word, members and pairs.
fn contents(rt: &impl Abort, alloc: Global) -> Vec<ControlValue> {
    let mut list = Vec::new(alloc);
    list.push(ControlValue::One(Bits::new(9, 20)))
        .expect(rt, "memory");
    list.push(members(rt, alloc)).expect(rt, "memory");
    list.push(pairs(rt, alloc)).expect(rt, "memory");
    list
}

/// Copies of contents.
fn copies(rt: &impl Abort, alloc: Global, list: &[ControlValue]) -> Vec<ControlValue> {
    let mut out = Vec::new(alloc);
    for value in list {
        out.push(value.copy(alloc).expect(rt, "memory"))
            .expect(rt, "memory");
    }
    out
}

/// Whether no members are copied as none.
fn none_are_copied(rt: &impl Abort, alloc: Global) -> bool {
    let mut list = Vec::new(alloc);
    list.push(ControlValue::Members(Vec::new(alloc)))
        .expect(rt, "memory");
    match copies(rt, alloc, &list).as_slice() {
        [ControlValue::Members(keys)] => keys.is_empty(),
        _ => false,
    }
}

/// A copy has the same words in the same order, and the original stays.
#[test]
fn copies_of_contents(rt: HostRuntime) {
    let list = contents(&rt, rt.alloc());
    let copied = copies(&rt, rt.alloc(), &list);
    assert!(rt; are_contents(&list));
    assert!(rt; are_contents(&copied));
    assert!(rt; none_are_copied(&rt, rt.alloc()));
}
