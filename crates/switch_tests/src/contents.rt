//! What the tables of control variables hold.

use crate::texts::{put, put_number, put_word, put_words, same};
use bit_values::Bits;
use control_tables::contents_for;
use indus_values::ControlValue;
use p4_tables::{Entry, Match};
use std::alloc::Global;
use std::mem::forget;
use std::process::Abort;

/// `9w1 9w2 > 7 8w5`
fn put_entry(rt: &impl Abort, alloc: Global, out: &mut String, entry: &Entry) {
    for key in &entry.keys {
        if let Match::Exact(word) = key {
            put_word(rt, alloc, out, word.width, word.value);
            put(rt, out, " ");
        }
    }
    put(rt, out, "> ");
    put_number(rt, alloc, out, u128::from(entry.action));
    put_words(rt, alloc, out, &entry.args);
}

/// `9w1 > 7 8w5; 9w2 > 7 8w6; `
fn put_entries(rt: &impl Abort, alloc: Global, out: &mut String, entries: &[Entry]) {
    for entry in entries {
        put_entry(rt, alloc, out, entry);
        put(rt, out, "; ");
    }
}

/// `else 7 8w250`
fn put_default(rt: &impl Abort, alloc: Global, out: &mut String, action: u32, args: &[Bits]) {
    put(rt, out, "else ");
    put_number(rt, alloc, out, u128::from(action));
    put_words(rt, alloc, out, args);
}

/// The entries and the default of the table of these contents, whose first action is 7.
fn shown(rt: &impl Abort, alloc: Global, value: &ControlValue) -> String {
    let mut out = String::new(alloc);
    let (entries, default) = contents_for(alloc, value, 7).expect(rt, "memory");
    put_entries(rt, alloc, &mut out, &entries);
    if let Some((action, args)) = &default {
        put_default(rt, alloc, &mut out, *action, args);
    }
    forget(entries);
    forget(default);
    out
}

/// The table of these contents holds this.
fn holds(rt: &impl Abort, alloc: Global, value: ControlValue, wanted: &str) {
    same(rt, &shown(rt, alloc, &value), wanted, "contents");
    forget(value);
}

fn key(rt: &impl Abort, alloc: Global, parts: &[Bits]) -> Vec<Bits> {
    Vec::from_slice(alloc, parts).expect(rt, "memory")
}

#[test]
fn of_a_scalar(rt: HostRuntime) {
    let value = ControlValue::One(Bits::new(8, 250));
    holds(&rt, rt.alloc(), value, "else 7 8w250");
}

#[test]
fn of_a_set(rt: HostRuntime) {
    let alloc = rt.alloc();
    let mut keys = Vec::new(alloc);
    keys.push(key(&rt, alloc, &[Bits::new(9, 1), Bits::new(1, 0)]))
        .expect(&rt, "memory");
    keys.push(key(&rt, alloc, &[Bits::new(9, 2), Bits::new(1, 1)]))
        .expect(&rt, "memory");
    let value = ControlValue::Members(keys);
    holds(&rt, alloc, value, "9w1 1w0 > 7; 9w2 1w1 > 7; ");
}

#[test]
fn of_a_dict(rt: HostRuntime) {
    let alloc = rt.alloc();
    let mut pairs = Vec::new(alloc);
    pairs
        .push((key(&rt, alloc, &[Bits::new(9, 1)]), Bits::new(8, 5)))
        .expect(&rt, "memory");
    pairs
        .push((key(&rt, alloc, &[Bits::new(9, 2)]), Bits::new(8, 6)))
        .expect(&rt, "memory");
    let value = ControlValue::Pairs(pairs);
    holds(&rt, alloc, value, "9w1 > 7 8w5; 9w2 > 7 8w6; ");
}

#[test]
fn of_nothing(rt: HostRuntime) {
    let alloc = rt.alloc();
    holds(&rt, alloc, ControlValue::Pairs(Vec::new(alloc)), "");
}
