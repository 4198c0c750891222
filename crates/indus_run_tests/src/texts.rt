//! Tables of texts, and what words and states look like in them.

use bit_values::Bits;
use indus_reader::read_property;
use indus_tree::Property;
use indus_values::{HopResult, SensorState, TeleState};
use std::alloc::Global;
use std::process::Abort;

/// The answer of a row is the one that is wanted.
pub fn same(rt: &impl Abort, found: &str, wanted: &str, row: &str) {
    assert_eq!(rt; found, wanted, "{row}");
}

/// The two sides of a row, which has ` => ` between.
pub fn sides<'a>(rt: &impl Abort, row: &'a str) -> (&'a str, &'a str) {
    row.split_once(" => ").expect(rt, "a row has one side")
}

/// The property that a text spells. It is let go of, since to drop a tree costs the proof more than all
/// else.
pub fn read(rt: &impl Abort, alloc: Global, text: &str) -> Property {
    assert!(rt; text.len() <= 65536);
    read_property(alloc, text.as_bytes()).expect(rt, "a property")
}

/// Puts a text.
pub fn put(rt: &impl Abort, out: &mut String, text: &str) {
    out.push_str(text).expect(rt, "memory");
}

/// `8w5`
fn put_word(rt: &impl Abort, alloc: Global, out: &mut String, word: Bits) {
    let (width, value) = (word.width, word.value);
    put(
        rt,
        out,
        &format!(in alloc; "{width}w{value}").expect(rt, "memory"),
    );
}

/// `8w5 9w6`
fn put_words(rt: &impl Abort, alloc: Global, out: &mut String, words: &[Bits]) {
    let mut space = "";
    for word in words {
        put(rt, out, space);
        put_word(rt, alloc, out, *word);
        space = " ";
    }
}

/// `[8w5] [9w6 9w7] `
fn put_lists(rt: &impl Abort, alloc: Global, out: &mut String, lists: &[Vec<Bits>]) {
    for list in lists {
        put(rt, out, "[");
        put_words(rt, alloc, out, list);
        put(rt, out, "] ");
    }
}

/// ` #0(8w5 9w6)`
fn put_report(rt: &impl Abort, alloc: Global, out: &mut String, number: u16, values: &[Bits]) {
    put(
        rt,
        out,
        &format!(in alloc; " #{number}(").expect(rt, "memory"),
    );
    put_words(rt, alloc, out, values);
    put(rt, out, ")");
}

/// A word.
pub fn show_word(rt: &impl Abort, alloc: Global, word: Bits) -> String {
    let mut line = String::new(alloc);
    put_word(rt, alloc, &mut line, word);
    line
}

/// What the packet's variables hold, what the sensors hold, and what came of a hop: `reject`, and
/// each report with its number.
pub fn show_state(
    rt: &impl Abort,
    alloc: Global,
    tele: &TeleState,
    sensors: &SensorState,
    hop: &HopResult,
) -> String {
    let mut line = String::new(alloc);
    put_lists(rt, alloc, &mut line, &tele.items);
    put(rt, &mut line, "/ ");
    put_lists(rt, alloc, &mut line, &sensors.cells);
    put(rt, &mut line, "/");
    if hop.rejected {
        put(rt, &mut line, " reject");
    }
    for report in &hop.reports {
        put_report(
            rt,
            alloc,
            &mut line,
            report.number,
            report.values.as_slice(),
        );
    }
    line
}
