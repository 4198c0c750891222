//! Programs from texts, and entries and defaults.
//!
//! An item is `key .. -> action word ..` or `default action word ..`. A key is a word, `bits:digits`, or
//! `word/length` or `word&word`. An entry's priority stands behind `#`.

ghost use Rattle.std.specs.Prelude.{◌≡◌};
ghost use Rattle.p4_tables.specs.Programs.{shapes};

use bit_values::{Bits, sound_width};
use p4_decls::read_program;
use p4_tables::{Entry, EntryFault, Match, TableState};
use p4_types::{TypedProgram, check_program};
use std::alloc::Global;
use std::process::Abort;

/// The answer of a row is the one that is wanted.
pub fn same(rt: &impl Abort, found: &str, wanted: &str, row: &str) {
    assert_eq!(rt; found, wanted, "{row}");
}

/// A row is as it says.
pub fn holds(rt: &impl Abort, found: bool, row: &str) {
    assert!(rt; found, "{row}");
}

/// Puts a text.
pub fn put(rt: &impl Abort, out: &mut String, text: &str) {
    out.push_str(text).expect(rt, "memory");
}

/// The program of a text. It is let go of, since to drop a tree costs the proof more than all else.
pub fn program(rt: &impl Abort, alloc: Global, text: &str) -> TypedProgram {
    assert!(rt; text.len() <= 65_536);
    let program = read_program(alloc, text.as_bytes()).expect(rt, "a program");
    check_program(alloc, program).expect(rt, "a well-typed program")
}

/// A width, or the length of a prefix.
fn width(rt: &impl Abort, digits: &str) -> u8 {
    u8::from_str_radix(digits, 10).expect(rt, "a width")
}

/// A word, `bits:digits`, hexadecimal.
fn word(rt: &impl Abort, text: &str) -> Bits {
    let (bits, digits) = text.split_once(':').expect(rt, "a word");
    let number = u128::from_str_radix(digits, 16).expect(rt, "a number");
    Bits::new(128, number).cast(sound_width(width(rt, bits)))
}

/// What an entry asks of a key.
fn asked(rt: &impl Abort, key: &str) -> Match {
    if let Some((value, length)) = key.split_once('/') {
        Match::Lpm(word(rt, value), width(rt, length))
    } else if let Some((value, mask)) = key.split_once('&') {
        Match::Ternary(word(rt, value), word(rt, mask))
    } else {
        Match::Exact(word(rt, key))
    }
}

/// What an entry asks of the keys.
fn all_asked(rt: &impl Abort, alloc: Global, keys: &str) -> Vec<Match> {
    let mut all = Vec::new(alloc);
    for key in keys.split(' ') {
        all.push(asked(rt, key)).expect(rt, "memory");
    }
    all
}

/// The words behind an action, but for one behind `#`.
fn args(rt: &impl Abort, alloc: Global, text: &str) -> Vec<Bits> {
    let mut all = Vec::new(alloc);
    for digits in text.split(' ') {
        if digits.contains(':') {
            all.push(word(rt, digits)).expect(rt, "memory");
        }
    }
    all
}

/// The number of the action that a text names first.
fn action(rt: &impl Abort, p: &TypedProgram, text: &str) -> u32 {
    let name = text.split(' ').next().unwrap_or("");
    p.action_number(name).expect(rt, "an action")
}

/// The priority that stands in a text; else 0.
fn priority(rt: &impl Abort, text: &str) -> u32 {
    match text.split_once('#') {
        Some((_, digits)) => u32::from_str_radix(digits, 10).expect(rt, "a priority"),
        None => 0,
    }
}

/// Offers an item to a table.
pub fn offer(
    rt: &impl Abort,
    alloc: Global,
    p: &TypedProgram,
    state: &mut TableState,
    table: u32,
    item: &str,
) -> Result<(), EntryFault>
    ensures { shapes state.new ≡ shapes state.old }
{
    assert!(rt; state.has(table));
    match item.split_once(" -> ") {
        Some((keys, text)) => {
            let entry = Entry {
                keys: all_asked(rt, alloc, keys),
                action: action(rt, p, text),
                args: args(rt, alloc, text),
                priority: priority(rt, text),
            };
            state.insert(alloc, table, entry)
        }
        None => {
            let text = item.strip_prefix("default ").expect(rt, "an item");
            state.set_default(alloc, table, action(rt, p, text), args(rt, alloc, text))
        }
    }
}
