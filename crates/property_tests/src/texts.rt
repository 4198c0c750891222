//! Tables of texts, and what words look like in them.

use bit_values::Bits;
use indus_reader::read_property;
use indus_tree::Property;
use indus_types::{TypedProperty, check_property};
use std::alloc::Global;
use std::process::Abort;

/// The answer of a row is the one that is wanted.
pub fn same(rt: &impl Abort, found: &str, wanted: &str, row: &str) {
    assert_eq!(rt; found, wanted, "{row}");
}

/// The two sides of a row, which has ` => ` between.
pub fn sides<'a>(rt: &impl Abort, row: &'a str) -> (&'a str, &'a str) {
    row.split_once(" => ").expect(rt, "a row has one side")
}

/// The property that a text spells. It is let go of, since to drop a tree costs the proof more than all
/// else.
pub fn read(rt: &impl Abort, alloc: Global, text: &str) -> Property {
    assert!(rt; text.len() <= 65536);
    read_property(alloc, text.as_bytes()).expect(rt, "a property")
}

/// The same, well typed.
pub fn typed(rt: &impl Abort, alloc: Global, text: &str) -> TypedProperty {
    check_property(alloc, read(rt, alloc, text)).expect(rt, "a well-typed property")
}

/// Puts a text.
pub fn put(rt: &impl Abort, out: &mut String, text: &str) {
    out.push_str(text).expect(rt, "memory");
}

/// A word, a number and a word.
pub fn put_count(
    rt: &impl Abort,
    alloc: Global,
    out: &mut String,
    before: &str,
    number: u128,
    behind: &str,
) {
    let text = format!(in alloc; "{before}{number}{behind}").expect(rt, "memory");
    put(rt, out, &text);
}

/// `8w5`
pub fn put_word(rt: &impl Abort, alloc: Global, out: &mut String, word: Bits) {
    put_count(rt, alloc, out, "", u128::from(word.width), "w");
    put_count(rt, alloc, out, "", word.value, "");
}

/// `8w5 9w6`
fn put_words(rt: &impl Abort, alloc: Global, out: &mut String, words: &[Bits]) {
    let mut space = "";
    for word in words {
        put(rt, out, space);
        put_word(rt, alloc, out, *word);
        space = " ";
    }
}

/// `[8w5] [9w6 9w7] `
pub fn put_lists(rt: &impl Abort, alloc: Global, out: &mut String, lists: &[Vec<Bits>]) {
    for list in lists {
        put(rt, out, "[");
        put_words(rt, alloc, out, list);
        put(rt, out, "] ");
    }
}
