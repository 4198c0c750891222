//! What words look like in rows.

use bit_values::Bits;
use std::alloc::Global;
use std::process::Abort;

/// The answer of a row is the one that is wanted.
pub fn same(rt: &impl Abort, found: &str, wanted: &str, row: &str) {
    assert_eq!(rt; found, wanted, "{row}");
}

/// Puts a text.
pub fn put(rt: &impl Abort, out: &mut String, text: &str) {
    out.push_str(text).expect(rt, "memory");
}

/// Puts a number.
pub fn put_number(rt: &impl Abort, alloc: Global, out: &mut String, number: u128) {
    let text = format!(in alloc; "{number}").expect(rt, "memory");
    put(rt, out, &text);
}

/// `8w5`
pub fn put_word(rt: &impl Abort, alloc: Global, out: &mut String, width: u8, value: u128) {
    put_number(rt, alloc, out, u128::from(width));
    put(rt, out, "w");
    put_number(rt, alloc, out, value);
}

/// ` 8w5 9w6`
pub fn put_words(rt: &impl Abort, alloc: Global, out: &mut String, words: &[Bits]) {
    for word in words {
        put(rt, out, " ");
        put_word(rt, alloc, out, word.width, word.value);
    }
}
