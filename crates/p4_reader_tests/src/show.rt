//! Tables of texts, and what trees look like in them.

use std::alloc::Global;
use std::process::Abort;

/// The answer of a row is the one that is wanted.
pub fn same(rt: &impl Abort, found: &str, wanted: &str, row: &str) {
    assert!(rt; found == wanted, "{row}: {found}");
}

/// The two sides of a row, with this between them.
pub fn sides<'a>(rt: &impl Abort, row: &'a str, between: &str) -> (&'a str, &'a str) {
    row.split_once(between).expect(rt, "a row has no answer")
}

/// A word and a number.
pub fn counted(rt: &impl Abort, alloc: Global, word: &str, number: u128) -> String {
    format!(in alloc; "{word}{number}").expect(rt, "memory")
}

/// Puts a word.
pub fn put(rt: &impl Abort, out: &mut String, word: &str) {
    out.push_str(word).expect(rt, "memory");
}

/// What is shorter in the trees of the tables, and how: names and numbers alone, `8w5` for one of 8 bits.
const SHORTER: &str = "\
Name { text: \"|
\" }|
Literal { width: |
, value: |w
 })|)";

/// A tree as the tables have it.
pub fn shorter(rt: &impl Abort, alloc: Global, tree: String) -> String {
    let mut out = tree;
    for row in SHORTER.lines() {
        let (long, short) = sides(rt, row, "|");
        out = out.replace(alloc, long, short).expect(rt, "memory");
    }
    out
}
