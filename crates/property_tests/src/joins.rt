//! Binary operators with their levels.

use indus_spelling::{Join, join_of};
use indus_tree::Op;
use lex_text::Words;
use lex_words::{Key, mark, reserved};

/// What a sign joins, and how tightly.
fn joined(sign: &str) -> Option<(u8, Join)> {
    let key = match reserved(Words::Indus, sign.as_bytes()) {
        Some(key) => Some(key),
        None => mark(sign.as_bytes()),
    };
    match key {
        Some(key) => join_of(key),
        None => None,
    }
}

#[test]
fn the_tightest_and_the_loosest(rt: HostRuntime) {
    assert!(rt; joined("*") == Some((1, Join::Binary(Op::Mul))));
    assert!(rt; joined("in") == Some((7, Join::Member)));
    assert!(rt; joined("||") == Some((10, Join::Binary(Op::Either))));
    assert!(rt; joined("++") == None);
    assert!(rt; joined("!") == None);
}
