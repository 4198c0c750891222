//! Expressions but for places.

use p4_tree::Expr;
use std::alloc::Global;
use std::process::Abort;

/// The two sides of a row.
pub fn sides<'a>(rt: &impl Abort, row: &'a str) -> (&'a str, &'a str) {
    row.split_once(" => ").expect(rt, "a row has no answer")
}

/// A tree as a text, without the numbers of its tokens: each stands first in its node.
pub fn plain(rt: &impl Abort, alloc: Global, e: &Expr) -> String {
    let text = format!(in alloc; "{e:?}").expect(rt, "memory");
    let mut out = String::new(alloc);
    for piece in text.split('(') {
        let (place, rest) = piece.split_once(", ").unwrap_or(("", piece));
        let is_place = place.parse::<u32>().is_ok();
        out.push_str("(").expect(rt, "memory");
        out.push_str(if is_place { rest } else { piece })
            .expect(rt, "memory");
    }
    out
}

/// The same tree, whatever the numbers of its tokens.
pub fn same(rt: &impl Abort, alloc: Global, a: &Expr, b: &Expr, row: &str) {
    let found = plain(rt, alloc, a);
    assert!(rt;
        found.as_str() == plain(rt, alloc, b).as_str(),
        "{row}: {found}"
    );
}
