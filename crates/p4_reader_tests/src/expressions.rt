//! Texts of expressions with their trees, and texts that spell none, with the token at which that
//! is seen.

ghost use Rattle.std.specs.Prelude.{◌≤◌, length};
ghost use Rattle.lex_text.specs.Places.{AreIn};
ghost use Rattle.lex_text.specs.declared.token.Words.TheVariants.{P4};
ghost use Rattle.lex_words.specs.Seen.{lexemes_of};
ghost use Rattle.lex_words.specs.Written.{AreLexemes};

use crate::show::{counted, put, same, shorter, sides};
use lex_text::{Token, Words, tokens};
use lex_words::{Cursor, Halt};
use p4_expressions::expr;
use p4_tree::Expr;
use std::alloc::Global;
use std::mem::forget;
use std::process::Abort;

/// An expression as a text. It is let go of, since to drop a tree costs the proof more than all else.
pub fn shown(rt: &impl Abort, alloc: Global, tree: Expr) -> String {
    let out = format!(in alloc; "{tree:?}").expect(rt, "memory");
    forget(tree);
    shorter(rt, alloc, out)
}

/// A fault.
fn halted(rt: &impl Abort, alloc: Global, halt: Halt) -> String {
    let (word, at) = match halt {
        Halt::NoMemory => ("memory ", 0),
        Halt::Wrong(at) => ("syntax ", at),
        Halt::High(at) => ("too high ", at),
        Halt::Deep(at) => ("too deep ", at),
    };
    counted(rt, alloc, word, u128::from(at))
}

/// What all tokens spell, or the fault.
fn whole(rt: &impl Abort, alloc: Global, text: &[u8], list: &[Token]) -> String
    requires fits { AreIn text.now list.now }
    requires fair { AreLexemes P4 (lexemes_of P4 text.now list.now) }
    requires short { length list.now ≤ 16777216 }
{
    let mut cursor = Cursor::new(Words::P4, text, list);
    match expr(alloc, &mut cursor, 11, 256, 256) {
        Ok(found) => {
            let line = shown(rt, alloc, found.tree);
            if cursor.is_end() {
                line
            } else {
                halted(rt, alloc, Halt::Wrong(cursor.at()))
            }
        }
        Err(halt) => halted(rt, alloc, halt),
    }
}

/// What a text spells, or the fault.
fn read(rt: &impl Abort, alloc: Global, text: &str) -> String {
    assert!(rt; text.len() <= 65536);
    let bytes = text.as_bytes();
    match tokens(alloc, bytes, Words::P4) {
        Ok(list) => whole(rt, alloc, bytes, &list),
        Err(_) => panic!(rt; "a text has no tokens"),
    }
}

/// Each line of a table is a text and its answer, with ` => ` between.
fn each(rt: &impl Abort, alloc: Global, table: &str) {
    for row in table.lines() {
        let (text, wanted) = sides(rt, row, " => ");
        same(rt, &read(rt, alloc, text), wanted, text);
    }
}

#[test]
fn operands(rt: HostRuntime) {
    each(
        &rt,
        rt.alloc(),
        "\
a => Path(0, [a])
8w5 => Num(0, 8w5)
a.b.c => Path(0, [a, b, c])
a.isValid => Path(0, [a, isValid])
(a) => Path(1, [a])
a.b.isValid() => Valid(0, [a, b])
isValid.isValid() => Valid(0, [isValid])
t.apply().hit => Applied(0, t, true)
!apply.apply().miss => Not(0, Applied(1, apply, false))
error.NoError => ErrorName(0, NoError)
-a[7:8w4] => Negate(0, Slice(1, Path(1, [a]), 7, 4))
a[255:0][3:0] => Slice(0, Slice(0, Path(0, [a]), 255, 0), 3, 0)
(a + b)[3:0] => Slice(0, Bin(1, Add, Path(1, [a]), Path(3, [b])), 3, 0)
(bit<8>) a + 1 => Bin(0, Add, Cast(0, Bit(8), Path(6, [a])), Num(8, 0w1))
(bit<8w9>) a => Cast(0, Bit(9), Path(6, [a]))
(bit) a[0:0] => Cast(0, Bit(1), Slice(3, Path(3, [a]), 0, 0))
(bool) ~a => Cast(0, Bool, Invert(3, Path(4, [a])))",
    );
}

#[test]
fn operators(rt: HostRuntime) {
    each(
        &rt,
        rt.alloc(),
        "\
a - b - c => Bin(0, Sub, Bin(0, Sub, Path(0, [a]), Path(2, [b])), Path(4, [c]))
a + b ++ c => Bin(0, Concat, Bin(0, Add, Path(0, [a]), Path(2, [b])), Path(4, [c]))
a ++ b * c => Bin(0, Concat, Path(0, [a]), Bin(2, Mul, Path(2, [b]), Path(4, [c])))
a << b + c => Bin(0, Shl, Path(0, [a]), Bin(2, Add, Path(2, [b]), Path(4, [c])))
a & b == c => Bin(0, Equal, Bin(0, BitAnd, Path(0, [a]), Path(2, [b])), Path(4, [c]))
a || b && c => Bin(0, Either, Path(0, [a]), Bin(2, Both, Path(2, [b]), Path(4, [c])))
a ? b : c ? d : e => Choice(0, Path(0, [a]), Path(2, [b]), Choice(4, Path(4, [c]), Path(6, [d]), Path(8, [e])))
a ? b ? c : d : e => Choice(0, Path(0, [a]), Choice(2, Path(2, [b]), Path(4, [c]), Path(6, [d])), Path(8, [e]))
a || b ? c : d => Choice(0, Bin(0, Either, Path(0, [a]), Path(2, [b])), Path(4, [c]), Path(6, [d]))
(a ? b : c) ? d : e => Choice(0, Choice(1, Path(1, [a]), Path(3, [b]), Path(5, [c])), Path(8, [d]), Path(10, [e]))",
    );
}

#[test]
fn dead_tokens(rt: HostRuntime) {
    each(
        &rt,
        rt.alloc(),
        "\
a + => syntax 2
 => syntax 0
a ? b => syntax 3
a.b.isValid().c => syntax 7
isValid() => syntax 1
t.apply() => syntax 5
t.apply().hits => syntax 6
t.apply().hit.x => syntax 7
a.t.apply().hit => syntax 5
f(1) => syntax 1
a[256:0] => syntax 2
a[0:256] => syntax 4
a[3] => syntax 3
(bit<256>) a => syntax 3
(bit<8>> a => syntax 4
(hdr) a => syntax 3
a in b => syntax 1
_ + 1 => syntax 0
error.bit => syntax 2
a |+| b => syntax 1
a / b => syntax 1",
    );
}

/// A text so often, and then another.
pub fn repeated(rt: &impl Abort, alloc: Global, text: &str, count: usize, end: &str) -> String {
    let mut out = String::new(alloc);
    for _ in 0..count {
        put(rt, &mut out, text);
    }
    put(rt, &mut out, end);
    out
}

/// The text so often, and then `a`, has this answer.
fn so_often(rt: &impl Abort, alloc: Global, text: &str, count: usize, wanted: &str) {
    let all = repeated(rt, alloc, text, count, "a");
    same(rt, &read(rt, alloc, &all), wanted, text);
}

#[test]
fn limits(rt: HostRuntime) {
    so_often(&rt, rt.alloc(), "!", 256, "too high 255");
    so_often(&rt, rt.alloc(), "(", 257, "too deep 256");
    so_often(&rt, rt.alloc(), "(", 256, "syntax 257");
    so_often(&rt, rt.alloc(), "a + ", 256, "too high 511");
}
