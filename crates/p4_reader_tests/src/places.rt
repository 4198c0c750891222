//! What stands at a token: expressions up to the token with which none goes on, and the statements of
//! a block up to its closing brace.

use crate::expressions::{repeated, shown};
use crate::show::{counted, put, same, shorter, sides};
use lex_text::{Words, tokens};
use p4_reader::{ReadStop, read_expr, read_stmts};
use p4_tree::Stmt;
use std::alloc::Global;
use std::mem::forget;
use std::process::Abort;

/// Why nothing was read.
fn refusal(rt: &impl Abort, alloc: Global, stop: ReadStop) -> String {
    let (word, at) = match stop {
        ReadStop::NoMemory => ("memory ", 0),
        ReadStop::Syntax { at } => ("syntax ", at),
        ReadStop::LeftOut { at } => ("left out ", at),
        ReadStop::TooDeep { at } => ("too deep ", at),
    };
    counted(rt, alloc, word, u128::from(at))
}

/// Puts the place behind a tree.
fn put_end(rt: &impl Abort, alloc: Global, out: &mut String, end: usize) {
    put(rt, out, &counted(rt, alloc, " to ", end as u128));
}

/// Statements and the place of the brace behind them.
fn all_shown(rt: &impl Abort, alloc: Global, trees: Vec<Stmt>, end: usize) -> String {
    let out = format!(in alloc; "{trees:?}").expect(rt, "memory");
    forget(trees);
    let mut out = shorter(rt, alloc, out);
    put_end(rt, alloc, &mut out, end);
    out
}

/// The expression at a token, and the place behind it.
fn expr_at(rt: &impl Abort, alloc: Global, text: &str, start: usize) -> String {
    assert!(rt; text.len() <= 65536);
    let bytes = text.as_bytes();
    let list = tokens(alloc, bytes, Words::P4).expect(rt, "tokens");
    assert!(rt; start <= list.len());
    match read_expr(alloc, bytes, &list, start) {
        Ok((tree, end)) => {
            let mut out = shown(rt, alloc, tree);
            put_end(rt, alloc, &mut out, end);
            out
        }
        Err(stop) => refusal(rt, alloc, stop),
    }
}

/// The statements from a token on, and the place of the brace behind them.
fn stmts_at(rt: &impl Abort, alloc: Global, text: &str, start: usize) -> String {
    assert!(rt; text.len() <= 65536);
    let bytes = text.as_bytes();
    let list = tokens(alloc, bytes, Words::P4).expect(rt, "tokens");
    assert!(rt; start <= list.len());
    match read_stmts(alloc, bytes, &list, start) {
        Ok((trees, end)) => all_shown(rt, alloc, trees, end),
        Err(stop) => refusal(rt, alloc, stop),
    }
}

/// The expression at a token of the text has this answer.
fn expr_is(rt: &impl Abort, alloc: Global, text: &str, start: usize, wanted: &str) {
    same(rt, &expr_at(rt, alloc, text, start), wanted, text);
}

/// The statements from a token of the text on have this answer.
fn stmts_are(rt: &impl Abort, alloc: Global, text: &str, start: usize, wanted: &str) {
    same(rt, &stmts_at(rt, alloc, text, start), wanted, text);
}

/// Each line of a table is a text and the answer at its first token, with ` => ` between.
fn each_expr(rt: &impl Abort, alloc: Global, table: &str) {
    for row in table.lines() {
        let (text, wanted) = sides(rt, row, " => ");
        expr_is(rt, alloc, text, 0, wanted);
    }
}

/// The same for statements.
fn each_stmts(rt: &impl Abort, alloc: Global, table: &str) {
    for row in table.lines() {
        let (text, wanted) = sides(rt, row, " => ");
        stmts_are(rt, alloc, text, 0, wanted);
    }
}

#[test]
fn fronts(rt: HostRuntime) {
    each_expr(
        &rt,
        rt.alloc(),
        "\
a => Path(0, [a]) to 1
a ( => Path(0, [a]) to 1
isValid( => Path(0, [isValid]) to 1
a.b.apply().hit => Path(0, [a, b, apply]) to 5
x.isValid().y => Valid(0, [x]) to 5
x.isValid => Path(0, [x, isValid]) to 3
x.isValid( => syntax 4
t.apply() => syntax 5
t.apply().hit.x => Applied(0, t, true) to 7
error.a.b => ErrorName(0, a) to 3
1 . => Num(0, 0w1) to 1
a + b ( => Bin(0, Add, Path(0, [a]), Path(2, [b])) to 3
a + b.isValid ( => syntax 6
a b => Path(0, [a]) to 1
a |+| b => Path(0, [a]) to 1
a + |+| => left out 2
a + # => left out 2
\"x\" => left out 0
a ? \"x\" => left out 2
error => syntax 1
error + => syntax 1
a ? enum : _ => syntax 4
a[256:0] => syntax 2
) => syntax 0
@ => left out 0",
    );
}

#[test]
fn starts(rt: HostRuntime) {
    let alloc = rt.alloc();
    expr_is(
        &rt,
        alloc,
        "a = b + c;",
        2,
        "Bin(2, Add, Path(2, [b]), Path(4, [c])) to 5",
    );
    expr_is(&rt, alloc, "a", 1, "syntax 1");
    expr_is(&rt, alloc, "( ( ( a", 2, "syntax 4");
    stmts_are(
        &rt,
        alloc,
        "{ { x = 1; } }",
        2,
        "[Assign(2, [x], Num(4, 0w1))] to 6",
    );
    stmts_are(&rt, alloc, "} }", 1, "[] to 1");
    stmts_are(&rt, alloc, "x = 1;", 4, "syntax 4");
}

#[test]
fn statements(rt: HostRuntime) {
    each_stmts(
        &rt,
        rt.alloc(),
        "\
} => [] to 0
;;} => [Nothing(0), Nothing(1)] to 2
return; exit; } => [Return(0), Exit(2)] to 4
{ { } ; } } => [Block(0, [Block(1, []), Nothing(3)])] to 5
a = b; } => [Assign(0, [a], Path(2, [b]))] to 4
a.b.c = 1; } => [Assign(0, [a, b, c], Num(6, 0w1))] to 8
f(); a.f(b); } => [Call(0, [f], []), Call(4, [a, f], [One(8, Path(8, [b]))])] to 11
digest(1, {a, b}); } => [Call(0, [digest], [One(2, Num(2, 0w1)), Many(4, [Path(5, [a]), Path(7, [b])])])] to 11
bit<8> x; bit y = 2; } => [Var(0, Bit(8), x, None), Var(6, Bit(1), y, Some(Num(9, 0w2)))] to 11
bool t = true; word w; w = 0; } => [Var(0, Bool, t, Some(Flag(3, true))), Var(5, Named(word), w, None), Assign(8, [w], Num(10, 0w0))] to 12
if (a) ; } => [If(0, Path(2, [a]), Nothing(4), None)] to 5
if (a) if (b) ; else ; } => [If(0, Path(2, [a]), If(4, Path(6, [b]), Nothing(8), Some(Nothing(10))), None)] to 11
if (a) { if (b) ; } else x = 1; } => [If(0, Path(2, [a]), Block(4, [If(5, Path(7, [b]), Nothing(9), None)]), Some(Assign(12, [x], Num(14, 0w1))))] to 16
if (a) ; else if (b) ; else { } } => [If(0, Path(2, [a]), Nothing(4), Some(If(6, Path(8, [b]), Nothing(10), Some(Block(12, [])))))] to 14
if (a) if (b) ; else ; else ; } => [If(0, Path(2, [a]), If(4, Path(6, [b]), Nothing(8), Some(Nothing(10))), Some(Nothing(12)))] to 13",
    );
}

#[test]
fn dead_statements(rt: HostRuntime) {
    each_stmts(
        &rt,
        rt.alloc(),
        "\
; => syntax 1
 => syntax 0
else ; } => syntax 0
x } => syntax 1
x = ; } => syntax 2
x; } => syntax 1
x[0] = 1; } => syntax 1
f(a,); } => syntax 4
f({}); } => syntax 3
f({a}, ; } => syntax 6
if a } => syntax 1
if (a) } => syntax 4
if (a) bit<8> x; } => syntax 4
if (a) word x; } => syntax 5
if (a) ; else } => syntax 6
bit<256> x; } => syntax 2
const bit<8> x = 1; } => syntax 0
return 1; } => syntax 1
switch (a) { } } => syntax 4
x = a |+| b; } => left out 3
x = a / b; } => left out 3
x = \"a\"; } => left out 2
log_msg(\"a\"); } => left out 2
error e; } => left out 0
verify x = hash random; } => left out 4
@name } => left out 0
#include <core.p4> => syntax 0",
    );
}

/// A text, so often another, and an end, as statements.
fn are_long(
    rt: &impl Abort,
    alloc: Global,
    front: &str,
    text: &str,
    count: usize,
    end: &str,
    wanted: &str,
) {
    let behind = repeated(rt, alloc, text, count, end);
    let all = repeated(rt, alloc, front, 1, &behind);
    stmts_are(rt, alloc, &all, 0, wanted);
}

#[test]
fn limits(rt: HostRuntime) {
    let alloc = rt.alloc();
    are_long(&rt, alloc, "", "if (a) ", 300, "; }", "too deep 1020");
    are_long(&rt, alloc, "", "{ ", 300, "", "too deep 256");
    are_long(&rt, alloc, "x = a ", "+ a ", 300, "; }", "too deep 511");
    are_long(&rt, alloc, "f", "(", 300, "", "too deep 257");
}

/// So many statements are read.
#[test]
fn many(rt: HostRuntime) {
    let many = repeated(&rt, rt.alloc(), ";", 60_000, "}");
    assert!(rt; many.len() <= 65536);
    let list = tokens(rt.alloc(), many.as_bytes(), Words::P4).expect(&rt, "tokens");
    assert!(rt; read_stmts(rt.alloc(), many.as_bytes(), &list, 0).is_ok());
}
