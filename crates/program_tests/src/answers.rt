//! What each rule answers, and beside it what it leaves by a hair.

use crate::alike::{same, sides};
use crate::places::expression;
use p4_tree::Expr;
use simplify_rules::{drop_neutral, fold_choice, fold_numbers};
use std::alloc::Global;
use std::mem::forget;
use std::process::Abort;

/// What a rule answers.
fn answer(rt: &impl Abort, alloc: Global, rule: &str, e: &Expr) -> Option<Expr> {
    match rule {
        "fold_numbers" => fold_numbers(alloc, e).expect(rt, "memory"),
        "fold_choice" => fold_choice(alloc, e).expect(rt, "memory"),
        _ => drop_neutral(alloc, e).expect(rt, "memory"),
    }
}

/// The rule answers the text with the one that is wanted, or with none where that is `-`.
fn row(rt: &impl Abort, alloc: Global, rule: &str, text: &str, wanted: &str) {
    let given = expression(rt, alloc, text);
    match answer(rt, alloc, rule, &given) {
        None => assert!(rt; wanted == "-", "{text}"),
        Some(found) => {
            let tree = expression(rt, alloc, wanted);
            same(rt, alloc, &found, &tree, text);
            forget(tree);
            forget(found);
        }
    }
    forget(given);
}

/// Each line of a table is a text and the rule's answer.
fn each(rt: &impl Abort, alloc: Global, rule: &str, table: &str) {
    for line in table.lines() {
        let (text, wanted) = sides(rt, line);
        row(rt, alloc, rule, text, wanted);
    }
}

#[test]
fn numbers(rt: HostRuntime) {
    each(
        &rt,
        rt.alloc(),
        "fold_numbers",
        "\
8w2 + 8w3 => 8w5
8w2 + 3 => -
2 + 3 => -
8w2 + 9w3 => -
8w255 + 8w2 => 8w1
8w300 + 8w1 => 8w45
8w2 - 8w3 => 8w255
8w16 * 8w17 => 8w16
8w12 & 8w10 => 8w8
8w12 ^ 8w10 => 8w6
8w12 | 8w10 => 8w14
4w9 ++ 8w1 => 12w2305
4w9 ++ 1 => -
64w1 ++ 64w2 => 128w18446744073709551618
64w1 ++ 65w2 => -
8w3 << 4w2 => 8w12
8w3 << 2 => 8w12
8w3 << 8 => 8w0
8w200 >> 3 => 8w25
3 << 8w2 => -
8w2 == 8w2 => true
8w2 == 8w258 => true
8w2 != 8w2 => false
8w2 == 9w2 => -
8w2 == 2 => -
8w2 < 8w3 => true
8w3 <= 8w2 => false
8w3 > 8w3 => false
8w3 >= 8w3 => true
true == false => false
true != false => true
true && false => false
false || true => true
true < false => -
true == 1w1 => -
8w2 && 8w1 => -
x + 8w3 => -
~8w3 => -
8w3 => -
true ? 8w1 : 8w2 => -",
    );
}

#[test]
fn choices(rt: HostRuntime) {
    each(
        &rt,
        rt.alloc(),
        "fold_choice",
        "\
true ? x : y => x
false ? x : y => y
true ? 8w1 : x => 8w1
true ? 1 : x => -
false ? 1 : x => x
true ? x : 1 => x
false ? x : 1 => -
true ? 1 + 2 : x => -
true ? 1 + 8w2 : x => 1 + 8w2
true ? 1 << 8w2 : x => -
true ? -1 : x => -
true ? ~8w1 : x => ~8w1
true ? (b ? 1 : 2) : x => -
true ? (b ? 1 : 8w2) : x => b ? 1 : 8w2
true ? 1 == 2 : b => 1 == 2
b ? x : y => -
true && b => b
false && b => false
true || b => true
false || b => b
b && true => -
b || false => -
true && x == 1 => x == 1
true == b => -
!true => -",
    );
}

#[test]
fn neutral(rt: HostRuntime) {
    each(
        &rt,
        rt.alloc(),
        "drop_neutral",
        "\
x + 0 => x
x + 8w0 => x
x + 1 => -
x - 0 => x
x | 0 => x
x ^ 0 => x
x & 0 => -
x << 0 => x
x >> 0 => x
x << 4w0 => x
x * 1 => x
x * 8w1 => x
x * 0 => -
x + 8w256 => -
x * 8w257 => -
0 + x => x
0 | x => x
0 ^ x => x
1 * x => x
0 - x => -
0 << x => -
0 * x => -
1 + x => -
1 * 1 => -
2 * 1 => -
8w2 * 1 => 8w2
8w0 + 0 => 8w0
0 + 8w0 => 8w0
0 + 0 => -
(1 + 2) * 1 => -
(1 + 8w2) * 1 => 1 + 8w2
(1 << 8w2) * 1 => -
(x << 2) + 0 => x << 2
x ++ 8w0 => -
x == 0 => -
-x + 0 => -x
x[7:0] + 0 => x[7:0]
(bit<8>) 3 + 0 => (bit<8>) 3
x + y => -",
    );
}
