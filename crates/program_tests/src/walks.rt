//! What becomes of an expression by three rules in their order, and by none.

use crate::alike::{same, sides};
use crate::places::expression;
use lex_text::Name;
use p4_tree::Expr;
use simplify_rules::{Rewrite, Rule, RuleSet, drop_neutral, fold_choice, fold_numbers, simplified};
use std::alloc::Global;
use std::mem::forget;
use std::process::Abort;

/// A name of a rule.
fn name(rt: &impl Abort, alloc: Global, text: &str) -> Name {
    Name::new(alloc, text).expect(rt, "memory")
}

/// What becomes of an expression by the three rules.
fn by_three(rt: &impl Abort, alloc: Global, e: &Expr) -> Expr {
    let numbers: Rewrite = Box::new(alloc, move |e: &Expr| fold_numbers(alloc, e)).expect(
        rt, "memory",
    );
    let choice: Rewrite = Box::new(alloc, move |e: &Expr| fold_choice(alloc, e)).expect(
        rt, "memory",
    );
    let neutral: Rewrite = Box::new(alloc, move |e: &Expr| drop_neutral(alloc, e)).expect(
        rt, "memory",
    );
    let mut rules = RuleSet::new(alloc);
    for rule in [
        Rule::new(name(rt, alloc, "fold_numbers"), numbers),
        Rule::new(name(rt, alloc, "fold_choice"), choice),
        Rule::new(name(rt, alloc, "drop_neutral"), neutral),
    ] {
        assert!(rt; rules.add(rule).is_ok(), "memory");
    }
    assert!(rt; rules.count() == 3);
    let found = simplified(alloc, &rules, e).expect(rt, "memory");
    forget(rules);
    found
}

/// What becomes of an expression by no rule.
fn by_none(rt: &impl Abort, alloc: Global, e: &Expr) -> Expr {
    let rules = RuleSet::new(alloc);
    simplified(alloc, &rules, e).expect(rt, "memory")
}

/// By the three rules the text becomes the one that is wanted, and by none it stays.
fn row(rt: &impl Abort, alloc: Global, text: &str, wanted: &str) {
    let given = expression(rt, alloc, text);
    let found = by_three(rt, alloc, &given);
    let tree = expression(rt, alloc, wanted);
    same(rt, alloc, &found, &tree, text);
    let kept = by_none(rt, alloc, &given);
    same(rt, alloc, &kept, &given, text);
    forget(kept);
    forget(tree);
    forget(found);
    forget(given);
}

#[test]
fn inside_to_outside(rt: HostRuntime) {
    let table = "\
(8w2 + 8w3) == x => 8w5 == x
8w2 + 8w3 => 8w5
x + (8w2 - 8w2) => x
(true && b) || false => b || false
true && (true && b) => b
(8w1 == 8w1) ? x : y => x
x + 0 + 0 => x
(1 * x)[3:0] => x[3:0]
(bit<8>) (x | 0) => (bit<8>) x
!(true && b) => !b
~(x ^ 0) => ~x
-(x - 0) => -x
b ? x + 0 : 1 * y => b ? x : y
e == error.NoMatch => e == error.NoMatch
t.apply().hit => t.apply().hit
x => x
h.isValid() && true => h.isValid() && true";
    for line in table.lines() {
        let (text, wanted) = sides(&rt, line);
        row(&rt, rt.alloc(), text, wanted);
    }
}

/// `x`, and behind it so often `+ 0`.
fn long_sum(rt: &impl Abort, alloc: Global, count: usize) -> String {
    let mut text = String::from_str(alloc, "x").expect(rt, "memory");
    for _ in 0..count {
        text.push_str(" + 0").expect(rt, "memory");
    }
    text
}

#[test]
fn high(rt: HostRuntime) {
    let text = long_sum(&rt, rt.alloc(), 249);
    row(&rt, rt.alloc(), &text, "x");
}
