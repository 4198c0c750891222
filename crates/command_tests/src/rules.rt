//! A run by no rule and by three: texts of programs get simpler, and what is sent, told and kept stays.

use crate::rows::{whole, wrong};
use lex_text::Name;
use p4_tree::Expr;
use simplify_rules::{Rewrite, Rule, RuleSet, drop_neutral, fold_choice, fold_numbers};
use std::alloc::Global;
use std::mem::forget;
use std::process::Abort;

/// A run over a program in which a sum of two numbers is compared, and all that it writes but for the programs.
const ROW: &str =
    "run c o @ &case @ &line2 @ $f bit<8> x = 5; if ((8w2 + 8w3) == x) { standard_metadata.egress_spec = 2; }| @ ~h.pcap 0102,0102 @ &counts @ >Done packets 2/sent 2/dropped 0/rejected 0/lost 0/reports 2/ @ :~o.wire.s1.2.pcap 48010102,48020102 @ :~o.out.s2.2.pcap 0102,0102 @ :/o.reports.txt 0 s2 0 1/1 s2 0 2/ @ :/o.registers.txt s1 hydra_s_seen 0 2/s2 hydra_s_seen 0 2/";

/// A name of a rule.
fn name(rt: &impl Abort, alloc: Global, text: &str) -> Name {
    Name::new(alloc, text).expect(rt, "memory")
}

/// The first part of a row that does not hold by the three rules.
fn wrong_by_three<'a>(rt: &impl Abort, alloc: Global, row: &'a str) -> &'a str {
    let numbers: Rewrite = Box::new(alloc, move |e: &Expr| fold_numbers(alloc, e)).expect(
        rt, "memory",
    );
    let choice: Rewrite = Box::new(alloc, move |e: &Expr| fold_choice(alloc, e)).expect(
        rt, "memory",
    );
    let neutral: Rewrite = Box::new(alloc, move |e: &Expr| drop_neutral(alloc, e)).expect(
        rt, "memory",
    );
    let mut rules = RuleSet::new(alloc);
    for rule in [
        Rule::new(name(rt, alloc, "fold_numbers"), numbers),
        Rule::new(name(rt, alloc, "fold_choice"), choice),
        Rule::new(name(rt, alloc, "drop_neutral"), neutral),
    ] {
        assert!(rt; rules.add(rule).is_ok(), "memory");
    }
    let found = wrong(rt, alloc, row, &rules);
    forget(rules);
    found
}

/// The row, with a text that the first switch's program has.
fn with_text(rt: &impl Abort, alloc: Global, text: &str) -> String {
    let mut row = whole(rt, alloc, ROW);
    row.push_str(" @ +o.linked.s1.p4 ").expect(rt, "memory");
    row.push_str(text).expect(rt, "memory");
    row
}

#[test]
fn no_rule_leaves_the_sum(rt: HostRuntime) {
    let alloc = rt.alloc();
    let row = with_text(&rt, alloc, "if (((8w2 + 8w3) == x)) {");
    let rules = RuleSet::new(alloc);
    let part = wrong(&rt, alloc, row.as_str(), &rules);
    assert_eq!(rt; part, "", "{row}");
}

#[test]
fn three_rules_change_the_text_alone(rt: HostRuntime) {
    let alloc = rt.alloc();
    let row = with_text(&rt, alloc, "if ((8w5 == x)) {");
    let part = wrong_by_three(&rt, alloc, row.as_str());
    assert_eq!(rt; part, "", "{row}");
}
