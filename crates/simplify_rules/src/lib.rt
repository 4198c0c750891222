//! Rules that put simpler expressions in the place of those of a P4 program, and lists of them.
//!
//! The layers above get `Rule`, a stored function with the fact that its answers may stand in the place
//! of what it is offered (`MayStandFor` of `rewriting_laws`); `RuleSet`, rules in an order; `simplified`,
//! an expression that was gone through from the inside to the outside (`specs/Simplified`), with any
//! rules that meet `Offers`; and three rules, `fold_numbers`, `fold_choice` and `drop_neutral`, each of
//! which is a function on trees (`specs/FoldNumbers`, `FoldChoice`, `DropNeutral`).
//!
//! Follows: P4_16 Language Specification, this project's subset. Nothing says that an expression becomes
//! shorter: that rests on the rules.
#![tactic(auto)]

mod choice;
mod neutral;
mod numbers;
mod offers;
mod operand;
mod own_width;
mod rules;
mod walk;

pub use choice::fold_choice;
pub use neutral::drop_neutral;
pub use numbers::fold_numbers;
pub use offers::Offers;
pub use rules::{Rewrite, Rule, RuleSet};
pub use walk::simplified;
