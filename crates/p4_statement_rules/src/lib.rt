//! The rules of names and types of P4, of expressions and statements.
//!
//! The layer above gets, for each form of tree, a function that adds what the tests of that form
//! find to the first broken rule so far (`Found`): `check_block` and `check_stmt` of statements in a
//! `Part` of a program, `check_var`, `check_new`, `check_type` and `check_scalar` of declarations,
//! and `check_expr`, `check_free`, `check_index` and `check_constant` of expressions. They go on
//! behind a broken rule, and leave the names in sight as they were; only where memory is wanting
//! they end early, and then what was found and the names in sight are of no more use. `form_of` is
//! what a call is for.
//!
//! `rule` names the rules, and the parts of a program in which statements stand. What is tested is
//! in `specs/Expressions`, `Forms`, `Calls` and `Statements`, to be read in this order behind
//! `Ranks`. What the operands of an expression are is found once for all its levels (`operands`), so
//! that the time is that of the tree's size.
//!
//! Follows: P4_16 (version 1.2.4) and its v1model architecture; the subset is this project's
//! profile.
#![tactic(auto)]

mod calls;
mod digests;
pub mod expressions;
pub mod forms;
pub mod found;
mod operands;
mod registers;
pub mod rule;
pub mod statements;
mod sums;
pub mod types;
