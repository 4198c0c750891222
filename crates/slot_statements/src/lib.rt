//! Statements of P4 over numbered slots, in place of paths.
//!
//! The layers above get `stmts_code`, which makes `Code` of statements once, by the places of the paths
//! in sight; `exec_all`, what code does to a `State`, for which no name is walked; the slots of an
//! action's parameters, with what they get of a call's arguments (`arguments`, `parameters`, `bind`) and
//! of words (`masked`, `bind_words`); and `key_terms` and `put_keys`, what a table is asked, whatever tells
//! by numbers what it chooses (`NumberedTables`). `specs/Runs` says that code does what its statements
//! mean, on every store that the slots show.
//!
//! Follows: P4_16 Language Specification and v1model, this project's subset. Statements may be any
//! trees, also ill-typed ones; where a path has no place there is no code (`Fault::Unknown`). Of calls
//! mark_to_drop alone has code.
//!
//! What runs takes no memory. Nothing is promised of the speed of what makes code.
#![tactic(auto)]

mod actions;
mod calls;
mod code;
mod statements;
mod tables;

pub use actions::{bind_words, masked};
pub use calls::{arguments, bind, flow_behind, parameters};
pub use code::{Code, exec, exec_all};
pub use p4_statements::Flow;
pub use statements::{drop_code, stmt_code, stmts_code};
pub use tables::{NumberedOutcome, NumberedTables, key_terms, put_keys};
