//! What names stand for in a P4 program, and trees with that in their place.
//!
//! The layer above gets `Layer`, what is declared in a program and in a part of it as far as a place,
//! `Inner`, what an action declares, and `Scope`, what names stand for where these are around; trees
//! under a scope (`expr_under`, `stmts_under`, `states_under`), names and types under it, and the
//! declarations that a name stands for (`control_named` and the like).
//!
//! Follows: P4_16 Language Specification, this project's subset.
//!
//! Constants are computed once, where they are passed. Names of constants, types, registers, tables,
//! actions and of what an action declares are found by tables.
#![tactic(auto)]

mod find;
mod latest;
mod layer;
mod names;
mod scope;
mod states;
mod under;

pub use find::{
    control_named, header_fields, named_in, param_type, parser_named, struct_fields, type_name,
};
pub use latest::Latest;
pub use layer::{Inner, Layer, Roots, roots_of};
pub use names::Names;
pub use scope::{Scope, first_name, full_name, type_under, width_under};
pub use states::states_under;
pub use under::{expr_under, exprs_under, stmts_under, var_under};
