//! Small trees of P4: what code that writes programs builds them of. All places are 0.
//!
//! Follows: P4_16 Language Specification, this project's subset.
#![tactic(auto)]

mod trees;

pub use trees::{
    assign, at_path, binary, block, both, call, either, negated, number, one_arg, one_name, pair,
    single, three_names, two_args, two_names, when,
};
