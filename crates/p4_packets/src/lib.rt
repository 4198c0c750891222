//! The parser and the deparser of a P4 program, on maps by name.
//!
//! The layers above get `Fields`, the words in sight by path; `parse_frame`, a program's parser on a
//! frame, and `parse_from`, with anything in sight before it; `write_frame`, what its deparser makes; and
//! the pieces that they share with controls: `assign`, what a statement writes, and the standard
//! metadata. Contracts see `Fields` as a `Store` of
//! the trees' meaning, by the words of `specs/`.
//!
//! Follows: P4_16 Language Specification and v1model, this project's subset.
//!
//! A program may be any tree, also an ill-typed one. A path is found by a walk over all paths. After
//! want of memory what was worked on may have changed in part.
#![tactic(auto)]

mod begin;
mod fields;
mod parse;
mod parser;
mod rest;
mod select;
mod standard;
mod states;
mod write;
mod writes;

pub use fields::Fields;
pub use parse::ParserError;
pub use parser::{parse_frame, parse_from};
pub use rest::Rest;
pub use standard::{number, set_number, set_standard, standard_value};
pub use write::write_frame;
pub use writes::{assign, standard_path};
