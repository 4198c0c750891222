//! Expressions of P4 over numbered slots, in place of paths.
//!
//! The layers above get `typed_term` and `term_in_place`, which make a `Term` of an expression once,
//! by the `Places` of the paths in sight; and `eval`, the value of a `Term`, which walks no name. Slots
//! hold numbers without widths: widths and masks stand in the term. `specs/Places` says when slots
//! show a `Store` of the trees' meaning, and that a term means its expression on every such store.
//! `add_place` gives a path the next slot.
//!
//! Follows: P4_16 Language Specification, this project's subset. An expression may be any tree, also
//! an ill-typed one; where one of its paths has no place there is no term (`Fault::Unknown`).
//!
//! `eval` takes no memory. Nothing is promised of the speed of what makes terms.
#![tactic(auto)]

mod expressions;
mod fault;
mod hashes;
mod laying;
mod nodes;
mod places;
mod state;
mod term;
mod typed;

pub use expressions::{term_in_place, typed_term};
pub use fault::Fault;
pub use laying::{
    add_place, cut_back, header_number, no_places, place_at, places_in_order, row_count,
};
pub use places::{Place, Places};
pub use state::State;
pub use term::{Term, eval, is_valid, number_in, put_number};
pub use typed::{Typed, constant, mask};
