//! The stores along a passage of a well-typed P4 program: words of the widths that the program declares.
//!
//! The layer above gets a predicate on stores and on queued states, `IsFit` and `IsFitQueued`
//! (`specs/FitStores`), that each store of a passage fits (`specs/PassageStores`), and what is seen at
//! each statement to which a passage comes, in the parser, in the controls of both halves and in their
//! actions (`specs/SeenPassages`). There is no code: each law is the contract of a function that does
//! nothing.
//!
//! Follows: P4_16 Language Specification and v1model, this project's subset.
#![tactic(auto)]

mod laws;

pub use laws::{each_part_begins, each_passage_sees, passage_stores_fit, seen_has_width};
