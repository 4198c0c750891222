//! What is sure of the tables of well-typed P4 programs, by the full names of tables and actions.
//!
//! The crate has definitions and laws, and no code. `specs/Loaded` says what holds of tables that were
//! loaded, by `insert`, `set_default` and `replace` of `p4_tables`, and of tables of another program that
//! are to hold the same.
//!
//! Follows: P4_16 Language Specification and v1model, this project's subset.
#![tactic(auto)]

ghost use Rattle.table_laws.specs.Loaded.{LoadedTablesAreListed, ReplacedIsPut, SameNumbersAreApart, SameShapesTakeTheSame};

/// What tables hold that were loaded runs actions of their lists, by their full names; a table that is
/// given entries holds them by its name, and the others what they held; and a table of the same shape in
/// another program takes what a table holds, where the numbers of its actions are apart, as they are where
/// the names of its list stand for actions in both programs.
pub fn loaded_tables_are_listed()
    ensures listed { LoadedTablesAreListed }
    ensures put { ReplacedIsPut }
    ensures taken { SameShapesTakeTheSame }
    ensures apart { SameNumbersAreApart }
{}
