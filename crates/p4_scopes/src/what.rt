//! What is declared.

use crate::thing::{Access, Thing};
use lex_text::Name;
use p4_tree::PTy;

/// What is declared.
#[derive(Clone, Copy)]
pub enum What<'a> {
    /// Another name of a type of single values.
    Alias(&'a PTy),
    /// A header or a struct with its fields.
    Fields(Thing, &'a [(PTy, Name)]),
    /// A variable, a parameter or a constant.
    Value(Access, &'a PTy),
    Register(&'a PTy),
    /// An action with its parameters, and the most digests that a call gives.
    Action(&'a [(PTy, Name)], u32),
    /// A table, by the most digests that an application gives.
    Table(u32),
    /// A state of a parser.
    State,
    /// A parser or a control.
    Part,
}
