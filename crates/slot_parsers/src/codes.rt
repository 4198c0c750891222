//! Parsers over slots.

use slot_statements::Code;
use slot_terms::Term;

/// A statement of a state.
#[derive(Drop)]
pub enum Step {
    /// What does nothing.
    Pass,
    /// An assignment.
    Assigns(Code),
    /// The extract of the header of a number.
    Takes(u32),
}

/// A key set.
#[derive(Drop)]
pub enum Key {
    Any,
    Only(Term),
    /// A value and its mask.
    Masked(Term, Term),
}

/// A case of a `select`: the number of the state that follows, or none where the parser ends.
#[derive(Drop)]
pub struct Case {
    pub keys: Vec<Key>,
    pub next: Option<u32>,
}

/// What follows a state: the end, a state, or that of the first case that fits.
#[derive(Drop)]
pub enum Next {
    Stop,
    To(Option<u32>),
    Select(Vec<Term>, Vec<Case>),
}

/// A state.
#[derive(Drop)]
pub struct StateCode {
    pub steps: Vec<Step>,
    pub next: Next,
}

/// A parser: its states by their numbers, and the first one.
#[derive(Drop)]
pub struct ParserCode {
    pub states: Vec<StateCode>,
    pub start: Option<u32>,
}
