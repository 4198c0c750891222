//! The law of whole passages, the contract of a function that does nothing.

ghost use Rattle.rewriting_passages.specs.Passages.{PassagesStay};

/// Both halves of a passage of a well-typed program are the same with other values, whatever is kept in
/// registers and in tables that run actions of their lists.
pub fn passages_stay()
    ensures { PassagesStay }
{}
