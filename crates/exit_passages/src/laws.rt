//! What holds of programs without exits, the contract of a function that does nothing.

ghost use Rattle.exit_passages.specs.Passages.{PassesAgree};

/// Both halves of a passage of a well-typed program are those of the program without exits.
pub fn passes_agree()
    ensures { PassesAgree }
{}
