//! What holds of texts and programs. The functions do nothing: each is there for its clauses.

ghost use Rattle.p4_decls.specs.Faults.{OneProgram, OneRefusal, OneTree, ProgramOrFault};

/// Lexemes spell one program at most.
pub fn one_tree()
    ensures { OneTree }
{}

/// A text spells one program at most, or has a cause of its refusal.
pub fn one_answer()
    ensures one_program { OneProgram }
    ensures not_both { ProgramOrFault }
{}

/// A text has one refusal at most, with its token and what is left out, apart from want of memory.
pub fn one_refusal()
    ensures { OneRefusal }
{}
