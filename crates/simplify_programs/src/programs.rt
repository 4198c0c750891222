//! The well-typed program with answers of rules in it.

ghost use Rattle.std.specs.Prelude.{IfOk};
ghost use Rattle.p4_tree.specs.View.{program_of};
ghost use Rattle.simplify_programs.specs.Simplified.{IsSimplifiedProgram};

use p4_types::TypedProgram;
use simplify_rules::Offers;
use simplify_trees::simplified_program;
use std::alloc::{AllocError, Global};

/// The program with answers of the rules in the place of values of its controls.
pub fn simplify<R: Offers>(
    alloc: Global,
    rules: &R,
    p: &TypedProgram,
) -> Result<TypedProgram, AllocError>
    ensures { IfOk result (λ t. IsSimplifiedProgram (R.Answers rules.now)
        (program_of p.now) (program_of t)) }
{
    let program = simplified_program(alloc, rules, p.program())?;
    TypedProgram::known(alloc, program, p.counts())
}
