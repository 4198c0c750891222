//! The well-typed program of the same meaning.

ghost use Rattle.std.specs.Prelude.{IfOk};
ghost use Rattle.p4_tree.specs.View.{program_of};
ghost use Rattle.exit_programs.specs.Names.{HasGivenNames};
ghost use Rattle.exit_lowering.specs.Lowered.{IsLowered, Lowers};

use exit_rewriting::rewritten;
use p4_types::TypedProgram;
use std::alloc::{AllocError, Global};

/// A well-typed program of given names has all this without exits.
pub fn lowers()
    ensures { Lowers }
{}

/// The program of the same meaning without `exit` and `return`. Names that are new begin with
/// `hydra_x_`.
pub fn without_exits(alloc: Global, p: &TypedProgram) -> Result<TypedProgram, AllocError>
    requires given { HasGivenNames (program_of p.now) }
    ensures { IfOk result (λ t. IsLowered (program_of p.now) (program_of t)) }
{
    let program = rewritten(alloc, p.program())?;
    TypedProgram::known(alloc, program, p.counts())
}
