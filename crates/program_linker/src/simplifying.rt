//! Linked programs with answers of rules in them.

ghost use Rattle.std.specs.Prelude.{◌≡◌, All, IfOk, map};
ghost use Rattle.std.specs.List.{AllZip};
ghost use Rattle.p4_tree.specs.View.{program_of};
ghost use Rattle.p4_printer.specs.CanSpell.{CanSpell};
ghost use Rattle.simplify_programs.specs.Simplified.{IsSimplifiedProgram};
ghost use Rattle.lower_blocks.specs.Results.{rows_of};
ghost use Rattle.program_linker.specs.Simpler.{StayLinked};

use crate::linking::Linked;
use p4_types::TypedProgram;
use simplify_programs::simplify;
use simplify_rules::Offers;
use std::alloc::{AllocError, Global};

/// The program of each switch with answers of the rules in it. Each is let go of when its own is made.
fn simplified_programs<R: Offers>(
    alloc: Global,
    programs: Vec<TypedProgram>,
    rules: &R,
) -> Result<Vec<TypedProgram>, AllocError>
    ensures { IfOk result (λ v. AllZip (IsSimplifiedProgram (R.Answers rules.now))
        (map program_of programs.items) (map program_of v.items)) }
{
    let mut made = Vec::new(alloc);
    for program in programs {
        made.push(simplify(alloc, rules, &program)?)?;
    }
    Ok(made)
}

/// What is linked, with answers of the rules in its programs, one by one. The tables of control variables
/// and the layout stay.
///
/// # Errors
///
/// `AllocError` where memory runs out. What was linked is given up then.
pub fn simplify_linked<R: Offers>(alloc: Global, l: Linked, rules: &R) -> Result<Linked, AllocError>
    ensures programs { IfOk result (λ o. AllZip (IsSimplifiedProgram (R.Answers rules.now))
        (map program_of l.programs.items) (map program_of o.programs.items)) }
    ensures map { IfOk result (λ o. o.map ≡ l.map) }
    ensures layout { IfOk result (λ o. o.layout ≡ l.layout) }
    ensures linked { IfOk result (λ o. StayLinked (map program_of l.programs.items) (map program_of o.programs.items) (rows_of l.map)) }
    ensures spelled { IfOk result (λ o. All (λ t. CanSpell (program_of t)) l.programs.items → All (λ t. CanSpell (program_of t)) o.programs.items) }
{
    let Linked {
        programs,
        map,
        layout,
    } = l;
    let programs = simplified_programs(alloc, programs, rules)?;
    Ok(Linked {
        programs,
        map,
        layout,
    })
}
