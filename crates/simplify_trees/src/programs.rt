//! Declarations at top level, and programs.

ghost use Rattle.std.specs.Prelude.{IfOk, map};
ghost use Rattle.std.specs.List.{AllZip};
ghost use Rattle.p4_tree.specs.View.{program_of, top_of};
ghost use Rattle.rewriting_laws.specs.Standing.{MayStandFor};
ghost use Rattle.rewritten_programs.specs.Rewritten.{ProgramRewritten, TopRewritten};
ghost use Rattle.simplify_rules.specs.Simplified.{IsSimplified};

use crate::declarations::control;
use p4_tree::{Program, Top};
use p4_values::copy_path;
use simplify_rules::Offers;
use std::alloc::{AllocError, Global};

/// A declaration at top level. What is no control stays.
fn top<R: Offers>(alloc: Global, rules: &R, t: &Top) -> Result<Top, AllocError>
    ensures { IfOk result (λ u. TopRewritten (IsSimplified (R.Answers rules.now))
        (top_of t.now) (top_of u)) }
{
    match t {
        Top::Ctl(at, c) => Ok(Top::Ctl(*at, control(alloc, rules, c)?)),
        Top::Const(_, _, _, _) => t.copy(alloc),
        Top::Typedef(_, _, _) => t.copy(alloc),
        Top::Header(_, _, _) => t.copy(alloc),
        Top::Struct(_, _, _) => t.copy(alloc),
        Top::Reg(_, _) => t.copy(alloc),
        Top::Pars(_, _) => t.copy(alloc),
    }
}

fn tops<R: Offers>(alloc: Global, rules: &R, list: &[Top]) -> Result<Vec<Top>, AllocError>
    ensures { IfOk result (λ v. AllZip (TopRewritten (IsSimplified (R.Answers rules.now)))
        (map top_of list.now) (map top_of v.items)) }
{
    let mut made = Vec::with_capacity(alloc, list.len())?;
    for t in list {
        made.push(top(alloc, rules, t)?)?;
    }
    Ok(made)
}

/// The program with answers of the rules in it: each expression of a control that is a value is gone
/// through from the inside to the outside, and offered once.
pub fn simplified_program<R: Offers>(
    alloc: Global,
    rules: &R,
    p: &Program,
) -> Result<Program, AllocError>
    ensures walked { IfOk result (λ q. ProgramRewritten (IsSimplified (R.Answers rules.now))
        (program_of p.now) (program_of q)) }
    ensures stands { IfOk result (λ q. ProgramRewritten MayStandFor
        (program_of p.now) (program_of q)) }
{
    program(alloc, rules, p)
}

fn program<R: Offers>(alloc: Global, rules: &R, p: &Program) -> Result<Program, AllocError>
    ensures { IfOk result (λ q. ProgramRewritten (IsSimplified (R.Answers rules.now))
        (program_of p.now) (program_of q)) }
{
    let tops = tops(alloc, rules, &p.tops)?;
    Ok(Program {
        at: p.at,
        tops,
        main: copy_path(alloc, &p.main)?,
    })
}
