//! The headers that a deparser emits.

ghost use Rattle.std.specs.Prelude.{◌≡◌, ◌++◌, IfOk, OnOk, map};
ghost use Rattle.p4_tree.specs.View.{arg_of, program_of, stmts_of};
ghost use Rattle.p4_meaning.specs.Parts.{body_in, emitted, emits_of};
ghost use Rattle.p4_parts.specs.Paths.{path_in};

use crate::bodies::body_at;
use lex_text::Name;
use p4_tree::{Arg, Expr, Program, Stmt};
use p4_values::copy_path;
use std::alloc::{AllocError, Global};

/// The path that an `emit` names.
fn push_emitted(alloc: Global, args: &[Arg], emits: &mut Vec<Vec<Name>>) -> Result<(), AllocError>
    ensures { OnOk result (map path_in emits.new.items ≡ map path_in emits.old.items ++ emitted (map arg_of args.now)) }
{
    match args {
        [] => Ok(()),
        [first, rest @ ..] => match first {
            Arg::Many(_, _) => Ok(()),
            Arg::One(_, e) => match e {
                Expr::Path(_, names) => match rest {
                    [] => {
                        emits.push(copy_path(alloc, names)?)?;
                        Ok(())
                    }
                    [_second, _others @ ..] => Ok(()),
                },
                Expr::Num(_, _) | Expr::Flag(_, _) | Expr::Valid(_, _) => Ok(()),
                Expr::Applied(_, _, _) | Expr::ErrorName(_, _) => Ok(()),
                Expr::Not(_, _) | Expr::Invert(_, _) | Expr::Negate(_, _) => Ok(()),
                Expr::Bin(_, _, _, _) | Expr::Choice(_, _, _, _) => Ok(()),
                Expr::Slice(_, _, _, _) | Expr::Cast(_, _, _) => Ok(()),
            },
        },
    }
}

/// The paths that `emit` statements name, in order.
fn emits_of(alloc: Global, list: &[Stmt]) -> Result<Vec<Vec<Name>>, AllocError>
    ensures { IfOk result (λ v. map path_in v.items ≡ emits_of (stmts_of list.now)) }
{
    let mut emits = Vec::new(alloc);
    for s in list {
        match s {
            Stmt::Call(_, _, args) => push_emitted(alloc, args, &mut emits)?,
            Stmt::Nothing(_) => {}
            Stmt::Block(_, _) => {}
            Stmt::Var(_, _, _, _) => {}
            Stmt::Assign(_, _, _) => {}
            Stmt::If(_, _, _, _) => {}
            Stmt::Return(_) => {}
            Stmt::Exit(_) => {}
        }
    }
    Ok(emits)
}

/// The headers that the deparser of a program emits.
pub fn emits_in(alloc: Global, p: &Program) -> Result<Vec<Vec<Name>>, AllocError>
    ensures { IfOk result (λ v. map path_in v.items ≡ emits_of (body_in 1 9 9 (program_of p.now) 5).body) }
{
    let deparser = body_at(alloc, 1, 9, 9, p, 5)?;
    emits_of(alloc, &deparser.body)
}
