//! The statements that set, declare and test flags.

ghost use Rattle.std.specs.Prelude.{◌≡◌, ◌∷◌, [], false, IfOk, Some};
ghost use Rattle.p4_tree.specs.Tree as tree;
ghost use Rattle.p4_tree.specs.View.{expr_of, stmt_of, stmts_of, else_of, local_of};
ghost use Rattle.p4_tree.specs.declared.statement.PTy.TheVariants as type;
ghost use Rattle.exit_statements.specs.Without.{exit_in, flag_of, guarded, in_branch, in_list, no_exits, raised};
ghost use Rattle.exit_statements.specs.Actions.{lowered};
ghost use Rattle.exit_programs.specs.Programs.{flags};
ghost use Rattle.exit_rewriting.specs.Exiting.{body_of};

use lex_text::Name;
use p4_tree::{Expr, Local, PTy, Stmt};
use std::alloc::{AllocError, Global};

/// Where statements stand: in an action, or in the apply block of a control.
#[derive(Clone, Copy)]
pub(crate) enum Body {
    InAction,
    InControl,
}

/// The name of the flag that a guard tests.
pub(crate) fn flag_name(body: Body) -> &'static str
    ensures { result.now ≡ flag_of flags (body_of body) }
{
    match body {
        Body::InAction => "hydra_x_returned",
        Body::InControl => "hydra_x_left",
    }
}

fn one_name(alloc: Global, name: &str) -> Result<Vec<Name>, AllocError>
    ensures { IfOk result (λ v. v.items ≡ name.now ∷ []) }
{
    let name = Name::new(alloc, name)?;
    let mut path = Vec::new(alloc);
    path.push(name)?;
    Ok(path)
}

/// An action's flag is declared.
fn lower(alloc: Global) -> Result<Stmt, AllocError>
    ensures { IfOk result (λ s. stmt_of s ≡ lowered flags.returned) }
{
    let name = Name::new(alloc, "hydra_x_returned")?;
    Ok(Stmt::Var(0, PTy::Bool, name, Some(Expr::Flag(0, false))))
}

/// An action's flag is declared before its statements.
pub(crate) fn flagged(alloc: Global, mut body: Vec<Stmt>) -> Result<Vec<Stmt>, AllocError>
    ensures { IfOk result (λ v. stmts_of v.items
        ≡ tree.next (lowered flags.returned) (stmts_of body.items)) }
{
    let flag = lower(alloc)?;
    body.insert(0, flag)?;
    Ok(body)
}

/// A control's flag is declared.
pub(crate) fn flag_local(alloc: Global) -> Result<Local, AllocError>
    ensures { IfOk result (λ l. local_of l
        ≡ tree.local_var 0 type.Bool flags.left (Some (tree.flag 0 false))) }
{
    let name = Name::new(alloc, "hydra_x_left")?;
    Ok(Local::Var(0, PTy::Bool, name, Some(Expr::Flag(0, false))))
}

/// A flag is set.
pub(crate) fn raise(alloc: Global, name: &str) -> Result<Stmt, AllocError>
    ensures { IfOk result (λ s. stmt_of s ≡ raised name.now) }
{
    let path = one_name(alloc, name)?;
    Ok(Stmt::Assign(0, path, Expr::Flag(0, true)))
}

fn not_set(alloc: Global, name: &str) -> Result<Expr, AllocError>
    ensures { IfOk result (λ e. expr_of e ≡ tree.negation 0 (tree.path 0 (name.now ∷ []))) }
{
    let path = one_name(alloc, name)?;
    let read = Box::new(alloc, Expr::Path(0, path))?;
    Ok(Expr::Not(0, read))
}

/// A statement that is run where the flag is not set.
fn guard(alloc: Global, name: &str, s: Stmt) -> Result<Stmt, AllocError>
    ensures { IfOk result (λ r. stmt_of r ≡ guarded name.now (stmt_of s)) }
{
    let test = not_set(alloc, name)?;
    when(alloc, test, s)
}

fn when(alloc: Global, test: Expr, s: Stmt) -> Result<Stmt, AllocError>
    ensures { IfOk result (λ r. stmt_of r ≡ tree.choice 0 (expr_of test) (stmt_of s) tree.without) }
{
    choice(alloc, test, s, None)
}

fn choice(alloc: Global, test: Expr, s: Stmt, other: Option<Box<Stmt>>) -> Result<Stmt, AllocError>
    ensures { IfOk result (λ r. stmt_of r
        ≡ tree.choice 0 (expr_of test) (stmt_of s) (else_of other)) }
{
    let s = Box::new(alloc, s)?;
    Ok(Stmt::If(0, test, s, other))
}

/// What stands in place of `exit`.
pub(crate) fn exit_in(alloc: Global, body: Body) -> Result<Stmt, AllocError>
    ensures { IfOk result (λ s. stmt_of s ≡ exit_in flags (body_of body)) }
{
    match body {
        Body::InControl => raise(alloc, "hydra_x_left"),
        Body::InAction => {
            let one = raise(alloc, "hydra_x_left")?;
            let two = raise(alloc, "hydra_x_returned")?;
            block_of_two(alloc, one, two)
        }
    }
}

fn block_of_two(alloc: Global, one: Stmt, two: Stmt) -> Result<Stmt, AllocError>
    ensures { IfOk result (λ s. stmt_of s
        ≡ tree.block 0 (tree.next (stmt_of one) (tree.next (stmt_of two) tree.done))) }
{
    let mut body = Vec::new(alloc);
    body.push(one)?;
    body.push(two)?;
    Ok(Stmt::Block(0, body))
}

fn block_of_one(alloc: Global, one: Stmt) -> Result<Stmt, AllocError>
    ensures { IfOk result (λ s. stmt_of s ≡ tree.block 0 (tree.next (stmt_of one) tree.done)) }
{
    let mut body = Vec::new(alloc);
    body.push(one)?;
    Ok(Stmt::Block(0, body))
}

/// A statement of a list, where one before it may have left.
pub(crate) fn in_list(
    alloc: Global,
    body: Body,
    left: bool,
    declares: bool,
    s: Stmt,
) -> Result<Stmt, AllocError>
    ensures { IfOk result (λ r. stmt_of r
        ≡ in_list flags no_exits (body_of body) left declares (stmt_of s)) }
{
    if !left {
        return Ok(s);
    }
    if declares {
        Ok(s)
    } else {
        guard(alloc, flag_name(body), s)
    }
}

/// A branch, where the test may have left.
pub(crate) fn in_branch(alloc: Global, body: Body, left: bool, s: Stmt) -> Result<Stmt, AllocError>
    ensures { IfOk result (λ r. stmt_of r
        ≡ in_branch flags no_exits (body_of body) left (stmt_of s)) }
{
    if left {
        let s = guard(alloc, flag_name(body), s)?;
        block_of_one(alloc, s)
    } else {
        Ok(s)
    }
}
