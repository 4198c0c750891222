//! Small trees of P4.

ghost use Rattle.std.specs.Prelude.{◌≡◌, ◌∷◌, [], IfOk};
ghost use Rattle.p4_tree.specs.Tree as p4;
ghost use Rattle.p4_tree.specs.View.{expr_of, stmt_of, stmts_of};
ghost use Rattle.monitor_laws.specs.Trees as trees;
ghost use Rattle.lookup_names.specs.Keys.{variable};

use lex_text::{Literal, Name};
use p4_tree::{Arg, Expr, Op, PTy, Stmt};
use std::alloc::{AllocError, Global};

/// A number with a written width, or with none where that is 0.
pub(crate) fn number(width: u8, value: u128) -> Expr
    ensures { expr_of result ≡ trees.number width value }
{
    Expr::Num(0, Literal { width, value })
}

/// A path of one name.
pub(crate) fn one_name(alloc: Global, name: Name) -> Result<Vec<Name>, AllocError>
    ensures { IfOk result (λ v. v.items ≡ name ∷ []) }
{
    let mut names = Vec::new(alloc);
    names.push(name)?;
    Ok(names)
}

/// A path of two names.
pub(crate) fn two_names(alloc: Global, first: Name, second: &str) -> Result<Vec<Name>, AllocError>
    ensures { IfOk result (λ v. v.items ≡ first ∷ second.now ∷ []) }
{
    let mut names = one_name(alloc, first)?;
    names.push(Name::new(alloc, second)?)?;
    Ok(names)
}

/// A variable.
pub(crate) fn variable(alloc: Global, name: Name) -> Result<Expr, AllocError>
    ensures { IfOk result (λ e. expr_of e ≡ variable name) }
{
    Ok(Expr::Path(0, one_name(alloc, name)?))
}

/// A value in another type.
pub(crate) fn cast(alloc: Global, ty: PTy, value: Expr) -> Result<Expr, AllocError>
    ensures { IfOk result (λ e. expr_of e ≡ p4.cast 0 ty (expr_of value)) }
{
    Ok(Expr::Cast(0, ty, Box::new(alloc, value)?))
}

/// An operator with its operands.
pub(crate) fn binary(alloc: Global, op: Op, left: Expr, right: Expr) -> Result<Expr, AllocError>
    ensures { IfOk result (λ e. expr_of e ≡ p4.binary 0 op (expr_of left) (expr_of right)) }
{
    let left = Box::new(alloc, left)?;
    Ok(Expr::Bin(0, op, left, Box::new(alloc, right)?))
}

/// A variable takes a value.
pub(crate) fn assign(alloc: Global, name: Name, value: Expr) -> Result<Stmt, AllocError>
    ensures { IfOk result (λ s. stmt_of s ≡ p4.assign 0 (name ∷ []) (expr_of value)) }
{
    Ok(Stmt::Assign(0, one_name(alloc, name)?, value))
}

/// A method of a thing is called with two arguments.
pub(crate) fn call_two(
    alloc: Global,
    thing: Name,
    method: &str,
    first: Expr,
    second: Expr,
) -> Result<Stmt, AllocError>
    ensures { IfOk result (λ s. stmt_of s ≡ p4.call 0 (thing ∷ method.now ∷ [])
        (p4.one 0 (expr_of first) ∷ p4.one 0 (expr_of second) ∷ [])) }
{
    let callee = two_names(alloc, thing, method)?;
    let mut args = Vec::new(alloc);
    args.push(Arg::One(0, first))?;
    args.push(Arg::One(0, second))?;
    Ok(Stmt::Call(0, callee, args))
}

/// A statement with others behind it.
pub(crate) fn before(
    alloc: Global,
    first: Stmt,
    mut rest: Vec<Stmt>,
) -> Result<Vec<Stmt>, AllocError>
    ensures { IfOk result (λ v. stmts_of v.items ≡ p4.next (stmt_of first) (stmts_of rest.items)) }
{
    let mut out = Vec::new(alloc);
    out.push(first)?;
    out.append(&mut rest)?;
    Ok(out)
}

/// A block.
pub(crate) fn block(alloc: Global, body: Vec<Stmt>) -> Result<Box<Stmt>, AllocError>
    ensures { IfOk result (λ b. stmt_of b.value ≡ p4.block 0 (stmts_of body.items)) }
{
    Ok(Box::new(alloc, Stmt::Block(0, body))?)
}

/// What stands in a test alone.
pub(crate) fn only_if(alloc: Global, test: Expr, body: Vec<Stmt>) -> Result<Stmt, AllocError>
    ensures { IfOk result (λ s. stmt_of s ≡ trees.only_if (expr_of test) (stmts_of body.items)) }
{
    Ok(Stmt::If(0, test, block(alloc, body)?, None))
}
