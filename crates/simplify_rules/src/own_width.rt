//! Which expressions have a width or a kind of their own.

ghost use Rattle.std.specs.Prelude.{◌≡◌};
ghost use Rattle.p4_tree.specs.Operators.{class_of};
ghost use Rattle.p4_tree.specs.View.{expr_of};
ghost use Rattle.rewriting_laws.specs.OwnWidths.{class_has_own, has_own};

use p4_tree::{Expr, Op};

/// Whether what an operator makes has one, by whether its operands do.
fn made_has_own(op: Op, left: bool, right: bool) -> bool
    ensures { result ≡ class_has_own (class_of op) left right }
{
    match op {
        Op::Mul | Op::Add | Op::Sub | Op::BitAnd | Op::BitXor | Op::BitOr => left || right,
        Op::Shl | Op::Shr => left,
        Op::Concat | Op::Less | Op::LessEq | Op::More | Op::MoreEq => true,
        Op::Equal | Op::Differ | Op::Both | Op::Either => true,
    }
}

/// Whether an expression has a width or a kind of its own, which its place need not give.
pub fn has_own(e: &Expr) -> bool
    ensures { result ≡ has_own (expr_of e.now) }
{
    match e {
        Expr::Num(_, n) => n.width != 0,
        Expr::Flag(_, _) | Expr::Path(_, _) | Expr::Valid(_, _) | Expr::Applied(_, _, _) => true,
        Expr::ErrorName(_, _) | Expr::Not(_, _) => true,
        Expr::Invert(_, a) => has_own(a),
        Expr::Negate(_, a) => has_own(a),
        Expr::Bin(_, op, a, b) => {
            let left = has_own(a);
            made_has_own(*op, left, has_own(b))
        }
        Expr::Choice(_, _, a, b) => has_own(a) || has_own(b),
        Expr::Slice(_, _, _, _) | Expr::Cast(_, _, _) => true,
    }
}
