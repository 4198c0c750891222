//! What an expression says by itself.

ghost use Rattle.std.specs.Prelude.{◌≡◌};
ghost use Rattle.p4_tree.specs.View.{expr_of};
ghost use Rattle.simplify_rules.specs.Known.{known_in};

use lex_text::Literal;
use p4_tree::Expr;

/// A number, a truth value, or nothing that is known without a store.
#[derive(Clone, Copy, Debug, PartialEq, Eq)]
pub enum Known {
    Number(Literal),
    Truth(bool),
    Nothing,
}

/// What an expression says by itself.
pub fn known_in(e: &Expr) -> Known
    ensures { result ≡ known_in (expr_of e.now) }
{
    match e {
        Expr::Num(_, n) => Known::Number(*n),
        Expr::Flag(_, b) => Known::Truth(*b),
        Expr::Path(_, _) | Expr::Valid(_, _) | Expr::Applied(_, _, _) => Known::Nothing,
        Expr::ErrorName(_, _) | Expr::Not(_, _) | Expr::Invert(_, _) => Known::Nothing,
        Expr::Negate(_, _) | Expr::Bin(_, _, _, _) | Expr::Choice(_, _, _, _) => Known::Nothing,
        Expr::Slice(_, _, _, _) | Expr::Cast(_, _, _) => Known::Nothing,
    }
}
