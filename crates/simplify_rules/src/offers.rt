//! What is offered expressions.

ghost use Rattle.std.specs.Prelude.{Option, Some, IfOk};
ghost use Rattle.std.specs.Option.{option_map};
ghost use Rattle.p4_tree.specs.Tree as tree;
ghost use Rattle.p4_tree.specs.View.{expr_of};
ghost use Rattle.rewriting_laws.specs.Standing.{MayStandFor};
ghost use Rattle.simplify_rules.specs.FirstAnswer.{IsFirstAnswer};

use p4_tree::Expr;
use std::alloc::AllocError;

/// What is offered expressions, and answers each with one that may stand in its place, or with none.
/// Walks over trees take any such type, since a cycle of calls may not name one that holds a boxed
/// function.
pub trait Offers {
    /// What may be answered to an expression: an expression, or none.
    ghost Answers: { Self → tree.Expr → Option tree.Expr → Type 0 };

    /// An expression that may stand in the place of the given one, or none.
    fn answer(&self, e: &Expr) -> Result<Option<Expr>, AllocError>
        ensures { IfOk result (λ o. Answers self.now (expr_of e.now) (option_map expr_of o)) };

    /// What is answered may stand in the place of what was offered.
    ghost right: { (rules : Self) (e f : tree.Expr) → Answers rules e (Some f) → MayStandFor e f };
}

/// The first answer of several that are asked in their order.
pub fn first_answer<R: Offers>(rules: &[R], e: &Expr) -> Result<Option<Expr>, AllocError>
    ensures { IfOk result (λ o. IsFirstAnswer R.Answers rules.now (expr_of e.now) (option_map expr_of o)) }
{
    for rule in rules {
        if let Some(f) = rule.answer(e)? {
            return Ok(Some(f));
        }
    }
    Ok(None)
}
