//! What the operands of an expression are, found once for all its levels.

ghost use Rattle.std.specs.Prelude.{◌≡◌, ◌∷◌, [], IfOk};
ghost use Rattle.p4_tree.specs.View.{expr_of};
ghost use Rattle.p4_scopes.specs.Scopes.{own};
ghost use Rattle.p4_scopes.specs.View.{scope_of};
ghost use Rattle.p4_statement_rules.specs.Operands.{top, below, noted};

use p4_scopes::kind::{Kind, as_number, binary_kind, choice_kind, slice_width};
use p4_scopes::scope::{Scope, cast_kind};
use p4_tree::Expr;
use std::alloc::{AllocError, Global};
use std::marker::Model;

/// What operands are. Contracts see what was put there last first.
#[derive(Drop)]
pub(crate) struct Operands {
    kinds: Vec<Kind>,
}

impl Model for Operands {
    ghost use Rattle.std.specs.Prelude.{List, reverse};
    ghost use Rattle.p4_scopes.specs.declared.kind.Kind as code_kind;

    ghost Value = { List code_kind.Kind };

    ghost view = { λ o. reverse o.kinds.items };
}

impl Operands {
    pub(crate) fn new(alloc: Global) -> Operands
        ensures { result ≡ [] }
    {
        Operands {
            kinds: Vec::new(alloc),
        }
    }

    fn push(&mut self, kind: Kind) -> Result<(), AllocError>
        ensures { IfOk result (λ _. self.new ≡ kind ∷ self.old) }
    {
        self.kinds.push(kind)?;
        Ok(())
    }

    pub(crate) fn pop(&mut self) -> Kind
        ensures first { result ≡ top self.old }
        ensures rest { self.new ≡ below self.old }
    {
        self.kinds.pop().unwrap_or(Kind::Unknown)
    }
}

/// Notes what the operands of an expression are at all its levels, and answers what it is itself.
pub(crate) fn note(scope: &Scope, e: &Expr, operands: &mut Operands) -> Result<Kind, AllocError>
    ensures own { IfOk result (λ k. k ≡ own (scope_of scope.now) (expr_of e.now)) }
    ensures noted { IfOk result (λ _. operands.new
        ≡ noted (scope_of scope.now) (expr_of e.now) operands.old) }
{
    match e {
        Expr::Num(_, _) | Expr::Flag(_, _) | Expr::Path(_, _) => Ok(scope.own(e)),
        Expr::Valid(_, _) | Expr::Applied(_, _, _) | Expr::ErrorName(_, _) => Ok(scope.own(e)),
        Expr::Not(_, a) => {
            note(scope, a, operands)?;
            Ok(Kind::Truth)
        }
        Expr::Invert(_, a) | Expr::Negate(_, a) => {
            let kind = note(scope, a, operands)?;
            operands.push(kind)?;
            Ok(as_number(kind))
        }
        Expr::Bin(_, op, a, b) => {
            let right = note(scope, b, operands)?;
            let left = note(scope, a, operands)?;
            operands.push(right)?;
            operands.push(left)?;
            Ok(binary_kind(*op, left, right))
        }
        Expr::Choice(_, c, a, b) => {
            let right = note(scope, b, operands)?;
            let left = note(scope, a, operands)?;
            note(scope, c, operands)?;
            operands.push(right)?;
            operands.push(left)?;
            Ok(choice_kind(left, right))
        }
        Expr::Slice(_, a, high, low) => {
            let kind = note(scope, a, operands)?;
            operands.push(kind)?;
            Ok(Kind::Number(slice_width(*high, *low)))
        }
        Expr::Cast(_, t, a) => {
            let kind = note(scope, a, operands)?;
            operands.push(kind)?;
            Ok(cast_kind(t))
        }
    }
}
