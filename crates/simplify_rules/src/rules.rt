//! Rules: stored functions with what is known of their answers, and lists of them in an order.

ghost use Rattle.std.specs.Prelude.{◌≡◌, [], ◌∷◌, ◌++◌, length, IfOk, IfErr, OnOk, OnErr};
ghost use Rattle.std.proofs.Props.{props};
ghost use Rattle.p4_tree.specs.View.{expr_of};
ghost use Rattle.rewriting_laws.specs.Standing.{MayStandIfAny};
ghost use Rattle.rewriting_laws.specs.Facts.{any_prop};
ghost use Rattle.simplify_rules.specs.FirstAnswer.{MayAnswer, IsFirstAnswer};
ghost use Rattle.simplify_rules.specs.Rights.{answer_is_right, set_is_right};

use crate::offers::{Offers, first_answer};
use lex_text::Name;
use p4_tree::Expr;
use std::alloc::{AllocError, Global};

/// A boxed function that answers an expression with another one, or with none.
pub type Rewrite = Box<dyn Fn(&Expr) -> Result<Option<Expr>, AllocError>>;

/// A function that may be offered any expression, and whose answers may stand in its place.
#[derive(Drop)]
pub struct Rule {
    pub name: Name,
    rewrite: Rewrite,
    ghost callable: { Rewrite.IsAlwaysCallable rewrite },
    ghost right: { (e : _) (r : _) → Rewrite.post rewrite e r → IfOk r (MayStandIfAny (expr_of e.now)) } by { Prim.hlevel (any_prop, props) },
}

impl Rule {
    /// A rule, of a function whose answers are right.
    pub fn new(name: Name, rewrite: Rewrite) -> Rule
        requires callable { Rewrite.IsAlwaysCallable rewrite }
        requires right { (e : _) (r : _) → Rewrite.post rewrite e r → IfOk r (MayStandIfAny (expr_of e.now)) }
        ensures named { result.name ≡ name }
        ensures stored { result.rewrite ≡ rewrite }
    {
        Rule { name, rewrite }
    }
}

/// What the stored function answers.
impl Offers for Rule {
    ghost Answers = { λ rule. MayAnswer (λ e. expr_of e.now) (Rewrite.post rule.rewrite) };

    fn answer(&self, e: &Expr) -> Result<Option<Expr>, AllocError> {
        (self.rewrite)(e)
    }

    ghost right = { λ rule. answer_is_right (λ e. expr_of e.now) _ rule.right };
}

/// Rules, the first to be asked first.
#[derive(Drop)]
pub struct RuleSet {
    rules: Vec<Rule>,
}

impl RuleSet {
    /// A set without a rule.
    pub fn new(alloc: Global) -> RuleSet
        ensures { result.rules.items ≡ [] }
    {
        RuleSet {
            rules: Vec::new(alloc),
        }
    }

    /// How many rules there are.
    pub fn count(&self) -> usize
        ensures { result ≡ length self.now.rules.items }
    {
        self.rules.len()
    }

    /// Puts a rule behind the others. For want of memory it is handed back, and nothing has changed.
    pub fn add(&mut self, rule: Rule) -> Result<(), Rule>
        ensures added { OnOk result (self.new.rules.items ≡ self.old.rules.items ++ rule ∷ []) }
        ensures unchanged { OnErr result (self.new.rules.items ≡ self.old.rules.items) }
        ensures handed_back { IfErr result (λ r. r ≡ rule) }
    {
        match self.rules.push(rule) {
            Ok(()) => Ok(()),
            Err(refused) => Err(refused.value),
        }
    }
}

/// The first answer of the rules, in their order.
impl Offers for RuleSet {
    ghost Answers = { λ set. IsFirstAnswer (λ rule. MayAnswer (λ e. expr_of e.now) (Rewrite.post rule.rewrite)) set.rules.items };

    fn answer(&self, e: &Expr) -> Result<Option<Expr>, AllocError> {
        first_answer(&self.rules, e)
    }

    ghost right = { λ set. set_is_right (λ e. expr_of e.now) _ (λ rule. rule.right) set.rules.items };
}
