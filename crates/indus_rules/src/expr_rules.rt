//! The first rule that is broken at an expression, but for its parts.

ghost use Rattle.std.specs.Prelude.{◌≡◌};
ghost use Rattle.indus_tree.specs.View.{expr_of};
ghost use Rattle.indus_scopes.specs.Scopes.{own};
ghost use Rattle.indus_scopes.specs.Sights.{scope_of};
ghost use Rattle.indus_rules.specs.Sites.{at_expr};
ghost use Rattle.indus_rules.specs.Rules.{is_init, number_width, too_wide, bad_bits, cites_missing, ill_used, hop_in_init, ill_sized, rule_at, expr_place};

use crate::rule::Rule;
use indus_scopes::kind::{Kind, kinds_differ, width_in, widths_differ};
use indus_scopes::scope::Block;
use indus_scopes::sight::Scope;
use indus_scopes::uses::{counts, indexed, is_hop, is_missing, may_hold, reads};
use indus_tree::Expr;
use lex_text::Literal;

fn is_init(b: Block) -> bool
    ensures { result ≡ is_init b }
{
    match b {
        Block::Init => true,
        _ => false,
    }
}

fn number_width(n: Literal, want: Kind) -> u8
    ensures { result ≡ number_width n want }
{
    if n.width == 0 {
        width_in(want)
    } else {
        n.width
    }
}

/// A width that no number has.
pub fn bad_bits(width: u8) -> bool
    ensures { result ≡ bad_bits width }
{
    width == 0 || width > 128
}

/// Whether a number does not fit its width, where it has one.
fn too_wide(width: u8, value: u128) -> bool
    ensures { result ≡ too_wide width value }
{
    if width == 0 || width == 128 {
        false
    } else if width > 128 {
        true
    } else {
        !(value < (1u128 << width))
    }
}

fn cites_missing(scope: &Scope, e: &Expr) -> bool
    ensures { result ≡ cites_missing (scope_of scope.now) (expr_of e.now) }
{
    match e {
        Expr::Read(_, x) => is_missing(&scope.role(x)),
        Expr::Length(_, x) => is_missing(&scope.role(x)),
        Expr::Index(_, x, _) => is_missing(&scope.role(x)),
        Expr::Member(_, _, x) => is_missing(&scope.role(x)),
        _ => false,
    }
}

fn ill_used(scope: &Scope, want: Kind, e: &Expr) -> bool
    ensures { result ≡ ill_used (scope_of scope.now) want (expr_of e.now) }
{
    match e {
        Expr::Num(_, n) => number_width(*n, want) == 0,
        Expr::Read(_, x) => !reads(&scope.role(x)),
        Expr::Length(_, x) => !counts(&scope.role(x)),
        Expr::Index(_, x, keys) => !indexed(&scope.role(x), keys),
        Expr::Member(_, keys, x) => !may_hold(&scope.role(x), keys),
        _ => false,
    }
}

fn hop_in_init(scope: &Scope, e: &Expr) -> bool
    ensures { result ≡ hop_in_init (scope_of scope.now) (expr_of e.now) }
{
    match e {
        Expr::Read(_, x) => is_hop(&scope.role(x)) && is_init(scope.block),
        _ => false,
    }
}

fn ill_sized(want: Kind, e: &Expr) -> bool
    ensures { result ≡ ill_sized want (expr_of e.now) }
{
    match e {
        Expr::Num(_, n) => too_wide(number_width(*n, want), n.value),
        Expr::Cast(_, v, _) => bad_bits(*v),
        _ => false,
    }
}

/// The first rule that is broken at an expression that is of this kind of its own, and of whose place
/// `want` is wanted.
pub fn rule_of_expr(scope: &Scope, kind: Kind, want: Kind, e: &Expr) -> Option<Rule>
    requires { kind ≡ own (scope_of scope.now) (expr_of e.now) }
    ensures { result ≡ rule_at (at_expr (scope_of scope.now) want (expr_of e.now)) }
{
    if cites_missing(scope, e) {
        Some(Rule::NoSuchName)
    } else if widths_differ(kind, want) {
        Some(Rule::WidthDiffers)
    } else if kinds_differ(kind, want) || ill_used(scope, want, e) {
        Some(Rule::KindDiffers)
    } else if hop_in_init(scope, e) {
        Some(Rule::WrongBlock)
    } else if ill_sized(want, e) {
        Some(Rule::BadSize)
    } else {
        None
    }
}

/// The number of an expression's first token.
pub fn place_of_expr(e: &Expr) -> u32
    ensures { result ≡ expr_place (expr_of e.now) }
{
    match e {
        Expr::Num(at, _) => *at,
        Expr::Flag(at, _) => *at,
        Expr::Read(at, _) => *at,
        Expr::Length(at, _) => *at,
        Expr::Index(at, _, _) => *at,
        Expr::Member(at, _, _) => *at,
        Expr::Not(at, _) => *at,
        Expr::Invert(at, _) => *at,
        Expr::Bin(at, _, _, _) => *at,
        Expr::Cast(at, _, _) => *at,
    }
}
