//! What calls are for.

ghost use Rattle.std.specs.Prelude.{◌≡◌};
ghost use Rattle.std.specs.Option.{option_map};
ghost use Rattle.p4_tree.specs.View.{expr_of};
ghost use Rattle.p4_scopes.specs.View.{scope_of, stands_of};
ghost use Rattle.p4_statement_rules.specs.Forms.{function_form, plain_form, cell_form, thing_form, verb_form, form_of, path_in};
ghost use Rattle.p4_statement_rules.specs.View.{form_view};

use lex_text::Name;
use p4_scopes::kind::Kind;
use p4_scopes::scope::Scope;
use p4_scopes::stands::Stands;
use p4_scopes::thing::{Function, Thing};
use p4_tree::Expr;

/// What a call is for, by what stands at its path.
#[derive(Clone, Copy)]
pub enum Form<'s> {
    /// Nothing stands there.
    Unknown,
    /// What stands there has no such call.
    Ill,
    Drops,
    Digests,
    /// A checksum is verified, or else updated.
    Sums(bool),
    Extracts,
    Emits,
    Applies,
    ReadsCell(Kind),
    WritesCell(Kind),
    MakesValid,
    /// An action, by what it takes.
    Acts(&'s [Kind]),
}

fn function_form(f: Function) -> Form<'static>
    ensures { form_view result ≡ function_form f }
{
    match f {
        Function::MarkToDrop => Form::Drops,
        Function::Digest => Form::Digests,
        Function::VerifyChecksum => Form::Sums(true),
        Function::UpdateChecksum => Form::Sums(false),
    }
}

/// A call by one name.
fn plain_form<'s>(stands: Stands<'s>) -> Form<'s>
    ensures { form_view result ≡ plain_form (stands_of stands.entry) }
{
    match stands {
        Stands::Missing => Form::Unknown,
        Stands::Function(f) => function_form(f),
        Stands::Act(kinds, _) => Form::Acts(kinds),
        _ => Form::Ill,
    }
}

fn cell_form<'s>(kind: Kind, verb: &str) -> Form<'s>
    ensures { form_view result ≡ cell_form kind verb.now }
{
    if verb == "read" {
        Form::ReadsCell(kind)
    } else if verb == "write" {
        Form::WritesCell(kind)
    } else {
        Form::Ill
    }
}

fn thing_form<'s>(thing: Thing, verb: &str) -> Form<'s>
    ensures { form_view result ≡ thing_form thing verb.now }
{
    match thing {
        Thing::Header(_) if verb == "setValid" || verb == "setInvalid" => Form::MakesValid,
        Thing::PacketIn if verb == "extract" => Form::Extracts,
        Thing::PacketOut if verb == "emit" => Form::Emits,
        _ => Form::Ill,
    }
}

/// A call on what stands at the names before the last one.
fn verb_form<'s>(stands: Stands<'s>, verb: &str) -> Form<'s>
    ensures { form_view result ≡ verb_form (stands_of stands.entry) verb.now }
{
    match stands {
        Stands::Missing => Form::Unknown,
        Stands::Rows(_) if verb == "apply" => Form::Applies,
        Stands::Cells(kind) => cell_form(kind, verb),
        Stands::Held(_, thing) => thing_form(thing, verb),
        _ => Form::Ill,
    }
}

/// What a call by this path is for.
pub fn form_of<'s>(scope: &'s Scope, path: &[Name]) -> Form<'s>
    ensures { form_view result ≡ form_of (scope_of scope.now) path.now }
{
    match path.split_last() {
        None => Form::Ill,
        Some((_, [])) => plain_form(scope.find(path)),
        Some((verb, front)) => verb_form(scope.find(front), verb.as_str()),
    }
}

/// The place and the names of an expression that is a path.
pub fn path_in(e: &Expr) -> Option<(u32, &[Name])>
    ensures { option_map (λ x. (x.0, x.1.now)) result ≡ path_in (expr_of e.now) }
{
    match e {
        Expr::Path(at, names) => Some((*at, names)),
        Expr::Num(_, _) | Expr::Flag(_, _) | Expr::Valid(_, _) | Expr::Applied(_, _, _) => None,
        Expr::ErrorName(_, _) | Expr::Not(_, _) | Expr::Invert(_, _) | Expr::Negate(_, _) => None,
        Expr::Bin(_, _, _, _) | Expr::Choice(_, _, _, _) => None,
        Expr::Slice(_, _, _, _) | Expr::Cast(_, _, _) => None,
    }
}
