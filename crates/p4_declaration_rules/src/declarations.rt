//! What is tested of declarations that stand at top level and in controls alike, and of headers and
//! structs.

ghost use Rattle.std.specs.Prelude.{◌≡◌, ◌≤◌, IfOk, OnOk, length, take};
ghost use Rattle.p4_tree.specs.View.{action_of, expr_of};
ghost use Rattle.p4_scopes.specs.View.{scope_of};
ghost use Rattle.p4_statement_rules.specs.Ranks.{first_from};
ghost use Rattle.p4_declaration_rules.specs.Declarations.{const_tests, typedef_tests, register_tests, params_tests, with_params, action_tests, is_no_number, is_no_field, fields_tests, bits_over, header_tests, struct_tests};
ghost use Rattle.p4_declaration_rules.specs.Loops.{misfit_of};

use crate::names::has_field_twice;
use lex_text::Name;
use p4_scopes::kind::{Kind, width_in};
use p4_scopes::scope::Scope;
use p4_scopes::thing::{Access, Thing};
use p4_scopes::what::What;
use p4_statement_rules::expressions::check_constant;
use p4_statement_rules::found::Found;
use p4_statement_rules::rule::{Part, ProgramRule};
use p4_statement_rules::statements::check_block;
use p4_statement_rules::types::{check_new, check_scalar, check_type};
use p4_tree::{Action, Expr, PTy, Register};
use std::alloc::AllocError;

/// Adds the tests of a constant.
pub(crate) fn check_const(
    found: &mut Found,
    at: u32,
    scope: &Scope,
    t: &PTy,
    name: &Name,
    e: &Expr,
) -> Result<(), AllocError>
    ensures { IfOk result (λ _. found.new.first
        ≡ first_from found.old.first
        (const_tests at (scope_of scope.now) t.now name.now (expr_of e.now))) }
{
    check_new(found, at, scope, name);
    check_scalar(found, at, scope, t);
    check_constant(found, scope, scope.kind_in(t), e)
}

/// Adds the tests of another name of a type.
pub(crate) fn check_typedef(found: &mut Found, at: u32, scope: &Scope, t: &PTy, name: &Name)
    ensures { found.new.first
        ≡ first_from found.old.first (typedef_tests at (scope_of scope.now) t.now name.now) }
{
    check_new(found, at, scope, name);
    check_scalar(found, at, scope, t);
}

/// Adds the tests of a register.
pub(crate) fn check_register(found: &mut Found, scope: &Scope, register: &Register)
    ensures { found.new.first
        ≡ first_from found.old.first (register_tests (scope_of scope.now) register.now) }
{
    check_new(found, register.at, scope, &register.name);
    check_scalar(found, register.at, scope, &register.ty);
    let bad = register.count == 0 || register.count > 4_194_304;
    found.test(register.at, ProgramRule::BadSize, bad);
}

/// Adds the tests of the parameters of an action, and puts them into sight.
fn check_params<'a>(
    found: &mut Found,
    at: u32,
    scope: &mut Scope<'a>,
    params: &'a [(PTy, Name)],
) -> Result<(), AllocError>
    ensures found { IfOk result (λ _. found.new.first
        ≡ first_from found.old.first (params_tests at (scope_of scope.old) params.now)) }
    ensures declared { IfOk result (λ _. scope_of scope.new
        ≡ with_params (scope_of scope.old) params.now) }
    ensures kept { IfOk result (λ _. take (length scope.old) scope.new ≡ scope.old) }
{
    for p in params {
        check_new(found, at, scope, &p.1);
        check_scalar(found, at, scope, &p.0);
        scope.declare(&p.1, What::Value(Access::Fixed, &p.0))?;
    }
    Ok(())
}

/// Adds the tests of an action, whose statements stand in such a part. The names in sight stay as
/// they were.
pub(crate) fn check_action<'a>(
    found: &mut Found,
    part: Part,
    scope: &mut Scope<'a>,
    action: &'a Action,
) -> Result<(), AllocError>
    ensures found { IfOk result (λ _. found.new.first
        ≡ first_from found.old.first
        (action_tests part (scope_of scope.old) (action_of action.now))) }
    ensures kept { IfOk result (λ _. scope.new ≡ scope.old) }
{
    check_new(found, action.at, scope, &action.name);
    let before = scope.mark();
    check_params(found, action.at, scope, &action.params)?;
    check_block(found, part, scope, &action.body)?;
    scope.back(before);
    Ok(())
}

/// What a field has to be.
#[derive(Clone, Copy, PartialEq, Eq)]
enum Wanted {
    Number,
    /// A single value or a header.
    Field,
}

fn is_no_number(thing: Thing) -> bool
    ensures { result ≡ is_no_number thing }
{
    match thing {
        Thing::Scalar(Kind::Number(_)) | Thing::Scalar(Kind::Unknown) => false,
        Thing::Scalar(Kind::Truth) | Thing::Scalar(Kind::Error) => true,
        Thing::Header(_) | Thing::Struct | Thing::Standard => true,
        Thing::PacketIn | Thing::PacketOut => true,
    }
}

fn is_no_field(thing: Thing) -> bool
    ensures { result ≡ is_no_field thing }
{
    !thing.is_scalar() && !thing.is_header()
}

impl Wanted {
    /// Whether a field is of another kind.
    fn misfits(self, thing: Thing) -> bool
        ensures { result ≡ misfit_of self thing }
    {
        match self {
            Wanted::Number => is_no_number(thing),
            Wanted::Field => is_no_field(thing),
        }
    }
}

/// Adds the tests of fields.
fn check_fields(found: &mut Found, at: u32, wanted: Wanted, scope: &Scope, fields: &[(PTy, Name)])
    ensures { found.new.first
        ≡ first_from found.old.first
        (fields_tests at (misfit_of wanted) (scope_of scope.now) fields.now) }
{
    for field in fields {
        check_type(found, at, scope, &field.0);
        let misfits = wanted.misfits(scope.thing_in(&field.0));
        found.test(at, ProgramRule::KindDiffers, misfits);
    }
}

/// The bits of the fields of a header, over what fills bytes.
#[tactic(auto, using(crate::proofs::Sizes::bits_next))]
fn bits_over(scope: &Scope, fields: &[(PTy, Name)]) -> u16
    ensures { result ≡ bits_over (scope_of scope.now) fields.now }
{
    let mut bits = 0;
    for field in fields {
        bits = (bits + u16::from(width_in(scope.kind_in(&field.0)))) % 8;
    }
    bits
}

/// Adds the tests of a header.
pub(crate) fn check_header(
    found: &mut Found,
    at: u32,
    scope: &Scope,
    name: &Name,
    fields: &[(PTy, Name)],
) -> Result<(), AllocError>
    ensures { IfOk result (λ _. found.new.first
        ≡ first_from found.old.first
        (header_tests at (scope_of scope.now) name.now fields.now)) }
{
    check_new(found, at, scope, name);
    let twice = has_field_twice(found.alloc(), fields)?;
    found.test(at, ProgramRule::NameTwice, twice);
    check_fields(found, at, Wanted::Number, scope, fields);
    found.test(at, ProgramRule::BadSize, bits_over(scope, fields) != 0);
    Ok(())
}

/// Adds the tests of a struct.
pub(crate) fn check_struct(
    found: &mut Found,
    at: u32,
    scope: &Scope,
    name: &Name,
    fields: &[(PTy, Name)],
) -> Result<(), AllocError>
    ensures { IfOk result (λ _. found.new.first
        ≡ first_from found.old.first
        (struct_tests at (scope_of scope.now) name.now fields.now)) }
{
    check_new(found, at, scope, name);
    let twice = has_field_twice(found.alloc(), fields)?;
    found.test(at, ProgramRule::NameTwice, twice);
    check_fields(found, at, Wanted::Field, scope, fields);
    Ok(())
}
