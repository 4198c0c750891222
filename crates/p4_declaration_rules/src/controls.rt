//! What is tested of controls and of declarations at top level.

ghost use Rattle.std.specs.Prelude.{◌≡◌, ◌≤◌, IfOk, map, length, take};
ghost use Rattle.p4_tree.specs.View.{local_of, control_of, stmts_of, top_of};
ghost use Rattle.p4_scopes.specs.View.{scope_of};
ghost use Rattle.p4_statement_rules.specs.Ranks.{first_from};
ghost use Rattle.p4_declaration_rules.specs.Controls.{action_part, local_at, declared_tests, local_tests, after_local, locals_tests, after_locals, once_tests, in_control, control_tests, part_in, top_tests, after_top, tops_tests, after_tops, most_of_body, most_of_part, most_of_top, most_of_tops};

use crate::declarations::{
    check_action, check_const, check_header, check_register, check_struct, check_typedef,
};
use crate::digests::{most_of, most_of_table};
use crate::emits::check_emits;
use crate::parsers::{check_parser, check_ways};
use crate::tables::check_table;
use lex_text::Name;
use p4_scopes::scope::Scope;
use p4_scopes::thing::{Access, Thing};
use p4_scopes::what::What;
use p4_statement_rules::found::Found;
use p4_statement_rules::rule::{Part, ProgramRule};
use p4_statement_rules::statements::{check_block, check_var};
use p4_statement_rules::types::check_new;
use p4_tree::{Control, Local, Stmt, Top};
use std::alloc::AllocError;

/// Where the statements of an action of a control stand.
fn action_part(part: Part) -> Part
    ensures { result ≡ action_part part }
{
    match part {
        Part::Apply => Part::Action,
        Part::State | Part::Verify | Part::Action | Part::Compute => Part::Other,
        Part::Deparser | Part::Other => Part::Other,
    }
}

/// The number of the first token of a declaration of a control.
fn local_at(local: &Local) -> u32
    ensures { result ≡ local_at (local_of local.now) }
{
    match local {
        Local::Act(at, _) => *at,
        Local::Tab(at, _) => *at,
        Local::Reg(at, _) => *at,
        Local::Const(at, _, _, _) => *at,
        Local::Var(at, _, _, _) => *at,
    }
}

/// Adds the tests of a declaration of a control of such a part. The names in sight stay as they
/// were.
fn check_local<'a>(
    found: &mut Found,
    part: Part,
    scope: &mut Scope<'a>,
    local: &'a Local,
) -> Result<(), AllocError>
    ensures found { IfOk result (λ _. found.new.first
        ≡ first_from found.old.first (local_tests part (scope_of scope.old) (local_of local.now))) }
    ensures kept { IfOk result (λ _. scope.new ≡ scope.old) }
{
    found.test(
        local_at(local),
        ProgramRule::WrongPlace,
        part.has_calls_alone(),
    );
    match local {
        Local::Act(_, action) => check_action(found, action_part(part), scope, action),
        Local::Tab(_, table) => check_table(found, scope, table),
        Local::Reg(_, register) => {
            check_register(found, scope, register);
            Ok(())
        }
        Local::Const(at, t, name, e) => check_const(found, *at, scope, t, name, e),
        Local::Var(at, t, name, start) => check_var(found, *at, scope, t, name, start),
    }
}

/// Puts into sight what a declaration of a control declares.
pub fn declare_local<'a>(scope: &mut Scope<'a>, local: &'a Local) -> Result<(), AllocError>
    ensures declared { IfOk result (λ _. scope_of scope.new
        ≡ after_local (scope_of scope.old) (local_of local.now)) }
    ensures kept { IfOk result (λ _. take (length scope.old) scope.new ≡ scope.old) }
    ensures longer { IfOk result (λ _. length scope.old ≤ length scope.new) }
{
    match local {
        Local::Act(_, action) => {
            let most = most_of(scope, &action.body);
            scope.declare(&action.name, What::Action(&action.params, most))
        }
        Local::Tab(_, table) => {
            let most = most_of_table(scope, table);
            scope.declare(&table.name, What::Table(most))
        }
        Local::Reg(_, register) => scope.declare(&register.name, What::Register(&register.ty)),
        Local::Const(_, t, name, _) => scope.declare(name, What::Value(Access::Constant, t)),
        Local::Var(_, t, name, _) => scope.declare(name, What::Value(Access::Writable, t)),
    }
}

/// Adds the tests of the declarations of a control, and puts them into sight.
fn check_locals<'a>(
    found: &mut Found,
    part: Part,
    scope: &mut Scope<'a>,
    locals: &'a [Local],
) -> Result<(), AllocError>
    ensures found { IfOk result (λ _. found.new.first ≡ first_from found.old.first
        (locals_tests part (scope_of scope.old) (map local_of locals.now))) }
    ensures declared { IfOk result (λ _. scope_of scope.new
        ≡ after_locals (scope_of scope.old) (map local_of locals.now)) }
    ensures kept { IfOk result (λ _. take (length scope.old) scope.new ≡ scope.old) }
    ensures longer { IfOk result (λ _. length scope.old ≤ length scope.new) }
{
    for local in locals {
        check_local(found, part, scope, local)?;
        declare_local(scope, local)?;
    }
    Ok(())
}

/// Adds the tests of what is emitted, which a deparser does once.
fn check_once(found: &mut Found, part: Part, scope: &Scope, body: &[Stmt]) -> Result<(), AllocError>
    ensures { IfOk result (λ _. found.new.first ≡ first_from found.old.first
        (once_tests part (scope_of scope.now) (stmts_of body.now))) }
{
    match part {
        Part::Deparser => check_emits(found, scope, body),
        Part::State | Part::Verify | Part::Apply | Part::Action => Ok(()),
        Part::Compute | Part::Other => Ok(()),
    }
}

/// The most digests that the statements of such a part give.
fn most_of_part(part: Part, scope: &Scope, body: &[Stmt]) -> u32
    ensures { result ≡ most_of_body part (scope_of scope.now) (stmts_of body.now) }
{
    match part {
        Part::Apply => most_of(scope, body),
        Part::State | Part::Verify | Part::Action | Part::Compute => 0,
        Part::Deparser | Part::Other => 0,
    }
}

/// Adds the tests of a control, which is such a part, and answers the most digests that it gives.
/// The names in sight stay as they were.
fn check_control<'a>(
    found: &mut Found,
    part: Part,
    scope: &mut Scope<'a>,
    control: &'a Control,
) -> Result<u32, AllocError>
    ensures found { IfOk result (λ _. found.new.first ≡ first_from found.old.first
        (control_tests part (scope_of scope.old) (control_of control.now))) }
    ensures most { IfOk result (λ most.
        most ≡ most_of_part part (scope_of scope.old) (control_of control.now)) }
    ensures kept { IfOk result (λ _. scope.new ≡ scope.old) }
{
    check_new(found, control.at, scope, &control.name);
    let before = scope.mark();
    check_ways(found, scope, &control.params)?;
    check_locals(found, part, scope, &control.locals)?;
    check_block(found, part, scope, &control.apply)?;
    check_once(found, part, scope, &control.apply)?;
    let most = most_of_part(part, scope, &control.apply);
    scope.back(before);
    Ok(most)
}

/// The part that the control of a name is, by its place in `main`.
fn part_in(main: &[Name], name: &Name) -> Part
    ensures { result ≡ part_in main.now name.now }
{
    match main {
        [_, verify, ingress, egress, compute, deparser] => {
            let text = name.as_str();
            if verify.as_str() == text {
                Part::Verify
            } else if ingress.as_str() == text || egress.as_str() == text {
                Part::Apply
            } else if compute.as_str() == text {
                Part::Compute
            } else if deparser.as_str() == text {
                Part::Deparser
            } else {
                Part::Other
            }
        }
        [] | [_] | [_, _] | [_, _, _] | [_, _, _, _] | [_, _, _, _, _] => Part::Other,
        [_, _, _, _, _, _, _, ..] => Part::Other,
    }
}

/// Adds the tests of a declaration at top level, and answers the most digests that it gives. The
/// names in sight stay as they were.
fn check_top<'a>(
    found: &mut Found,
    main: &[Name],
    scope: &mut Scope<'a>,
    top: &'a Top,
) -> Result<u32, AllocError>
    ensures found { IfOk result (λ _. found.new.first
        ≡ first_from found.old.first (top_tests main.now (scope_of scope.old) (top_of top.now))) }
    ensures most { IfOk result (λ most.
        most ≡ most_of_top main.now (scope_of scope.old) (top_of top.now)) }
    ensures kept { IfOk result (λ _. scope.new ≡ scope.old) }
{
    match top {
        Top::Const(at, t, name, e) => check_const(found, *at, scope, t, name, e)?,
        Top::Typedef(at, t, name) => check_typedef(found, *at, scope, t, name),
        Top::Header(at, name, fields) => check_header(found, *at, scope, name, fields)?,
        Top::Struct(at, name, fields) => check_struct(found, *at, scope, name, fields)?,
        Top::Reg(_, register) => check_register(found, scope, register),
        Top::Pars(_, parser) => check_parser(found, scope, parser)?,
        Top::Ctl(_, control) => {
            return check_control(found, part_in(main, &control.name), scope, control);
        }
    }
    Ok(0)
}

/// Puts into sight what a declaration at top level declares.
pub fn declare_top<'a>(scope: &mut Scope<'a>, top: &'a Top) -> Result<(), AllocError>
    ensures { IfOk result (λ _. scope_of scope.new
        ≡ after_top (scope_of scope.old) (top_of top.now)) }
{
    match top {
        Top::Const(_, t, name, _) => scope.declare(name, What::Value(Access::Constant, t)),
        Top::Typedef(_, t, name) => scope.declare(name, What::Alias(t)),
        Top::Header(_, name, fields) => {
            let header = Thing::Header(scope.fields_bits(fields));
            scope.declare(name, What::Fields(header, fields))
        }
        Top::Struct(_, name, fields) => scope.declare(name, What::Fields(Thing::Struct, fields)),
        Top::Reg(_, register) => scope.declare(&register.name, What::Register(&register.ty)),
        Top::Pars(_, parser) => scope.declare(&parser.name, What::Part),
        Top::Ctl(_, control) => scope.declare(&control.name, What::Part),
    }
}

/// Adds the tests of declarations at top level where `main` names these parts, puts them into sight,
/// and answers the most digests that ingress and egress give, as far as 32 bits count them.
pub fn check_tops<'a>(
    found: &mut Found,
    main: &[Name],
    scope: &mut Scope<'a>,
    tops: &'a [Top],
) -> Result<u32, AllocError>
    ensures found { IfOk result (λ _. found.new.first ≡ first_from found.old.first
        (tops_tests main.now (scope_of scope.old) (map top_of tops.now))) }
    ensures most { IfOk result (λ most.
        most ≡ most_of_tops main.now (scope_of scope.old) (map top_of tops.now)) }
    ensures declared { IfOk result (λ _. scope_of scope.new
        ≡ after_tops (scope_of scope.old) (map top_of tops.now)) }
{
    let mut most: u32 = 0;
    for top in tops {
        most = most.saturating_add(check_top(found, main, scope, top)?);
        declare_top(scope, top)?;
    }
    Ok(most)
}
