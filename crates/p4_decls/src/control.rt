//! Reading actions and controls.

ghost use Rattle.std.specs.Prelude.{◌≤◌, length, map, []};
ghost use Rattle.std.specs.Option.{option_map};
ghost use Rattle.lex_words.specs.Moving.{Moves, Stays};
ghost use Rattle.p4_tree.specs.View.{action_of, control_of, local_of};
ghost use Rattle.p4_decls.specs.Controls.{action_at, behind_name_at, control_at, local_at, locals_at, variable_at, variable_or_apply_at};

use crate::decl::{Arguments, parameters, register};
use crate::items::some;
use crate::table::table;
use lex_text::Name;
use lex_words::{Cursor, Halt, Key};
use p4_expressions::scalar;
use p4_reader::{block, constant, variable_behind};
use p4_tree::{Action, Control, Local, PTy};
use std::alloc::Global;

/// An action.
#[tactic(auto, unfolding(crate::specs::Controls::action_at), using(crate::proofs::Lists::same_maps))]
fn action(alloc: Global, tokens: &mut Cursor) -> Result<Action, Halt>
    ensures { Moves action_of (λ ws n. action_at ws n 256 253) tokens.old result tokens.new }
{
    let at = tokens.at();
    tokens.expect(Key::Action)?;
    let name = tokens.name(alloc)?;
    tokens.expect(Key::Open)?;
    let params = some::<Arguments>(alloc, tokens)?;
    tokens.expect(Key::Close)?;
    let body = block(alloc, tokens, 251)?;
    Ok(Action {
        at,
        name,
        params,
        body,
    })
}

/// The rest of a variable behind its type, which begins at `start`.
#[tactic(auto, unfolding(crate::specs::Controls::variable_at))]
fn variable(alloc: Global, tokens: &mut Cursor, start: u32, ty: PTy) -> Result<Local, Halt>
    ensures { Moves local_of (λ ws n. variable_at ws n 256 253 start ty) tokens.old result tokens.new }
{
    let found = variable_behind(alloc, tokens, ty, 253)?;
    Ok(Local::Var(start, found.ty, found.name, found.start))
}

/// A variable behind the name of its type, which begins at `start`; or none behind `apply`.
#[tactic(auto, unfolding(crate::specs::Controls::behind_name_at))]
fn behind_name(
    alloc: Global,
    tokens: &mut Cursor,
    start: u32,
    name: Name,
) -> Result<Option<Local>, Halt>
    requires inside { tokens.old.at ≤ length tokens.old.lexemes }
    ensures { Stays (λ x. option_map local_of x) (λ ws n. behind_name_at ws n 256 253 start name) tokens.old result tokens.new }
{
    if name.as_str() == "apply" {
        Ok(None)
    } else {
        Ok(Some(variable(alloc, tokens, start, PTy::Named(name))?))
    }
}

/// A variable, or none behind `apply`.
#[tactic(auto, unfolding(crate::specs::Controls::variable_or_apply_at))]
fn variable_or_apply(alloc: Global, tokens: &mut Cursor) -> Result<Option<Local>, Halt>
    ensures { Moves (λ x. option_map local_of x) (λ ws n. variable_or_apply_at ws n 256 253) tokens.old result tokens.new }
{
    let at = tokens.at();
    if tokens.has_name() {
        let name = tokens.name(alloc)?;
        behind_name(alloc, tokens, at, name)
    } else {
        let ty = scalar(tokens)?;
        Ok(Some(variable(alloc, tokens, at, ty)?))
    }
}

/// A declaration inside a control, or none behind `apply`.
#[tactic(auto, unfolding(crate::specs::Controls::local_at))]
fn local(alloc: Global, tokens: &mut Cursor) -> Result<Option<Local>, Halt>
    ensures { Moves (λ x. option_map local_of x) (λ ws n. local_at ws n 256 253) tokens.old result tokens.new }
{
    let at = tokens.at();
    if tokens.is(Key::Action) {
        Ok(Some(Local::Act(at, action(alloc, tokens)?)))
    } else if tokens.is(Key::Table) {
        Ok(Some(Local::Tab(at, table(alloc, tokens)?)))
    } else if tokens.is(Key::Register) {
        Ok(Some(Local::Reg(at, register(alloc, tokens)?)))
    } else if tokens.is(Key::Const) {
        let found = constant(alloc, tokens, 253)?;
        Ok(Some(Local::Const(at, found.ty, found.name, found.value)))
    } else {
        variable_or_apply(alloc, tokens)
    }
}

/// The declarations inside a control, up to `apply` and with it.
fn locals(alloc: Global, tokens: &mut Cursor) -> Result<Vec<Local>, Halt>
    requires { tokens.old.at ≤ length tokens.old.lexemes }
    ensures { Stays (λ x. map local_of x.items) (λ ws n. locals_at ws n 256 253 n []) tokens.old result tokens.new }
{
    let mut locals = Vec::new(alloc);
    'items: while let Some(found) = local(alloc, tokens)? {
        locals.push(found)?;
    }
    Ok(locals)
}

/// A control.
#[tactic(auto, unfolding(crate::specs::Controls::control_at), using(crate::proofs::Lists::same_maps))]
pub fn control(alloc: Global, tokens: &mut Cursor) -> Result<Control, Halt>
    ensures { Moves control_of (λ ws n. control_at ws n 256 253) tokens.old result tokens.new }
{
    let at = tokens.at();
    tokens.expect(Key::Control)?;
    let name = tokens.name(alloc)?;
    tokens.expect(Key::Open)?;
    let params = parameters(alloc, tokens)?;
    tokens.expect(Key::Close)?;
    tokens.expect(Key::BraceOpen)?;
    let locals = locals(alloc, tokens)?;
    let apply = block(alloc, tokens, 253)?;
    tokens.expect(Key::BraceClose)?;
    Ok(Control {
        at,
        name,
        params,
        locals,
        apply,
    })
}
