//! What the keys of a program's tables and the parameters of its actions hold.

ghost use Rattle.std.specs.Prelude.{◌≡◌, ◌≤◌, ◌++◌, map, length, take, IfOk};
ghost use Rattle.p4_tree.specs.View.{key_of, local_of, top_of};
ghost use Rattle.p4_scopes.specs.Scopes.{core};
ghost use Rattle.p4_scopes.specs.View.{scope_of};
ghost use Rattle.p4_declaration_rules.specs.Parsers.{with_ways};
ghost use Rattle.p4_declaration_rules.specs.Controls.{after_locals, after_tops};
ghost use Rattle.value_shapes.specs.Values.{is_truth, value_of, key_values, param_values, local_values, locals_values, top_values, tops_values, lists_in};

use lex_text::Name;
use p4_declaration_rules::controls::{declare_local, declare_top};
use p4_declaration_rules::parsers::way_access;
use p4_scopes::kind::{Kind, bits_in};
use p4_scopes::scope::Scope;
use p4_scopes::what::What;
use p4_tree::{Control, Expr, Local, PTy, Param, Top};
use std::alloc::{AllocError, Global};

/// What a key or a parameter holds: how many bits, and whether its type is `bool`. A truth value is
/// one bit.
#[derive(Clone, Copy, Debug, PartialEq, Eq)]
pub struct ValueShape {
    pub width: u8,
    pub is_truth: bool,
}

/// What holds values: the keys of tables, or the parameters of actions.
#[derive(Clone, Copy, Debug, PartialEq, Eq)]
pub enum Holder {
    Keys,
    Params,
}

fn is_truth(kind: Kind) -> bool
    ensures { result ≡ is_truth kind }
{
    match kind {
        Kind::Truth => true,
        Kind::Number(_) | Kind::Error | Kind::Unknown => false,
    }
}

fn value_of(kind: Kind) -> ValueShape
    ensures { result ≡ value_of kind }
{
    ValueShape {
        width: bits_in(kind),
        is_truth: is_truth(kind),
    }
}

/// What keys hold, with these names in sight.
fn key_values(
    alloc: Global,
    scope: &Scope,
    keys: &[(Expr, Name)],
) -> Result<Vec<ValueShape>, AllocError>
    ensures { IfOk result (λ v. v.items ≡ key_values (scope_of scope.now) (map key_of keys.now)) }
{
    let mut values = Vec::new(alloc);
    for k in keys {
        values.push(value_of(scope.own(&k.0)))?;
    }
    Ok(values)
}

/// What parameters hold, with these names in sight.
fn param_values(
    alloc: Global,
    scope: &Scope,
    params: &[(PTy, Name)],
) -> Result<Vec<ValueShape>, AllocError>
    ensures { IfOk result (λ v. v.items ≡ param_values (scope_of scope.now) params.now) }
{
    let mut values = Vec::new(alloc);
    for p in params {
        values.push(value_of(scope.kind_in(&p.0)))?;
    }
    Ok(values)
}

/// Adds those of the table or of the action that a declaration of a control declares, if it does.
fn add_local(
    alloc: Global,
    values: &mut Vec<Vec<ValueShape>>,
    holder: Holder,
    scope: &Scope,
    local: &Local,
) -> Result<(), AllocError>
    ensures { IfOk result (λ _. lists_in values.new.items
        ≡ lists_in values.old.items ++ local_values holder (scope_of scope.now) (local_of local.now)) }
{
    match local {
        Local::Tab(_, table) => match holder {
            Holder::Keys => {
                values.push(key_values(alloc, scope, &table.keys)?)?;
                Ok(())
            }
            Holder::Params => Ok(()),
        },
        Local::Act(_, action) => match holder {
            Holder::Params => {
                values.push(param_values(alloc, scope, &action.params)?)?;
                Ok(())
            }
            Holder::Keys => Ok(()),
        },
        Local::Reg(_, _) | Local::Const(_, _, _, _) | Local::Var(_, _, _, _) => Ok(()),
    }
}

/// Adds those of the tables or of the actions that a control declares, and puts what it declares into sight.
fn add_locals<'a>(
    alloc: Global,
    values: &mut Vec<Vec<ValueShape>>,
    holder: Holder,
    scope: &mut Scope<'a>,
    locals: &'a [Local],
) -> Result<(), AllocError>
    ensures added { IfOk result (λ _. lists_in values.new.items ≡ lists_in values.old.items
        ++ locals_values holder (scope_of scope.old) (map local_of locals.now)) }
    ensures kept { IfOk result (λ _. take (length scope.old) scope.new ≡ scope.old) }
    ensures longer { IfOk result (λ _. length scope.old ≤ length scope.new) }
{
    for local in locals {
        add_local(alloc, values, holder, scope, local)?;
        declare_local(scope, local)?;
    }
    Ok(())
}

/// Puts the parameters of a control into sight.
fn declare_ways<'a>(scope: &mut Scope<'a>, params: &'a [Param]) -> Result<(), AllocError>
    ensures declared { IfOk result (λ _. scope_of scope.new
        ≡ with_ways (scope_of scope.old) params.now) }
    ensures kept { IfOk result (λ _. take (length scope.old) scope.new ≡ scope.old) }
    ensures longer { IfOk result (λ _. length scope.old ≤ length scope.new) }
{
    for p in params {
        scope.declare(&p.name, What::Value(way_access(p.way), &p.ty))?;
    }
    Ok(())
}

/// Adds those of a control. The names in sight stay as they were.
fn add_control<'a>(
    alloc: Global,
    values: &mut Vec<Vec<ValueShape>>,
    holder: Holder,
    scope: &mut Scope<'a>,
    control: &'a Control,
) -> Result<(), AllocError>
    ensures added { IfOk result (λ _. lists_in values.new.items ≡ lists_in values.old.items
        ++ locals_values holder (with_ways (scope_of scope.old) control.now.params.items)
        (map local_of control.now.locals.items)) }
    ensures kept { IfOk result (λ _. scope.new ≡ scope.old) }
{
    let before = scope.mark();
    declare_ways(scope, &control.params)?;
    add_locals(alloc, values, holder, scope, &control.locals)?;
    scope.back(before);
    Ok(())
}

/// Adds those of a declaration at top level. The names in sight stay as they were.
fn add_top<'a>(
    alloc: Global,
    values: &mut Vec<Vec<ValueShape>>,
    holder: Holder,
    scope: &mut Scope<'a>,
    top: &'a Top,
) -> Result<(), AllocError>
    ensures added { IfOk result (λ _. lists_in values.new.items ≡ lists_in values.old.items
        ++ top_values holder (scope_of scope.old) (top_of top.now)) }
    ensures kept { IfOk result (λ _. scope.new ≡ scope.old) }
{
    match top {
        Top::Ctl(_, control) => add_control(alloc, values, holder, scope, control),
        Top::Const(_, _, _, _) | Top::Typedef(_, _, _) | Top::Header(_, _, _) => Ok(()),
        Top::Struct(_, _, _) | Top::Reg(_, _) | Top::Pars(_, _) => Ok(()),
    }
}

/// What the keys of each table, or the parameters of each action, hold, in the order of the text.
pub fn values_of(
    alloc: Global,
    holder: Holder,
    tops: &[Top],
) -> Result<Vec<Vec<ValueShape>>, AllocError>
    ensures { IfOk result (λ v. lists_in v.items ≡ tops_values holder core (map top_of tops.now)) }
{
    let mut scope = Scope::core(alloc);
    let mut values = Vec::new(alloc);
    for top in tops {
        add_top(alloc, &mut values, holder, &mut scope, top)?;
        declare_top(&mut scope, top)?;
    }
    Ok(values)
}
