//! The table of a control variable, and its first action.

ghost use Rattle.std.specs.Prelude.{◌≡◌, ◌∷◌, [], map, IfOk};
ghost use Rattle.indus_tree.specs.State as state;
ghost use Rattle.indus_tree.specs.View.{decl_of, shape_of};
ghost use Rattle.p4_tree.specs.View.{expr_of, key_of, stmt_of, stmts_of, default_of as default_seen, table_of as table_seen, action_of as action_seen};
ghost use Rattle.lookup_names.specs.Keys.{key_types, variable};
ghost use Rattle.control_tables.specs.Tables as tables;
ghost use Rattle.control_tables.specs.Views.{pair_of};

use indus_tree::{Decl, Shape, Ty};
use lex_text::{Literal, Name};
use lookup_names::{action_name, found_name, key_name, table_name};
use p4_tree::{Action, Expr, PTy, Stmt, Table};
use std::alloc::{AllocError, Global};

/// The generated tables of a program: of each its control, its name, and the number of the control
/// variable that it belongs to.
#[derive(Debug, Drop)]
pub struct ControlMap {
    pub tables: Vec<(Name, Name, u32)>,
}

// ---- expressions

fn type_width(ty: Ty) -> u8
    ensures { result ≡ state.width_of ty }
{
    match ty {
        Ty::Bit(width) => width,
        Ty::Bool => 1,
    }
}

/// The bits of one value of what has a shape.
pub fn value_width(shape: &Shape) -> u8
    ensures { result ≡ state.shape_width (shape_of shape.now) }
{
    match shape {
        Shape::One(ty) | Shape::List(ty, _) | Shape::DictOf(_, ty) => type_width(*ty),
        Shape::SetOf(_) => 1,
    }
}

fn number(width: u8, value: u128) -> Expr
    ensures { expr_of result ≡ tables.number width value }
{
    Expr::Num(0, Literal { width, value })
}

fn variable(alloc: Global, name: Name) -> Result<Expr, AllocError>
    ensures { IfOk result (λ e. expr_of e ≡ variable name) }
{
    let mut names = Vec::new(alloc);
    names.push(name)?;
    Ok(Expr::Path(0, names))
}

// ---- the table

fn key_at(alloc: Global, number: u32, part: usize) -> Result<(Expr, Name), AllocError>
    ensures { IfOk result (λ k. key_of k ≡ tables.key_at number part) }
{
    let name = key_name(alloc, number, part)?;
    let value = variable(alloc, name)?;
    let kind = Name::new(alloc, "exact")?;
    Ok((value, kind))
}

fn keys_of(alloc: Global, number: u32, types: &[Ty]) -> Result<Vec<(Expr, Name)>, AllocError>
    ensures { IfOk result (λ v. map key_of v.items ≡ tables.keys_from number 0 types.now) }
{
    let mut keys = Vec::new(alloc);
    for part in 0..types.len() {
        keys.push(key_at(alloc, number, part)?)?;
    }
    Ok(keys)
}

fn keys_for(alloc: Global, number: u32, shape: &Shape) -> Result<Vec<(Expr, Name)>, AllocError>
    ensures { IfOk result (λ v. map key_of v.items
        ≡ tables.keys_from number 0 (key_types (shape_of shape.now))) }
{
    match shape {
        Shape::One(_) | Shape::List(_, _) => Ok(Vec::new(alloc)),
        Shape::SetOf(types) | Shape::DictOf(types, _) => keys_of(alloc, number, types),
    }
}

/// Whether some keys find nothing, so that the table has a miss.
fn has_miss(shape: &Shape) -> bool
    ensures { result ≡ tables.has_miss (shape_of shape.now) }
{
    match shape {
        Shape::One(_) | Shape::List(_, _) => false,
        Shape::SetOf(_) | Shape::DictOf(_, _) => true,
    }
}

fn actions_for(alloc: Global, number: u32, shape: &Shape) -> Result<Vec<Name>, AllocError>
    ensures { IfOk result (λ v. v.items ≡ tables.actions_of number (shape_of shape.now)) }
{
    let mut actions = Vec::new(alloc);
    actions.push(action_name(alloc, number)?)?;
    if has_miss(shape) {
        actions.push(Name::new(alloc, "NoAction")?)?;
    }
    Ok(actions)
}

fn default_for(
    alloc: Global,
    number_of: u32,
    shape: &Shape,
) -> Result<(Name, Vec<Expr>), AllocError>
    ensures { IfOk result (λ d. default_seen d ≡ tables.default_of number_of (shape_of shape.now)) }
{
    let mut args = Vec::new(alloc);
    if has_miss(shape) {
        return Ok((Name::new(alloc, "NoAction")?, args));
    }
    args.push(number(value_width(shape), 0))?;
    Ok((action_name(alloc, number_of)?, args))
}

fn table(alloc: Global, number: u32, shape: &Shape) -> Result<Table, AllocError>
    ensures { IfOk result (λ t. table_seen t ≡ tables.table_of number (shape_of shape.now)) }
{
    let name = table_name(alloc, number)?;
    let keys = keys_for(alloc, number, shape)?;
    let actions = actions_for(alloc, number, shape)?;
    let default = default_for(alloc, number, shape)?;
    Ok(Table {
        at: 0,
        name,
        keys,
        actions,
        default: Some(default),
        fixed: false,
        size: None,
    })
}

// ---- the first action

fn params_for(alloc: Global, shape: &Shape) -> Result<Vec<(PTy, Name)>, AllocError>
    ensures { IfOk result (λ v. v.items ≡ tables.params_of (shape_of shape.now)) }
{
    let mut params = Vec::new(alloc);
    if let Shape::SetOf(_) = shape {
        return Ok(params);
    }
    params.push((
        PTy::Bit(value_width(shape)),
        Name::new(alloc, "hydra_value")?,
    ))?;
    Ok(params)
}

fn given_by(alloc: Global, shape: &Shape) -> Result<Expr, AllocError>
    ensures { IfOk result (λ e. expr_of e ≡ tables.given_by (shape_of shape.now)) }
{
    if let Shape::SetOf(_) = shape {
        return Ok(number(1, 1));
    }
    variable(alloc, Name::new(alloc, "hydra_value")?)
}

fn body_for(alloc: Global, number: u32, shape: &Shape) -> Result<Vec<Stmt>, AllocError>
    ensures { IfOk result (λ v. stmts_of v.items ≡ tables.body_of number (shape_of shape.now)) }
{
    let mut target = Vec::new(alloc);
    target.push(found_name(alloc, number)?)?;
    let value = given_by(alloc, shape)?;
    let mut body = Vec::new(alloc);
    body.push(Stmt::Assign(0, target, value))?;
    Ok(body)
}

fn action(alloc: Global, number: u32, shape: &Shape) -> Result<Action, AllocError>
    ensures { IfOk result (λ a. action_seen a ≡ tables.action_of number (shape_of shape.now)) }
{
    let name = action_name(alloc, number)?;
    let params = params_for(alloc, shape)?;
    let body = body_for(alloc, number, shape)?;
    Ok(Action {
        at: 0,
        name,
        params,
        body,
    })
}

/// The table of the lookup of a number of a control variable, and the table's first action.
pub fn table_for(alloc: Global, d: &Decl, number: u32) -> Result<(Table, Action), AllocError>
    ensures { IfOk result (λ p. pair_of p
        ≡ (tables.table_of number (decl_of d.now).shape, tables.action_of number (decl_of d.now).shape)) }
{
    let table = table(alloc, number, &d.shape)?;
    let action = action(alloc, number, &d.shape)?;
    Ok((table, action))
}
