//! The statements that read.

ghost use Rattle.std.specs.Prelude.{◌≡◌, ◌∷◌, [], codes, Some, IfOk};
ghost use Rattle.indus_tree.specs.Start.{start_word};
ghost use Rattle.indus_tree.specs.State as state;
ghost use Rattle.indus_tree.specs.View.{decl_of, expr_of as indus_expr, exprs_of as indus_exprs, shape_of};
ghost use Rattle.p4_tree.specs.Tree as p4;
ghost use Rattle.p4_tree.specs.declared.statement.Op.TheVariants as p4o;
ghost use Rattle.p4_tree.specs.View.{expr_of, stmt_of, stmts_of};
ghost use Rattle.monitor_laws.specs.Trees.{only_if};
ghost use Rattle.monitor_laws.specs.Trees as trees;
ghost use Rattle.lookup_names.specs.Keys as keys;
ghost use Rattle.lookup_names.specs.Names as names;
ghost use Rattle.lowered_code.specs.Expressions.{lowered as p4_lowered, read_decl, to_bits as p4_to_bits};
ghost use Rattle.lowered_code.specs.Reads as code;
ghost use Rattle.lower_code.specs.View.{environment_of};
ghost use Rattle.lower_reads.specs.View.{declared, lent};

use crate::expressions::{Place, as_index, lowered, to_bits};
use crate::tree::{assign, before, binary, call_two, number, only_if, two_names, variable};
use crate::types::key_types;
use bit_values::{Bits, sound_width, truth};
use control_tables::value_width;
use indus_tree::{Decl, DeclKind, Expr, Shape, Ty};
use lex_text::Name;
use lookup_names::{found_name, key_name, table_name};
use lower_reads::{number_at, read_decl};
use p4_tree::{Expr as P4Expr, Op, Stmt};
use std::alloc::{AllocError, Global};

/// 0 stands in the variable of a read.
fn clear(alloc: Global, read: u32, width: u8) -> Result<Stmt, AllocError>
    ensures { IfOk result (λ s. stmt_of s ≡ code.clear read width) }
{
    assign(alloc, found_name(alloc, read)?, number(width, 0))
}

/// The number that a written initial value is in a width.
fn written(e: &Expr, width: u8) -> u128
    ensures { result ≡ (start_word (Some (indus_expr e.now)) width).value }
{
    let wide = sound_width(width);
    match e {
        Expr::Num(_, n) => Bits::new(128, n.value).cast(wide).value,
        Expr::Flag(_, value) => truth(*value).cast(wide).value,
        Expr::Read(_, _) | Expr::Length(_, _) | Expr::Index(_, _, _) => 0,
        Expr::Member(_, _, _) | Expr::Not(_, _) | Expr::Invert(_, _) => 0,
        Expr::Bin(_, _, _, _) | Expr::Cast(_, _, _) => 0,
    }
}

/// The number that a sensor begins with.
pub(crate) fn start_of(d: &Decl) -> u128
    ensures { result ≡ code.start_of (decl_of d.now) }
{
    match &d.start {
        Some(e) => written(e, value_width(&d.shape)),
        None => 0,
    }
}

/// A value xor the initial one, which is not written where it is 0.
pub(crate) fn turned(alloc: Global, d: &Decl, value: P4Expr) -> Result<P4Expr, AllocError>
    ensures { IfOk result (λ e. expr_of e
        ≡ code.turned (code.start_of (decl_of d.now)) (state.shape_width (decl_of d.now).shape) (expr_of value)) }
{
    let start = start_of(d);
    if start == 0 {
        return Ok(value);
    }
    binary(
        alloc,
        Op::BitXor,
        value,
        number(value_width(&d.shape), start),
    )
}

/// What a cell held, in the variable of a read, becomes the sensor's value.
fn turn(alloc: Global, read: u32, d: &Decl) -> Result<Vec<Stmt>, AllocError>
    ensures { IfOk result (λ v. stmts_of v.items
        ≡ code.turn read (state.shape_width (decl_of d.now).shape) (code.start_of (decl_of d.now))) }
{
    let mut out = Vec::new(alloc);
    if start_of(d) == 0 {
        return Ok(out);
    }
    let held = variable(alloc, found_name(alloc, read)?)?;
    let value = turned(alloc, d, held)?;
    out.push(assign(alloc, found_name(alloc, read)?, value)?)?;
    Ok(out)
}

/// A cell of a sensor stands in the variable of a read.
fn take_sensor(alloc: Global, read: u32, d: &Decl, index: P4Expr) -> Result<Vec<Stmt>, AllocError>
    ensures { IfOk result (λ v. stmts_of v.items ≡ code.take_sensor read (decl_of d.now) (expr_of index)) }
{
    let register = Name::joined(alloc, "hydra_s_", d.name.as_str())?;
    let target = variable(alloc, found_name(alloc, read)?)?;
    let take = call_two(alloc, register, "read", target, index)?;
    before(alloc, take, turn(alloc, read, d)?)
}

/// A cell of an array is read where the index is below its size, and elsewhere there is 0.
fn read_array(
    alloc: Global,
    place: &Place<'_>,
    read: u32,
    d: &Decl,
    size: u8,
    key: &[Expr],
) -> Result<Vec<Stmt>, AllocError>
    ensures { IfOk result (λ v. stmts_of v.items
        ≡ code.read_array (environment_of place.now.roots.now) (declared place.now.decls.now) place.now.base (lent place.now.reads.now) read (decl_of d.now) size (indus_exprs key.now)) }
{
    let mut out = Vec::new(alloc);
    if let [index, _rest @ ..] = key {
        out.push(clear(alloc, read, value_width(&d.shape))?)?;
        let value = as_index(alloc, index, lowered(alloc, place, index)?)?;
        out.push(assign(alloc, key_name(alloc, read, 0)?, value)?)?;
        out.push(guarded(alloc, read, d, size)?)?;
    }
    Ok(out)
}

/// The read of a cell, where its index is below the array's size.
fn guarded(alloc: Global, read: u32, d: &Decl, size: u8) -> Result<Stmt, AllocError>
    ensures { IfOk result (λ s. stmt_of s
        ≡ only_if (p4.binary 0 p4o.Less (keys.variable (names.key_name read 0)) (trees.number 128 size)) (code.take_sensor read (decl_of d.now) (keys.variable (names.key_name read 0)))) }
{
    let index = variable(alloc, key_name(alloc, read, 0)?)?;
    let test = binary(alloc, Op::Less, index, number(128, u128::from(size)))?;
    let index = variable(alloc, key_name(alloc, read, 0)?)?;
    only_if(alloc, test, take_sensor(alloc, read, d, index)?)
}

/// A sensor is read.
fn read_sensor(
    alloc: Global,
    place: &Place<'_>,
    read: u32,
    d: &Decl,
    key: &[Expr],
) -> Result<Vec<Stmt>, AllocError>
    ensures { IfOk result (λ v. stmts_of v.items
        ≡ code.read_sensor (environment_of place.now.roots.now) (declared place.now.decls.now) place.now.base (lent place.now.reads.now) read (decl_of d.now) (decl_of d.now).shape (indus_exprs key.now)) }
{
    match &d.shape {
        Shape::One(_) => take_sensor(alloc, read, d, number(1, 0)),
        Shape::List(_, size) => read_array(alloc, place, read, d, *size, key),
        Shape::SetOf(_) | Shape::DictOf(_, _) => Ok(Vec::new(alloc)),
    }
}

/// A part of a key stands in its variable.
fn key_stmt(
    alloc: Global,
    place: &Place<'_>,
    read: u32,
    part: usize,
    ty: Ty,
    e: &Expr,
) -> Result<Stmt, AllocError>
    ensures { IfOk result (λ s. stmt_of s ≡ p4.assign 0 (names.key_name read part ∷ []) (p4_to_bits ty
        (p4_lowered (environment_of place.now.roots.now) (declared place.now.decls.now) place.now.base (lent place.now.reads.now) (indus_expr e.now)))) }
{
    let value = to_bits(alloc, ty, lowered(alloc, place, e)?)?;
    assign(alloc, key_name(alloc, read, part)?, value)
}

/// The table of a lookup is applied.
fn apply(alloc: Global, read: u32) -> Result<Stmt, AllocError>
    ensures { IfOk result (λ s. stmt_of s ≡ p4.call 0 (names.table_name read ∷ codes "apply" ∷ []) []) }
{
    let callee = two_names(alloc, table_name(alloc, read)?, "apply")?;
    Ok(Stmt::Call(0, callee, Vec::new(alloc)))
}

/// 0 stands in the variable of a read, before a lookup that may miss.
fn cleared(alloc: Global, read: u32, shape: &Shape) -> Result<Vec<Stmt>, AllocError>
    ensures { IfOk result (λ v. stmts_of v.items ≡ code.cleared read (shape_of shape.now)) }
{
    let mut out = Vec::new(alloc);
    if let Shape::SetOf(_) | Shape::DictOf(_, _) = shape {
        out.push(clear(alloc, read, value_width(shape))?)?;
    }
    Ok(out)
}

/// A control variable is looked up: the parts of its key stand in variables, and its table is applied.
fn read_control(
    alloc: Global,
    place: &Place<'_>,
    read: u32,
    d: &Decl,
    key: &[Expr],
) -> Result<Vec<Stmt>, AllocError>
    ensures { IfOk result (λ v. stmts_of v.items
        ≡ code.read_control (environment_of place.now.roots.now) (declared place.now.decls.now) place.now.base (lent place.now.reads.now) read (decl_of d.now) (indus_exprs key.now)) }
{
    let types = key_types(&d.shape);
    let mut out = cleared(alloc, read, &d.shape)?;
    for part in 0..types.len().min(key.len()) {
        out.push(key_stmt(alloc, place, read, part, types[part], &key[part])?)?;
    }
    out.push(apply(alloc, read)?)?;
    Ok(out)
}

/// The parts of the key of what is read.
fn keys_of(e: &Expr) -> &[Expr]
    ensures { indus_exprs result.now ≡ code.keys_of (indus_expr e.now) }
{
    match e {
        Expr::Index(_, _, key) | Expr::Member(_, key, _) => key,
        Expr::Num(_, _) | Expr::Flag(_, _) | Expr::Read(_, _) | Expr::Length(_, _) => &[],
        Expr::Not(_, _) | Expr::Invert(_, _) | Expr::Bin(_, _, _, _) | Expr::Cast(_, _, _) => &[],
    }
}

/// One read, which has a number.
fn read_stmts(
    alloc: Global,
    place: &Place<'_>,
    read: u32,
    e: &Expr,
) -> Result<Vec<Stmt>, AllocError>
    ensures { IfOk result (λ v. stmts_of v.items
        ≡ code.read_stmts (environment_of place.now.roots.now) (declared place.now.decls.now) place.now.base
        (read_decl (declared place.now.decls.now) (indus_expr e.now)) (lent place.now.reads.now) read (code.keys_of (indus_expr e.now))) }
{
    match read_decl(place.decls, e) {
        None => Ok(Vec::new(alloc)),
        Some(d) => match d.kind {
            DeclKind::Tele | DeclKind::Header => Ok(Vec::new(alloc)),
            DeclKind::Sensor => read_sensor(alloc, place, read, d, keys_of(e)),
            DeclKind::Control => read_control(alloc, place, read, d, keys_of(e)),
        },
    }
}

/// The statements of a statement's reads.
pub(crate) fn reads_stmts(alloc: Global, place: &Place<'_>) -> Result<Vec<Stmt>, AllocError>
    ensures { IfOk result (λ v. stmts_of v.items
        ≡ code.reads_stmts (environment_of place.now.roots.now) (declared place.now.decls.now) place.now.base [] place.now.base (lent place.now.reads.now)) }
{
    let mut out = Vec::new(alloc);
    for i in 0..place.reads.len() {
        let before = Place {
            roots: place.roots,
            decls: place.decls,
            base: place.base,
            reads: &place.reads[..i],
        };
        let mut more = read_stmts(alloc, &before, number_at(place.base, i)?, place.reads[i])?;
        out.append(&mut more)?;
    }
    Ok(out)
}
