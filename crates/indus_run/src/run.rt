//! What statements do.

ghost use Rattle.std.specs.Prelude.{◌≡◌, ◌≤◌, ◌<◌, ◌++◌, ℕ, map, length, true, IfOk, OnOk, Some};
ghost use Rattle.indus_tree.specs.State.{lookup, push_item, pushed, put, put_cell, set_cell};
ghost use Rattle.indus_tree.specs.Keys.{has_item};
ghost use Rattle.indus_tree.specs.Meaning.{block_run, index_for, named, reported, run_of, run_turns, shortest, stmt_run, turn_items, turns_of, value_for};
ghost use Rattle.indus_tree.specs.Value.{values_of};
ghost use Rattle.indus_tree.specs.View.{block_of, decl_of, expr_of, exprs_of, stmt_of};
ghost use Rattle.indus_tree.specs.declared.tree.DeclKind.TheVariants.{Tele};
ghost use Rattle.indus_tree.specs.Tree.{exprs_count};
ghost use Rattle.indus_tree.specs.Reports.{AreShort, IsShort};
ghost use Rattle.indus_values.specs.View.{IsShaped, cells_at, cells_in, cells_of, decls_of, doing_of, hop_in, hop_of, is_kind, seats, seen_of};

use bit_values::{Bits, either_width, holds, sound_width};
use indus_tree::{Decl, DeclKind, Expr, Property, Stmt, find};
use indus_values::{
    Env, HopResult, HopView, Report, SensorState, TeleState, cells, held_width, own_width, seat,
    shape_size, value_of, values_of, word_at,
};
use lex_text::Name;
use std::alloc::{AllocError, Global};

/// Runs a block of the property. `values` are the header variables. The flag and the reports are
/// added to those in `out`.
pub fn run_block(
    alloc: Global,
    p: &Property,
    block: &[Stmt],
    view: &HopView,
    values: &[Bits],
    tele: &mut TeleState,
    sensors: &mut SensorState,
    out: &mut HopResult,
) -> Result<(), AllocError>
    requires shaped { IsShaped (map decl_of p.now.decls.items) tele.old sensors.old }
    requires short { AreShort (block_of block.now) }
    ensures shaped { OnOk result (IsShaped (map decl_of p.now.decls.items) tele.new sensors.new) }
    ensures does { let ds = map decl_of p.now.decls.items in
        OnOk result (doing_of ds tele.new sensors.new out.new ≡ run_of (hop_in ds view.now view.now.last values.now) (block_of block.now) (doing_of ds tele.old sensors.old out.old)) }
{
    run_part(alloc, p, block, view, view.last, values, tele, sensors, out)
}

/// Runs a block of the property, in which `last_hop` reads `last`.
pub fn run_part(
    alloc: Global,
    p: &Property,
    block: &[Stmt],
    view: &HopView,
    last: bool,
    values: &[Bits],
    tele: &mut TeleState,
    sensors: &mut SensorState,
    out: &mut HopResult,
) -> Result<(), AllocError>
    requires shaped { IsShaped (map decl_of p.now.decls.items) tele.old sensors.old }
    requires short { AreShort (block_of block.now) }
    ensures shaped { OnOk result (IsShaped (map decl_of p.now.decls.items) tele.new sensors.new) }
    ensures does { let ds = map decl_of p.now.decls.items in
        OnOk result (doing_of ds tele.new sensors.new out.new ≡ run_of (hop_in ds view.now last values.now) (block_of block.now) (doing_of ds tele.old sensors.old out.old)) }
{
    let env = Env {
        decls: &p.decls,
        view,
        last,
        values,
    };
    block_run(alloc, block, &env, &[], tele, sensors, out)
}

/// Writes a cell of a list.
fn put_cell(lists: &mut Vec<Vec<Bits>>, n: usize, at: u128, v: Bits)
    requires { n < length lists.old.items }
    ensures length { length lists.new.items ≡ length lists.old.items }
    ensures put { cells_at lists.new.items (Some n) ≡ put_cell (cells_at lists.old.items (Some n)) at v }
    ensures others { (k : ℕ) → (k ≡ n → ⊥) → cells_at lists.new.items (Some k) ≡ cells_at lists.old.items (Some k) }
{
    let list = &mut lists[n];
    if at < list.len() as u128 {
        list[at as usize] = v;
    }
}

/// Adds an item to a list, unless it is full.
fn push_cell(lists: &mut Vec<Vec<Bits>>, n: usize, size: u8, v: Bits) -> Result<(), AllocError>
    requires { n < length lists.old.items }
    ensures length { OnOk result (length lists.new.items ≡ length lists.old.items) }
    ensures put { OnOk result (cells_at lists.new.items (Some n) ≡ pushed size (cells_at lists.old.items (Some n)) v) }
    ensures others { OnOk result ((k : ℕ) → (k ≡ n → ⊥) → cells_at lists.new.items (Some k) ≡ cells_at lists.old.items (Some k)) }
{
    let list = &mut lists[n];
    if list.len() < size as usize {
        list.push(v)?;
    }
    Ok(())
}

/// Writes a cell of a variable of a kind.
#[tactic(auto, using(indus_values::proofs::SeatLemmas::within, indus_values::proofs::SeatLemmas::seated))]
fn write_at(
    kind: DeclKind,
    decls: &[Decl],
    lists: &mut Vec<Vec<Bits>>,
    name: &Name,
    at: u128,
    v: Bits,
)
    requires shaped { length lists.old.items ≡ seats kind (map decl_of decls.now) }
    requires there { is_kind kind (lookup (map decl_of decls.now) name.now) ≡ true }
    ensures length { length lists.new.items ≡ length lists.old.items }
    ensures put { cells_in kind (map decl_of decls.now) lists.new.items ≡ put (cells_in kind (map decl_of decls.now) lists.old.items) name.now (put_cell (cells_in kind (map decl_of decls.now) lists.old.items name.now) at v) }
{
    match seat(kind, decls, name) {
        None => unreachable!(),
        Some(n) => put_cell(lists, n, at, v),
    }
}

/// Pushes onto a list that travels with the packet.
#[tactic(auto, using(indus_values::proofs::SeatLemmas::within, indus_values::proofs::SeatLemmas::seated))]
fn push_at(
    decls: &[Decl],
    lists: &mut Vec<Vec<Bits>>,
    name: &Name,
    size: u8,
    v: Bits,
) -> Result<(), AllocError>
    requires shaped { length lists.old.items ≡ seats Tele (map decl_of decls.now) }
    requires there { is_kind Tele (lookup (map decl_of decls.now) name.now) ≡ true }
    ensures length { OnOk result (length lists.new.items ≡ length lists.old.items) }
    ensures put { OnOk result (cells_in Tele (map decl_of decls.now) lists.new.items ≡ put (cells_in Tele (map decl_of decls.now) lists.old.items) name.now (pushed size (cells_in Tele (map decl_of decls.now) lists.old.items name.now) v)) }
{
    match seat(DeclKind::Tele, decls, name) {
        None => unreachable!(),
        Some(n) => {
            push_cell(lists, n, size, v)?;
            Ok(())
        }
    }
}

fn set_cell(
    decls: &[Decl],
    name: &Name,
    at: u128,
    v: Bits,
    tele: &mut TeleState,
    sensors: &mut SensorState,
    out: &HopResult,
)
    requires { IsShaped (map decl_of decls.now) tele.old sensors.old }
    ensures shaped { IsShaped (map decl_of decls.now) tele.new sensors.new }
    ensures does { doing_of (map decl_of decls.now) tele.new sensors.new out.now ≡ set_cell (lookup (map decl_of decls.now) name.now) name.now at v (doing_of (map decl_of decls.now) tele.old sensors.old out.now) }
{
    match find(decls, name) {
        None => {}
        Some(d) => match d.kind {
            DeclKind::Tele => write_at(DeclKind::Tele, decls, &mut tele.items, name, at, v),
            DeclKind::Sensor => write_at(DeclKind::Sensor, decls, &mut sensors.cells, name, at, v),
            DeclKind::Header => {}
            DeclKind::Control => {}
        },
    }
}

fn push_item(
    decls: &[Decl],
    name: &Name,
    v: Bits,
    tele: &mut TeleState,
    sensors: &SensorState,
    out: &HopResult,
) -> Result<(), AllocError>
    requires { IsShaped (map decl_of decls.now) tele.old sensors.now }
    ensures shaped { OnOk result (IsShaped (map decl_of decls.now) tele.new sensors.now) }
    ensures does { OnOk result (doing_of (map decl_of decls.now) tele.new sensors.now out.now ≡ push_item (lookup (map decl_of decls.now) name.now) name.now v (doing_of (map decl_of decls.now) tele.old sensors.now out.now)) }
{
    match find(decls, name) {
        None => Ok(()),
        Some(d) => match d.kind {
            DeclKind::Tele => push_at(decls, &mut tele.items, name, shape_size(&d.shape), v),
            DeclKind::Sensor => Ok(()),
            DeclKind::Header => Ok(()),
            DeclKind::Control => Ok(()),
        },
    }
}

/// The number of turns that a loop over the lists makes.
fn shortest(lists: &[Vec<Bits>]) -> usize
    ensures { result ≡ shortest (map cells_of lists.now) }
{
    let mut least: Option<usize> = None;
    for list in lists {
        least = Some(match least {
            None => list.len(),
            Some(n) => n.min(list.len()),
        });
    }
    least.unwrap_or(0)
}

/// The items of a turn, one of each list.
fn turn_items(alloc: Global, lists: &[Vec<Bits>], k: usize) -> Result<Vec<Bits>, AllocError>
    ensures { IfOk result (λ v. v.items ≡ turn_items (map cells_of lists.now) k) }
{
    let mut words = Vec::new(alloc);
    for l in lists {
        words.push(word_at(l, k as u128, 1))?;
    }
    Ok(words)
}

/// The items of each turn.
fn turns_of(alloc: Global, lists: &[Vec<Bits>]) -> Result<Vec<Vec<Bits>>, AllocError>
    ensures { IfOk result (λ v. map cells_of v.items ≡ turns_of (map cells_of lists.now)) }
{
    let mut turns = Vec::new(alloc);
    for k in 0..shortest(lists) {
        turns.push(turn_items(alloc, lists, k)?)?;
    }
    Ok(turns)
}

/// Copies of the lists that a loop walks.
fn walked(
    alloc: Global,
    decls: &[Decl],
    tele: &TeleState,
    lists: &[Name],
) -> Result<Vec<Vec<Bits>>, AllocError>
    ensures { IfOk result (λ v. map cells_of v.items ≡ map (cells_in Tele (map decl_of decls.now) tele.now.items.items) lists.now) }
{
    let mut all = Vec::new(alloc);
    for x in lists {
        let list = cells(DeclKind::Tele, decls, &tele.items, x);
        all.push(Vec::from_slice(alloc, list)?)?;
    }
    Ok(all)
}

/// The items of each turn of a loop over the named lists, as they are now.
fn walk(
    alloc: Global,
    decls: &[Decl],
    tele: &TeleState,
    lists: &[Name],
) -> Result<Vec<Vec<Bits>>, AllocError>
    ensures { IfOk result (λ v. map cells_of v.items ≡ turns_of (map (cells_in Tele (map decl_of decls.now) tele.now.items.items) lists.now)) }
{
    let copies = walked(alloc, decls, tele, lists)?;
    turns_of(alloc, &copies)
}

fn copy_items(alloc: Global, items: &[(Name, Bits)]) -> Result<Vec<(Name, Bits)>, AllocError>
    ensures { IfOk result (λ v. v.items ≡ items.now) }
{
    let mut all = Vec::new(alloc);
    for item in items {
        all.push((item.0.copy(alloc)?, item.1))?;
    }
    Ok(all)
}

/// Adds the items of a turn, with their names.
fn add_named(
    alloc: Global,
    names: &[Name],
    words: &[Bits],
    all: &mut Vec<(Name, Bits)>,
) -> Result<(), AllocError>
    ensures { OnOk result (all.new.items ≡ all.old.items ++ named names.now words.now) }
{
    for (x, w) in names.iter().zip(words) {
        all.push((x.copy(alloc)?, *w))?;
    }
    Ok(())
}

/// The items of the loops around, and behind them those of a turn.
fn inner_items(
    alloc: Global,
    items: &[(Name, Bits)],
    names: &[Name],
    words: &[Bits],
) -> Result<Vec<(Name, Bits)>, AllocError>
    ensures { IfOk result (λ v. v.items ≡ items.now ++ named names.now words.now) }
{
    let mut all = copy_items(alloc, items)?;
    add_named(alloc, names, words, &mut all)?;
    Ok(all)
}

/// The value that a variable takes.
fn value_for(
    alloc: Global,
    env: &Env,
    items: &[(Name, Bits)],
    tele: &TeleState,
    sensors: &SensorState,
    out: &HopResult,
    name: &Name,
    e: &Expr,
) -> Result<Bits, AllocError>
    ensures { IfOk result (λ v. v ≡ value_for (hop_of env.now) items.now (doing_of (decls_of env.now) tele.now sensors.now out.now) name.now (expr_of e.now)) }
{
    let width = held_width(env.decls, name);
    let v = value_of(alloc, e, width, env, items, tele, sensors)?;
    Ok(v.cast(sound_width(width)))
}

/// The index of a cell.
fn index_for(
    alloc: Global,
    env: &Env,
    items: &[(Name, Bits)],
    tele: &TeleState,
    sensors: &SensorState,
    out: &HopResult,
    e: &Expr,
) -> Result<u128, AllocError>
    ensures { IfOk result (λ n. n ≡ index_for (hop_of env.now) items.now (doing_of (decls_of env.now) tele.now sensors.now out.now) (expr_of e.now)) }
{
    let width = either_width(own_width(e, env, items, tele, sensors), 128);
    let v = value_of(alloc, e, width, env, items, tele, sensors)?;
    Ok(v.value)
}

/// Hands values up to the control plane.
fn report(
    alloc: Global,
    number: u16,
    values: &[Expr],
    env: &Env,
    items: &[(Name, Bits)],
    tele: &TeleState,
    sensors: &SensorState,
    out: &mut HopResult,
) -> Result<(), AllocError>
    requires { exprs_count (exprs_of values.now) ≤ 8 }
    ensures { OnOk result (doing_of (decls_of env.now) tele.now sensors.now out.new ≡ reported number (values_of (seen_of env.now items.now tele.now sensors.now) (exprs_of values.now)) (doing_of (decls_of env.now) tele.now sensors.now out.old)) }
{
    let values = values_of(alloc, values, env, items, tele, sensors)?;
    out.reports.push(Report { number, values })?;
    Ok(())
}

/// Runs a statement.
#[cycle(run)]
fn stmt_run(
    alloc: Global,
    s: &Stmt,
    env: &Env,
    items: &[(Name, Bits)],
    tele: &mut TeleState,
    sensors: &mut SensorState,
    out: &mut HopResult,
) -> Result<(), AllocError>
    requires shaped { IsShaped (decls_of env.now) tele.old sensors.old }
    requires short { IsShort (stmt_of s.now) }
    ensures shaped { OnOk result (IsShaped (decls_of env.now) tele.new sensors.new) }
    ensures does { OnOk result (doing_of (decls_of env.now) tele.new sensors.new out.new ≡ stmt_run (hop_of env.now) items.now (stmt_of s.now) (doing_of (decls_of env.now) tele.old sensors.old out.old)) }
{
    match s {
        Stmt::Assign(_, x, e) => {
            let v = value_for(alloc, env, items, tele, sensors, out, x, e)?;
            set_cell(env.decls, x, 0, v, tele, sensors, out);
            Ok(())
        }
        Stmt::Cell(_, x, i, e) => {
            let at = index_for(alloc, env, items, tele, sensors, out, i)?;
            let v = value_for(alloc, env, items, tele, sensors, out, x, e)?;
            set_cell(env.decls, x, at, v, tele, sensors, out);
            Ok(())
        }
        Stmt::Push(_, x, e) => {
            let v = value_for(alloc, env, items, tele, sensors, out, x, e)?;
            push_item(env.decls, x, v, tele, sensors, out)?;
            Ok(())
        }
        Stmt::If(_, e, a, b) => {
            let v = value_of(alloc, e, 1, env, items, tele, sensors)?;
            if holds(v) {
                block_run(alloc, a, env, items, tele, sensors, out)
            } else {
                block_run(alloc, b, env, items, tele, sensors, out)
            }
        }
        Stmt::For(_, names, lists, a) => {
            let turns = walk(alloc, env.decls, tele, lists)?;
            run_turns(alloc, names, &turns, a, env, items, tele, sensors, out)
        }
        Stmt::Reject(_) => {
            out.rejected = true;
            Ok(())
        }
        Stmt::Report(_, n, values) => report(alloc, *n, values, env, items, tele, sensors, out),
    }
}

/// Runs a block.
#[cycle(run)]
fn block_run(
    alloc: Global,
    block: &[Stmt],
    env: &Env,
    items: &[(Name, Bits)],
    tele: &mut TeleState,
    sensors: &mut SensorState,
    out: &mut HopResult,
) -> Result<(), AllocError>
    requires shaped { IsShaped (decls_of env.now) tele.old sensors.old }
    requires short { AreShort (block_of block.now) }
    ensures shaped { OnOk result (IsShaped (decls_of env.now) tele.new sensors.new) }
    ensures does { OnOk result (doing_of (decls_of env.now) tele.new sensors.new out.new ≡ block_run (hop_of env.now) items.now (block_of block.now) (doing_of (decls_of env.now) tele.old sensors.old out.old)) }
{
    for s in block {
        stmt_run(alloc, s, env, items, tele, sensors, out)?;
    }
    Ok(())
}

/// Runs a loop's body, once for each list of items.
#[cycle(run)]
fn run_turns(
    alloc: Global,
    names: &[Name],
    turns: &[Vec<Bits>],
    body: &[Stmt],
    env: &Env,
    items: &[(Name, Bits)],
    tele: &mut TeleState,
    sensors: &mut SensorState,
    out: &mut HopResult,
) -> Result<(), AllocError>
    requires shaped { IsShaped (decls_of env.now) tele.old sensors.old }
    requires short { AreShort (block_of body.now) }
    ensures shaped { OnOk result (IsShaped (decls_of env.now) tele.new sensors.new) }
    ensures does { OnOk result (doing_of (decls_of env.now) tele.new sensors.new out.new ≡ run_turns (λ ws. block_run (hop_of env.now) (items.now ++ named names.now ws) (block_of body.now)) (map cells_of turns.now) (doing_of (decls_of env.now) tele.old sensors.old out.old)) }
{
    for words in turns {
        let inner = inner_items(alloc, items, names, words)?;
        block_run(alloc, body, env, &inner, tele, sensors, out)?;
    }
    Ok(())
}
