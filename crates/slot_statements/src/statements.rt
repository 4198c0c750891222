//! The code of statements.

ghost use Rattle.std.specs.Prelude.{◌≡◌, ◌++◌, ◌∷◌, [], length, map, take, true, false, not, is_none, is_some, IfOk, IfErr, OnOk, Some, None};
ghost use Rattle.std.specs.Option.{option_map};
ghost use Rattle.bit_values.specs.Widths.{sound_width};
ghost use Rattle.p4_meaning.specs.Value.{width_of};
ghost use Rattle.p4_tree.specs.View.{expr_of, stmt_of, else_of, stmts_of};
ghost use Rattle.p4_tree.specs.Tree.{assign, block, var};
ghost use Rattle.p4_meaning.specs.Standard.{egress_spec};
ghost use Rattle.p4_meaning.specs.Statements.{application};
ghost use Rattle.slot_terms.specs.Places as sight;
ghost use Rattle.slot_terms.specs.Places.{IsLaid, places_of};
ghost use Rattle.slot_terms.specs.Terms.{constant as constant_term};
ghost use Rattle.slot_terms.specs.Typed.{typed_of};
ghost use Rattle.slot_terms.specs.declared.fault.Fault.TheVariants.{Unknown};
ghost use Rattle.slot_statements.specs.Codes.{code_of, codes_of, skip, set, branch, group};
ghost use Rattle.slot_statements.specs.Runs.{Does, DoAll, DoesCallee, DoesDrop, DoesElse, Grows};
ghost use Rattle.slot_statements.specs.Starts.{Starts, IsNew};
ghost use Rattle.slot_statements.specs.Known.{can_drop, has_port, is_drop, is_free, is_full, is_known_start, is_known_target, has_else, places_behind, places_behind_all};

use crate::code::Code;
use bit_values::sound_width;
use lex_text::Name;
use p4_packets::standard_path;
use p4_parts::is_assignable;
use p4_tree::{Expr, PTy, Stmt};
use p4_values::{path_of_one, same_text, width_of};
use slot_terms::{
    Fault, Places, Term, Typed, add_place, constant, cut_back, place_at, row_count, term_in_place,
    typed_term,
};
use std::alloc::{AllocError, Global};

/// A test that applies no table; one that does is `Unknown`.
fn plain_test(e: &Expr) -> Result<(), Fault>
    ensures plain { OnOk result (application (expr_of e.now) ≡ None) }
    ensures blames { IfErr result (λ f. f ≡ Unknown → is_none (application (expr_of e.now)) ≡ false) }
{
    match e {
        Expr::Applied(_, _, _) => Err(Fault::Unknown),
        Expr::Not(_, a) => plain_test(a),
        Expr::Num(_, _) | Expr::Flag(_, _) | Expr::Path(_, _) | Expr::Valid(_, _) => Ok(()),
        Expr::ErrorName(_, _) | Expr::Invert(_, _) | Expr::Negate(_, _) => Ok(()),
        Expr::Bin(_, _, _, _) | Expr::Choice(_, _, _, _) => Ok(()),
        Expr::Slice(_, _, _, _) | Expr::Cast(_, _, _) => Ok(()),
    }
}

/// The code that gives a slot a value.
fn set_code(slot: u32, header: Option<u32>, t: Typed) -> Code
    ensures { code_of result ≡ set slot header (typed_of t).term }
{
    Code::Set(slot, header, t.term)
}

/// The code of an assignment. To what no statement may write it does nothing.
fn assign_code(alloc: Global, places: &Places, path: &[Name], e: &Expr) -> Result<Code, Fault>
    requires { IsLaid (places_of places.now) }
    ensures known { OnOk result (is_known_target (places_of places.now) path.now (expr_of e.now) ≡ true) }
    ensures does { IfOk result (λ c. Does (places_of places.now) (places_of places.now) (code_of c) (assign 0 path.now (expr_of e.now))) }
    ensures blames { IfErr result (λ f. f ≡ Unknown → is_known_target (places_of places.now) path.now (expr_of e.now) ≡ false) }
{
    if is_assignable(path) {
        match place_at(places, path) {
            None => Err(Fault::Unknown),
            Some(row) => {
                let t = term_in_place(alloc, places, e, row.width)?;
                Ok(set_code(row.slot, row.header, t))
            }
        }
    } else {
        Ok(Code::Skip)
    }
}

/// The code that makes the port 511, by which no packet leaves.
fn port_code(slot: u32, header: Option<u32>) -> Code
    ensures { code_of result ≡ set slot header (constant_term 511) }
{
    Code::Set(slot, header, Term::Word(511))
}

/// The code of mark_to_drop. `Unknown` where the port has no place of 9 bits.
pub fn drop_code(alloc: Global, places: &Places) -> Result<Code, Fault>
    requires { IsLaid (places_of places.now) }
    ensures known { OnOk result (has_port (sight.place_at (places_of places.now).rows egress_spec) ≡ true) }
    ensures does { IfOk result (λ c. DoesDrop (places_of places.now) (code_of c)) }
    ensures blames { IfErr result (λ f. f ≡ Unknown → has_port (sight.place_at (places_of places.now).rows egress_spec) ≡ false) }
{
    let path = standard_path(alloc, "egress_spec")?;
    match place_at(places, &path) {
        None => Err(Fault::Unknown),
        Some(row) => {
            if row.width == 9 {
                Ok(port_code(row.slot, row.header))
            } else {
                Err(Fault::Unknown)
            }
        }
    }
}

/// Whether a call is mark_to_drop.
fn is_drop(callee: &[Name]) -> bool
    ensures { result ≡ is_drop callee.now }
{
    match callee {
        [] => false,
        [x, rest @ ..] => match rest {
            [] => same_text(x.as_str(), "mark_to_drop"),
            [_, ..] => false,
        },
    }
}

/// The code of a call. `Unknown` for any but mark_to_drop, and where the port has no place of 9 bits.
fn callee_code(alloc: Global, places: &Places, callee: &[Name]) -> Result<Code, Fault>
    requires { IsLaid (places_of places.now) }
    ensures known { OnOk result (can_drop callee.now (places_of places.now) ≡ true) }
    ensures does { IfOk result (λ c. DoesCallee (places_of places.now) (code_of c) callee.now) }
    ensures blames { IfErr result (λ f. f ≡ Unknown → can_drop callee.now (places_of places.now) ≡ false) }
{
    if is_drop(callee) {
        let c = drop_code(alloc, places)?;
        Ok(c)
    } else {
        Err(Fault::Unknown)
    }
}

/// The term of a variable's first value: 0 where none is written.
fn start_term(
    alloc: Global,
    places: &Places,
    ty: &PTy,
    start: &Option<Expr>,
) -> Result<Typed, Fault>
    ensures width { IfOk result (λ t. (typed_of t).width ≡ sound_width (width_of ty.now)) }
    ensures known { OnOk result (is_known_start (places_of places.now) (option_map expr_of start.now) ≡ true) }
    ensures starts { IfOk result (λ t. Starts (places_of places.now) ty.now (option_map expr_of start.now) (typed_of t)) }
    ensures blames { IfErr result (λ f. f ≡ Unknown → is_known_start (places_of places.now) (option_map expr_of start.now) ≡ false) }
{
    match start {
        None => Ok(constant(sound_width(width_of(ty)), 0)),
        Some(e) => term_in_place(alloc, places, e, width_of(ty)),
    }
}

/// The slot of a new variable: the next one. `Unknown` where its name has a place, or no slot is left.
pub(crate) fn variable_slot(
    alloc: Global,
    places: &mut Places,
    name: &Name,
    width: u8,
) -> Result<u32, Fault>
    ensures new { IfOk result (λ slot. IsNew (places_of places.old) (places_of places.new) name.now width slot) }
    ensures free { OnOk result (is_free (places_of places.old) name.now ≡ true) }
    ensures full { IfErr result (λ f. f ≡ Unknown → is_full (places_of places.old) name.now ≡ true) }
{
    let path = path_of_one(alloc, name)?;
    let slot = add_place(places, path, width, None)?;
    Ok(slot)
}

/// The code of a variable, which has the next slot behind it.
fn variable_code(
    alloc: Global,
    places: &mut Places,
    ty: &PTy,
    name: &Name,
    start: &Option<Expr>,
) -> Result<Code, Fault>
    requires { IsLaid (places_of places.old) }
    ensures laid { OnOk result (IsLaid (places_of places.new)) }
    ensures grows { OnOk result (Grows (places_of places.old) (places_of places.new)) }
    ensures known { OnOk result (places_behind (var 0 ty.now name.now (option_map expr_of start.now)) (places_of places.old) ≡ Some (places_of places.new)) }
    ensures does { IfOk result (λ c. Does (places_of places.old) (places_of places.new) (code_of c) (var 0 ty.now name.now (option_map expr_of start.now))) }
    ensures blames { IfErr result (λ f. f ≡ Unknown → places_behind (var 0 ty.now name.now (option_map expr_of start.now)) (places_of places.old) ≡ None) }
{
    let t = start_term(alloc, places, ty, start)?;
    let slot = variable_slot(alloc, places, name, sound_width(width_of(ty)))?;
    Ok(set_code(slot, None, t))
}

/// Code behind others.
fn push_code(codes: &mut Vec<Code>, c: Code) -> Result<(), AllocError>
    ensures { OnOk result (map code_of codes.new.items ≡ map code_of codes.old.items ++ code_of c ∷ []) }
{
    codes.push(c)?;
    Ok(())
}

/// One of two codes, by a test.
fn branch_code(alloc: Global, t: Typed, a: Code, b: Code) -> Result<Code, AllocError>
    ensures { IfOk result (λ c. code_of c ≡ branch (typed_of t).term (code_of a) (code_of b)) }
{
    let a = Box::new(alloc, a)?;
    let b = Box::new(alloc, b)?;
    Ok(Code::If(t.term, a, b))
}

/// One after the other, as one code.
fn group_code(codes: Vec<Code>) -> Code
    ensures { code_of result ≡ group (codes_of codes.items) }
{
    Code::Group(codes)
}

/// The code of a statement; behind it the places of what it declares are in sight. `Unknown` where a path
/// has no place, where a variable's name has one or no slot is left, for a call of any but mark_to_drop, which
/// wants a place of 9 bits of the port, and for a test that applies a table. After an `Err` nothing is said
/// of the places.
#[cycle(statements)]
pub fn stmt_code(alloc: Global, places: &mut Places, s: &Stmt) -> Result<Code, Fault>
    requires { IsLaid (places_of places.old) }
    ensures laid { OnOk result (IsLaid (places_of places.new)) }
    ensures grows { OnOk result (Grows (places_of places.old) (places_of places.new)) }
    ensures known { OnOk result (places_behind (stmt_of s.now) (places_of places.old) ≡ Some (places_of places.new)) }
    ensures does { IfOk result (λ c. Does (places_of places.old) (places_of places.new) (code_of c) (stmt_of s.now)) }
    ensures blames { IfErr result (λ f. f ≡ Unknown → places_behind (stmt_of s.now) (places_of places.old) ≡ None) }
{
    match s {
        Stmt::Nothing(_) => Ok(Code::Skip),
        Stmt::Block(_, body) => {
            let c = in_block(alloc, places, body)?;
            Ok(c)
        }
        Stmt::Var(_, ty, name, start) => {
            let c = variable_code(alloc, places, ty, name, start)?;
            Ok(c)
        }
        Stmt::Assign(_, path, e) => {
            let c = assign_code(alloc, places, path, e)?;
            Ok(c)
        }
        Stmt::If(_, e, a, b) => {
            plain_test(e)?;
            let t = typed_term(alloc, places, e, 1)?;
            let a = in_branch(alloc, places, a)?;
            let b = in_else(alloc, places, b)?;
            Ok(branch_code(alloc, t, a, b)?)
        }
        Stmt::Return(_) => Ok(Code::Return),
        Stmt::Exit(_) => Ok(Code::Exit),
        Stmt::Call(_, callee, _) => {
            let c = callee_code(alloc, places, callee)?;
            Ok(c)
        }
    }
}

/// The code of a statement whose variables are forgotten behind it.
#[cycle(statements)]
fn in_branch(alloc: Global, places: &mut Places, s: &Stmt) -> Result<Code, Fault>
    requires { IsLaid (places_of places.old) }
    ensures same { OnOk result (places_of places.new ≡ places_of places.old) }
    ensures known { OnOk result (is_some (places_behind (stmt_of s.now) (places_of places.old)) ≡ true) }
    ensures does { IfOk result (λ c. Does (places_of places.old) (places_of places.old) (code_of c) (stmt_of s.now)) }
    ensures blames { IfErr result (λ f. f ≡ Unknown → is_some (places_behind (stmt_of s.now) (places_of places.old)) ≡ false) }
{
    let count = row_count(places);
    let next = places.next;
    let c = stmt_code(alloc, places, s)?;
    cut_back(places, count, next);
    Ok(c)
}

/// The code of an `else` that may be there.
#[cycle(statements)]
fn in_else(alloc: Global, places: &mut Places, other: &Option<Box<Stmt>>) -> Result<Code, Fault>
    requires { IsLaid (places_of places.old) }
    ensures same { OnOk result (places_of places.new ≡ places_of places.old) }
    ensures known { OnOk result (has_else (else_of other.now) (places_of places.old) ≡ true) }
    ensures does { IfOk result (λ c. DoesElse (places_of places.old) (code_of c) (else_of other.now)) }
    ensures blames { IfErr result (λ f. f ≡ Unknown → has_else (else_of other.now) (places_of places.old) ≡ false) }
{
    match other {
        None => Ok(Code::Skip),
        Some(s) => {
            let c = in_branch(alloc, places, s)?;
            Ok(c)
        }
    }
}

/// The code of a block.
#[cycle(statements)]
fn in_block(alloc: Global, places: &mut Places, body: &[Stmt]) -> Result<Code, Fault>
    requires { IsLaid (places_of places.old) }
    ensures same { OnOk result (places_of places.new ≡ places_of places.old) }
    ensures known { OnOk result (is_some (places_behind_all (stmts_of body.now) (places_of places.old)) ≡ true) }
    ensures does { IfOk result (λ c. Does (places_of places.old) (places_of places.old) (code_of c) (block 0 (stmts_of body.now))) }
    ensures blames { IfErr result (λ f. f ≡ Unknown → is_some (places_behind_all (stmts_of body.now) (places_of places.old)) ≡ false) }
{
    let count = row_count(places);
    let next = places.next;
    let codes = stmts_code(alloc, places, body)?;
    cut_back(places, count, next);
    Ok(group_code(codes))
}

/// The codes of statements one after the other; behind them the places of what they declare are in
/// sight. Faults are those of `stmt_code`.
#[cycle(statements)]
pub fn stmts_code(alloc: Global, places: &mut Places, list: &[Stmt]) -> Result<Vec<Code>, Fault>
    requires { IsLaid (places_of places.old) }
    ensures laid { OnOk result (IsLaid (places_of places.new)) }
    ensures grows { OnOk result (Grows (places_of places.old) (places_of places.new)) }
    ensures known { OnOk result (places_behind_all (stmts_of list.now) (places_of places.old) ≡ Some (places_of places.new)) }
    ensures do_all { IfOk result (λ v. DoAll (places_of places.old) (places_of places.new) (codes_of v.items) (stmts_of list.now)) }
    ensures blames { IfErr result (λ f. f ≡ Unknown → places_behind_all (stmts_of list.now) (places_of places.old) ≡ None) }
{
    let mut codes = Vec::new(alloc);
    for s in list {
        let c = stmt_code(alloc, places, s)?;
        push_code(&mut codes, c)?;
    }
    Ok(codes)
}
