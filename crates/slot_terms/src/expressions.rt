//! The terms of expressions.

ghost use Rattle.std.specs.Prelude.{◌≡◌, ◌≤◌, ◌+◌, ◌-◌, true, IfOk, OnOk, IfErr};
ghost use Rattle.bit_values.specs.Widths.{sound_width, either_width};
ghost use Rattle.p4_tree.specs.View.{expr_of};
ghost use Rattle.p4_tree.specs.Tree.{path, valid, num, error_name, inversion as tree_inversion, opposite as tree_opposite, slice as tree_slice, cast as tree_cast};
ghost use Rattle.slot_terms.specs.Typed.{typed_of};
ghost use Rattle.slot_terms.specs.Places.{Means, Fills, places_of};
ghost use Rattle.slot_terms.specs.Own.{IsOwn};
ghost use Rattle.slot_terms.specs.Places as sight;
ghost use Rattle.slot_terms.specs.Known.{is_known, Blames};

use crate::fault::Fault;
use crate::laying::{header_number, place_at};
use crate::nodes::place_node;
use crate::places::Places;
use crate::term::Term;
use crate::typed::{Typed, binary, cast, choice, constant, inversion, negation, opposite, slice};
use bit_values::{Bits, either_width, sound_width};
use lex_text::{Literal, Name};
use p4_tree::{Expr, PTy};
use p4_values::{same_text, width_of};
use std::alloc::Global;

/// The term of a path.
fn path_term(places: &Places, names: &[Name]) -> Result<Typed, Fault>
    ensures means { IfOk result (λ t. Means (places_of places.now) (path 0 names.now) 0 (typed_of t)) }
    ensures known { OnOk result (is_known (places_of places.now) (path 0 names.now) ≡ true) }
    ensures blames { IfErr result (λ f. Blames (places_of places.now) (path 0 names.now) f) }
{
    match place_at(places, names) {
        None => Err(Fault::Unknown),
        Some(row) => Ok(Typed {
            term: place_node(row.slot, row.header),
            width: row.width,
        }),
    }
}

/// The term for whether a header is valid.
fn header_term(places: &Places, names: &[Name]) -> Result<Typed, Fault>
    ensures means { IfOk result (λ t. Means (places_of places.now) (valid 0 names.now) 0 (typed_of t)) }
    ensures known { OnOk result (is_known (places_of places.now) (valid 0 names.now) ≡ true) }
    ensures blames { IfErr result (λ f. Blames (places_of places.now) (valid 0 names.now) f) }
{
    match header_number(&places.headers, names)? {
        None => Err(Fault::Unknown),
        Some(number) => Ok(Typed {
            term: Term::Valid(number),
            width: 1,
        }),
    }
}

/// The width of a path's place.
fn path_width(places: &Places, names: &[Name]) -> Result<u8, Fault>
    ensures own { IfOk result (λ n. IsOwn (places_of places.now) (path 0 names.now) n) }
    ensures blames { IfErr result (λ f. Blames (places_of places.now) (path 0 names.now) f) }
{
    match place_at(places, names) {
        None => Err(Fault::Unknown),
        Some(row) => Ok(row.width),
    }
}

/// The width itself where a number can have it, else 128.
fn sound_count(bits: u16) -> u8
    ensures value { result ≡ sound_width bits }
    ensures wide { 1 ≤ result }
    ensures narrow { result ≤ 128 }
{
    if bits == 0 || bits > 128 {
        128
    } else {
        bits as u8
    }
}

/// The bits from one down to another.
fn slice_width(high: u8, low: u8) -> u8
    ensures value { result ≡ sound_width (high + 1 - low) }
    ensures wide { 1 ≤ result }
    ensures narrow { result ≤ 128 }
{
    sound_count((high as u16 + 1).saturating_sub(low as u16))
}

/// The width that an expression has of its own, or 0. `Unknown` where a path of it has no place.
fn own_width(places: &Places, e: &Expr) -> Result<u8, Fault>
    ensures own { IfOk result (λ n. IsOwn (places_of places.now) (expr_of e.now) n) }
    ensures blames { IfErr result (λ f. Blames (places_of places.now) (expr_of e.now) f) }
{
    match e {
        Expr::Num(_, n) => Ok(n.width),
        Expr::Flag(_, _) => Ok(1),
        Expr::Path(_, names) => path_width(places, names),
        Expr::Valid(_, _) => Ok(1),
        Expr::Applied(_, _, _) => Ok(1),
        Expr::ErrorName(_, _) => Ok(2),
        Expr::Not(_, _) => Ok(1),
        Expr::Invert(_, a) => own_width(places, a),
        Expr::Negate(_, a) => own_width(places, a),
        Expr::Bin(_, op, a, b) => {
            let v = own_width(places, a)?;
            let u = own_width(places, b)?;
            Ok(op.operator().own_width(v, u))
        }
        Expr::Choice(_, _, a, b) => {
            let v = own_width(places, a)?;
            let u = own_width(places, b)?;
            Ok(either_width(v, u))
        }
        Expr::Slice(_, _, high, low) => Ok(slice_width(*high, *low)),
        Expr::Cast(_, ty, _) => Ok(width_of(ty)),
    }
}

/// The term of a number, as its place takes it.
fn number_term(n: &Literal, width: u8) -> Typed
    ensures { (m : sight.Places) → Means m (num 0 n.now) width (typed_of result) }
{
    let word = Bits::new(128, n.value).cast(sound_width(either_width(n.width, width)));
    constant(word.width(), word.value)
}

/// The term of a parser's error.
fn error_term(name: &str) -> Typed
    ensures { (m : sight.Places) → Means m (error_name 0 name.now) 0 (typed_of result) }
{
    if same_text(name, "NoError") {
        constant(2, 0)
    } else if same_text(name, "PacketTooShort") {
        constant(2, 1)
    } else if same_text(name, "NoMatch") {
        constant(2, 2)
    } else {
        constant(2, 3)
    }
}

/// The term of an expression, where its place gives `width` bits, or 0 where it gives none. `Unknown`
/// comes only where one of its paths has no place, or one of its headers no number.
#[cycle(typed_term)]
pub fn typed_term(alloc: Global, places: &Places, e: &Expr, width: u8) -> Result<Typed, Fault>
    ensures means { IfOk result (λ t. Means (places_of places.now) (expr_of e.now) width (typed_of t)) }
    ensures known { OnOk result (is_known (places_of places.now) (expr_of e.now) ≡ true) }
    ensures blames { IfErr result (λ f. Blames (places_of places.now) (expr_of e.now) f) }
{
    match e {
        Expr::Num(_, n) => Ok(number_term(n, width)),
        Expr::Flag(_, b) => Ok(constant(1, if *b { 1 } else { 0 })),
        Expr::Path(_, names) => path_term(places, names),
        Expr::Valid(_, header) => header_term(places, header),
        Expr::Applied(_, _, _) => Ok(constant(1, 0)),
        Expr::ErrorName(_, name) => Ok(error_term(name.as_str())),
        Expr::Not(_, a) => {
            let a = typed_term(alloc, places, a, 1)?;
            Ok(negation(alloc, a)?)
        }
        Expr::Invert(_, a) => inversion_term(alloc, places, a, width),
        Expr::Negate(_, a) => opposite_term(alloc, places, a, width),
        Expr::Bin(_, op, a, b) => {
            let op = op.operator();
            let v = own_width(places, a)?;
            let u = own_width(places, b)?;
            let a = term_in_place(alloc, places, a, op.left_width(v, u, width))?;
            let b = term_in_place(alloc, places, b, op.right_width(v, u, width))?;
            Ok(binary(alloc, op, a, b)?)
        }
        Expr::Choice(_, test, a, b) => {
            let v = own_width(places, a)?;
            let u = own_width(places, b)?;
            let place = either_width(either_width(v, u), width);
            let test = typed_term(alloc, places, test, 1)?;
            let a = term_in_place(alloc, places, a, place)?;
            let b = term_in_place(alloc, places, b, place)?;
            Ok(choice(alloc, test, a, b)?)
        }
        Expr::Slice(_, a, high, low) => slice_term(alloc, places, a, *high, *low),
        Expr::Cast(_, ty, a) => cast_term(alloc, places, ty, a),
    }
}

/// The term of `~a`.
#[cycle(typed_term)]
fn inversion_term(alloc: Global, places: &Places, a: &Expr, width: u8) -> Result<Typed, Fault>
    ensures means { IfOk result (λ t. Means (places_of places.now) (tree_inversion 0 (expr_of a.now)) width (typed_of t)) }
    ensures known { OnOk result (is_known (places_of places.now) (expr_of a.now) ≡ true) }
    ensures blames { IfErr result (λ f. Blames (places_of places.now) (expr_of a.now) f) }
{
    let own = own_width(places, a)?;
    let a = term_in_place(alloc, places, a, either_width(own, width))?;
    Ok(inversion(alloc, a)?)
}

/// The term of `-a`.
#[cycle(typed_term)]
fn opposite_term(alloc: Global, places: &Places, a: &Expr, width: u8) -> Result<Typed, Fault>
    ensures means { IfOk result (λ t. Means (places_of places.now) (tree_opposite 0 (expr_of a.now)) width (typed_of t)) }
    ensures known { OnOk result (is_known (places_of places.now) (expr_of a.now) ≡ true) }
    ensures blames { IfErr result (λ f. Blames (places_of places.now) (expr_of a.now) f) }
{
    let own = own_width(places, a)?;
    let a = term_in_place(alloc, places, a, either_width(own, width))?;
    Ok(opposite(alloc, a)?)
}

/// The term of `a[high:low]`.
#[cycle(typed_term)]
fn slice_term(alloc: Global, places: &Places, a: &Expr, high: u8, low: u8) -> Result<Typed, Fault>
    ensures means { IfOk result (λ t. Means (places_of places.now) (tree_slice 0 (expr_of a.now) high low) 0 (typed_of t)) }
    ensures known { OnOk result (is_known (places_of places.now) (expr_of a.now) ≡ true) }
    ensures blames { IfErr result (λ f. Blames (places_of places.now) (expr_of a.now) f) }
{
    let a = typed_term(alloc, places, a, 0)?;
    Ok(slice(alloc, a, slice_width(high, low), low)?)
}

/// The term of `(ty)a`.
#[cycle(typed_term)]
fn cast_term(alloc: Global, places: &Places, ty: &PTy, a: &Expr) -> Result<Typed, Fault>
    ensures means { IfOk result (λ t. Means (places_of places.now) (tree_cast 0 ty.now (expr_of a.now)) 0 (typed_of t)) }
    ensures known { OnOk result (is_known (places_of places.now) (expr_of a.now) ≡ true) }
    ensures blames { IfErr result (λ f. Blames (places_of places.now) (expr_of a.now) f) }
{
    let a = typed_term(alloc, places, a, 0)?;
    Ok(cast(alloc, a, sound_width(width_of(ty)))?)
}

/// The term of an operand, cut or widened to the width of its place.
#[cycle(typed_term)]
pub fn term_in_place(alloc: Global, places: &Places, e: &Expr, place: u8) -> Result<Typed, Fault>
    ensures width { IfOk result (λ t. (typed_of t).width ≡ sound_width place) }
    ensures means { IfOk result (λ t. Fills (places_of places.now) (expr_of e.now) place (typed_of t)) }
    ensures known { OnOk result (is_known (places_of places.now) (expr_of e.now) ≡ true) }
    ensures blames { IfErr result (λ f. Blames (places_of places.now) (expr_of e.now) f) }
{
    let a = typed_term(alloc, places, e, place)?;
    Ok(cast(alloc, a, sound_width(place))?)
}
