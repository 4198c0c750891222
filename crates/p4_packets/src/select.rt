//! Which state of a parser follows.

ghost use Rattle.std.specs.Prelude.{◌≡◌, IfOk, map};
ghost use Rattle.p4_tree.specs.View.{expr_of, keyset_of, case_of, transition_of};
ghost use Rattle.p4_meaning.specs.Value.{value_of};
ghost use Rattle.p4_meaning.specs.Parsing.{chosen, fits, fits_each, fits_all, first_fit, state_after};
ghost use Rattle.p4_packets.specs.Fields.{store_of};
ghost use Rattle.p4_packets.specs.Places.{name_of, led_of};

use crate::fields::Fields;
use crate::parse::ParserError;
use bit_values::Bits;
use lex_text::Name;
use p4_tree::{Expr, Keyset, Transition};
use p4_values::{value_of, values_of};
use std::alloc::{AllocError, Global};

fn fits(k: &Keyset, key: Bits, s: &Fields) -> bool
    ensures { result ≡ fits (keyset_of k.now) key (store_of s.now) }
{
    let width = key.width();
    match k {
        Keyset::Any(_) => true,
        Keyset::One(_, e) => key.value == value_of(e, width, s).value,
        Keyset::Masked(_, e, m) => {
            let mask = value_of(m, width, s).value;
            key.value & mask == value_of(e, width, s).value & mask
        }
    }
}

fn fits_each(sets: &[Keyset], keys: &[Bits], s: &Fields) -> bool
    ensures { result ≡ fits_each (map keyset_of sets.now) keys.now (store_of s.now) }
{
    for i in 0..sets.len() {
        if i >= keys.len() {
            return false;
        }
        if !fits(&sets[i], keys[i], s) {
            return false;
        }
    }
    if sets.len() < keys.len() {
        return false;
    }
    true
}

fn fits_all(sets: &[Keyset], keys: &[Bits], s: &Fields) -> bool
    ensures { result ≡ fits_all (map keyset_of sets.now) keys.now (store_of s.now) }
{
    match sets {
        [] => fits_each(sets, keys, s),
        [first, rest @ ..] => match first {
            Keyset::Any(_) => match rest {
                [] => true,
                [_second, _more @ ..] => fits_each(sets, keys, s),
            },
            Keyset::One(_, _) => fits_each(sets, keys, s),
            Keyset::Masked(_, _, _) => fits_each(sets, keys, s),
        },
    }
}

fn first_fit<'a>(cases: &'a [(Vec<Keyset>, Name)], keys: &[Bits], s: &Fields) -> Option<&'a Name>
    ensures { name_of result ≡ first_fit (map case_of cases.now) keys.now (store_of s.now) }
{
    for c in cases {
        if fits_all(&c.0, keys, s) {
            return Some(&c.1);
        }
    }
    None
}

/// Where a state leads.
pub enum Led<'a> {
    To(&'a Name),
    Halt(ParserError),
}

/// Where no case fits, the error is `NoMatch`.
fn chosen<'a>(state: Option<&'a Name>) -> Led<'a>
    ensures { led_of result ≡ chosen (name_of state.entry) }
{
    match state {
        None => Led::Halt(ParserError::NoMatch),
        Some(name) => Led::To(name),
    }
}

/// The state of the first case that the values of expressions fit.
fn selected<'a>(
    alloc: Global,
    list: &[Expr],
    cases: &'a [(Vec<Keyset>, Name)],
    s: &Fields,
) -> Result<Led<'a>, AllocError>
    ensures { IfOk result (λ l. led_of l ≡ chosen (first_fit (map case_of cases.now) (map (λ e. value_of e 0 (store_of s.now)) (map expr_of list.now)) (store_of s.now))) }
{
    let keys = values_of(alloc, list, s)?;
    Ok(chosen(first_fit(cases, &keys, s)))
}

/// The state that follows, or the error.
pub fn state_after<'a>(
    alloc: Global,
    next: &'a Transition,
    s: &Fields,
) -> Result<Led<'a>, AllocError>
    ensures { IfOk result (λ l. led_of l ≡ state_after (transition_of next.now) (store_of s.now)) }
{
    match next {
        Transition::None(_) => Ok(Led::Halt(ParserError::NoError)),
        Transition::To(_, name) => Ok(Led::To(name)),
        Transition::Select(_, list, cases) => selected(alloc, list, cases, s),
    }
}
