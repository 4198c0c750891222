//! Which state follows.

ghost use Rattle.std.specs.Prelude.{◌≡◌, map};
ghost use Rattle.slot_terms.specs.States.{state_of};
ghost use Rattle.slot_terms.specs.Terms.{term_of};
ghost use Rattle.slot_parsers.specs.ParserCodes.{values_of, fits_key, fits_keys, fits_case, first_case, next_of};
ghost use Rattle.slot_parsers.specs.Code.{key_of, case_of, next_in, led_in};

use crate::codes::{Case, Key, Next};
use p4_packets::ParserError;
use slot_terms::{State, Term, eval};

/// Whether a key set fits a number.
fn fits_key(k: &Key, value: u128, s: &State) -> bool
    ensures { result ≡ fits_key (key_of k.now) value (state_of s.now) }
{
    match k {
        Key::Any => true,
        Key::Only(t) => value == eval(t, &s.slots, &s.valid),
        Key::Masked(t, m) => {
            let mask = eval(m, &s.slots, &s.valid);
            value & mask == eval(t, &s.slots, &s.valid) & mask
        }
    }
}

/// Whether key sets fit the values of terms one by one.
fn fits_keys(keys: &[Key], terms: &[Term], s: &State) -> bool
    ensures { result ≡ fits_keys (map key_of keys.now) (values_of (map term_of terms.now) (state_of s.now)) (state_of s.now) }
{
    let mut left = keys;
    let mut others = terms;
    loop {
        match left {
            [] => return others.is_empty(),
            [k, more @ ..] => match others {
                [] => return false,
                [t, rest @ ..] => {
                    if !fits_key(k, eval(t, &s.slots, &s.valid), s) {
                        return false;
                    }
                    left = more;
                    others = rest;
                }
            },
        }
    }
}

/// Whether a case fits: one `default` alone fits all.
fn fits_case(keys: &[Key], terms: &[Term], s: &State) -> bool
    ensures { result ≡ fits_case (map key_of keys.now) (values_of (map term_of terms.now) (state_of s.now)) (state_of s.now) }
{
    match keys {
        [] => fits_keys(keys, terms, s),
        [first, rest @ ..] => match first {
            Key::Any => match rest {
                [] => true,
                [_second, _more @ ..] => fits_keys(keys, terms, s),
            },
            Key::Only(_) => fits_keys(keys, terms, s),
            Key::Masked(_, _) => fits_keys(keys, terms, s),
        },
    }
}

/// Where the first case that fits leads.
fn first_case(cases: &[Case], terms: &[Term], s: &State) -> Option<Option<u32>>
    ensures { result ≡ first_case (map case_of cases.now) (values_of (map term_of terms.now) (state_of s.now)) (state_of s.now) }
{
    for c in cases {
        if fits_case(&c.keys, terms, s) {
            return Some(c.next);
        }
    }
    None
}

/// The state that follows, or the error.
pub(crate) enum Led {
    To(Option<u32>),
    Halt(ParserError),
}

/// Which state follows, or with which error the parser ends.
pub(crate) fn next_of(n: &Next, s: &State) -> Led
    ensures { led_in result ≡ next_of (next_in n.now) (state_of s.now) }
{
    match n {
        Next::Stop => Led::Halt(ParserError::NoError),
        Next::To(x) => Led::To(*x),
        Next::Select(terms, cases) => match first_case(cases, terms, s) {
            None => Led::Halt(ParserError::NoMatch),
            Some(x) => Led::To(x),
        },
    }
}
