//! The code of what follows a state.

ghost use Rattle.std.specs.Prelude.{◌≡◌, ◌++◌, ◌∷◌, [], map, true, false, IfOk, IfErr, OnOk};
ghost use Rattle.p4_tree.specs.View.{expr_of, keyset_of, case_of as tree_case_of, transition_of, state_of as tree_state_of};
ghost use Rattle.slot_terms.specs.declared.fault.Fault.TheVariants.{Unknown};
ghost use Rattle.slot_terms.specs.Places.{places_of};
ghost use Rattle.slot_terms.specs.Terms.{term_of};
ghost use Rattle.slot_terms.specs.Typed.{typed_of};
ghost use Rattle.slot_parsers.specs.Code.{key_of, case_of, next_in};
ghost use Rattle.slot_parsers.specs.Parses.{state_number, target, Leads};
ghost use Rattle.slot_parsers.specs.Selects.{AreOfKinds, AreOneKind, CasesAlike, FitEach, FitsInWidth, IsCaseOf, TermsMean, term_in, width_at};
ghost use Rattle.slot_parser_codes.specs.KnownParsers.{are_known, are_known_cases, are_known_keys, is_known_case, is_known_key, is_known_next};

use lex_text::Name;
use p4_tree::{Expr, Keyset, ParserState, Transition};
use p4_values::same_text;
use slot_parsers::{Case, Key, Next};
use slot_terms::{Fault, Places, Term, Typed, typed_term};
use std::alloc::{AllocError, Global};

/// Something goes behind others.
pub(crate) fn push<T: Drop>(list: &mut Vec<T>, x: T) -> Result<(), AllocError>
    ensures { OnOk result (list.new.items ≡ list.old.items ++ x ∷ []) }
{
    list.push(x)?;
    Ok(())
}

/// The number of the first state of a name. What 32 bits do not count no memory holds.
pub(crate) fn state_number(states: &[ParserState], name: &Name) -> Result<Option<u32>, AllocError>
    ensures { IfOk result (λ n. state_number (map tree_state_of states.now) name.now ≡ n) }
{
    for i in 0..states.len() {
        if same_text(states[i].name.as_str(), name.as_str()) {
            return match u32::try_from(i) {
                Ok(i) => Ok(Some(i)),
                Err(_) => Err(AllocError),
            };
        }
    }
    Ok(None)
}

/// Where a name leads: to the state of a number, or nowhere.
pub(crate) fn target(states: &[ParserState], name: &Name) -> Result<Option<u32>, AllocError>
    ensures { IfOk result (λ n. n ≡ target (map tree_state_of states.now) name.now) }
{
    if same_text(name.as_str(), "accept") || same_text(name.as_str(), "reject") {
        Ok(None)
    } else {
        state_number(states, name)
    }
}

/// The terms of the expressions of a `select`.
fn key_terms(alloc: Global, places: &Places, list: &[Expr]) -> Result<Vec<Typed>, Fault>
    ensures means { IfOk result (λ v. TermsMean (places_of places.now) (map expr_of list.now) (map typed_of v.items)) }
    ensures known { OnOk result (are_known (places_of places.now) (map expr_of list.now) ≡ true) }
    ensures blames { IfErr result (λ f. f ≡ Unknown → are_known (places_of places.now) (map expr_of list.now) ≡ false) }
{
    let mut terms = Vec::new(alloc);
    for e in list {
        let t = typed_term(alloc, places, e, 0)?;
        push(&mut terms, t)?;
    }
    Ok(terms)
}

/// A key set over slots, whose key has this width.
fn key_code(alloc: Global, places: &Places, width: u8, set: &Keyset) -> Result<Key, Fault>
    ensures fits { IfOk result (λ k. FitsInWidth (places_of places.now) width (key_of k) (keyset_of set.now)) }
    ensures kind { IfOk result (λ k. AreOneKind (key_of k) (keyset_of set.now)) }
    ensures known { OnOk result (is_known_key (places_of places.now) (keyset_of set.now) ≡ true) }
    ensures blames { IfErr result (λ f. f ≡ Unknown → is_known_key (places_of places.now) (keyset_of set.now) ≡ false) }
{
    match set {
        Keyset::Any(_) => Ok(Key::Any),
        Keyset::One(_, e) => {
            let t = typed_term(alloc, places, e, width)?;
            Ok(Key::Only(t.term))
        }
        Keyset::Masked(_, e, mask) => {
            let t = typed_term(alloc, places, e, width)?;
            let m = typed_term(alloc, places, mask, width)?;
            Ok(Key::Masked(t.term, m.term))
        }
    }
}

/// The width of the key at a place, and 0 where there is none.
fn width_at(terms: &[Typed], i: usize) -> u8
    ensures { result ≡ width_at (map typed_of terms.now) i }
{
    if i < terms.len() { terms[i].width } else { 0 }
}

/// The key sets of a case over slots.
fn keys_code(
    alloc: Global,
    places: &Places,
    terms: &[Typed],
    sets: &[Keyset],
) -> Result<Vec<Key>, Fault>
    ensures each { IfOk result (λ v. FitEach (places_of places.now) (map typed_of terms.now) (map key_of v.items) (map keyset_of sets.now)) }
    ensures kinds { IfOk result (λ v. AreOfKinds (map key_of v.items) (map keyset_of sets.now)) }
    ensures known { OnOk result (are_known_keys (places_of places.now) (map keyset_of sets.now) ≡ true) }
    ensures blames { IfErr result (λ f. f ≡ Unknown → are_known_keys (places_of places.now) (map keyset_of sets.now) ≡ false) }
{
    let mut keys = Vec::new(alloc);
    for i in 0..sets.len() {
        let key = key_code(alloc, places, width_at(terms, i), &sets[i])?;
        push(&mut keys, key)?;
    }
    Ok(keys)
}

/// A case over slots.
fn case_code(
    alloc: Global,
    places: &Places,
    states: &[ParserState],
    terms: &[Typed],
    case: &(Vec<Keyset>, Name),
) -> Result<Case, Fault>
    ensures alike { IfOk result (λ c. IsCaseOf (places_of places.now) (map tree_state_of states.now) (map typed_of terms.now) (case_of c) (tree_case_of case.now)) }
    ensures known { OnOk result (is_known_case (places_of places.now) (tree_case_of case.now) ≡ true) }
    ensures blames { IfErr result (λ f. f ≡ Unknown → is_known_case (places_of places.now) (tree_case_of case.now) ≡ false) }
{
    let next = target(states, &case.1)?;
    let keys = keys_code(alloc, places, terms, &case.0)?;
    Ok(Case { keys, next })
}

/// The cases of a `select` over slots.
fn cases_code(
    alloc: Global,
    places: &Places,
    states: &[ParserState],
    terms: &[Typed],
    cases: &[(Vec<Keyset>, Name)],
) -> Result<Vec<Case>, Fault>
    ensures alike { IfOk result (λ v. CasesAlike (places_of places.now) (map tree_state_of states.now) (map typed_of terms.now) (map case_of v.items) (map tree_case_of cases.now)) }
    ensures known { OnOk result (are_known_cases (places_of places.now) (map tree_case_of cases.now) ≡ true) }
    ensures blames { IfErr result (λ f. f ≡ Unknown → are_known_cases (places_of places.now) (map tree_case_of cases.now) ≡ false) }
{
    let mut made = Vec::new(alloc);
    for case in cases {
        let c = case_code(alloc, places, states, terms, case)?;
        push(&mut made, c)?;
    }
    Ok(made)
}

/// The terms without their widths.
fn plain_terms(alloc: Global, terms: Vec<Typed>) -> Result<Vec<Term>, AllocError>
    ensures { IfOk result (λ v. map term_of v.items ≡ map term_in (map typed_of terms.items)) }
{
    let mut plain = Vec::new(alloc);
    for t in terms {
        plain.push(t.term)?;
    }
    Ok(plain)
}

/// The code of what follows a state.
pub(crate) fn next_code(
    alloc: Global,
    places: &Places,
    states: &[ParserState],
    next: &Transition,
) -> Result<Next, Fault>
    ensures leads { IfOk result (λ n. Leads (places_of places.now) (map tree_state_of states.now) (next_in n) (transition_of next.now)) }
    ensures known { OnOk result (is_known_next (places_of places.now) (transition_of next.now) ≡ true) }
    ensures blames { IfErr result (λ f. f ≡ Unknown → is_known_next (places_of places.now) (transition_of next.now) ≡ false) }
{
    match next {
        Transition::None(_) => Ok(Next::Stop),
        Transition::To(_, name) => Ok(Next::To(target(states, name)?)),
        Transition::Select(_, list, cases) => {
            let terms = key_terms(alloc, places, list)?;
            let cases = cases_code(alloc, places, states, &terms, cases)?;
            let terms = plain_terms(alloc, terms)?;
            Ok(Next::Select(terms, cases))
        }
    }
}
