//! Copies of parsers and of what stands in them, with the same places.

ghost use Rattle.std.specs.Prelude.{◌≡◌, IfOk, map};
ghost use Rattle.p4_tree.specs.View.{case_of, keyset_of, parser_of, state_of, transition_of};

use crate::copy_declaration::copy_params;
use crate::copy_expression::copy_exprs;
use crate::copy_statement::copy_stmts;
use crate::program::{Keyset, Parser, ParserState, Transition};
use lex_text::Name;
use std::alloc::{AllocError, Global};

impl Keyset {
    /// An equal key set with the same places.
    pub fn copy(&self, alloc: Global) -> Result<Keyset, AllocError>
        ensures { IfOk result (λ k. keyset_of k ≡ keyset_of self.now) }
    {
        match self {
            Keyset::Any(at) => Ok(Keyset::Any(*at)),
            Keyset::One(at, e) => Ok(Keyset::One(*at, e.copy(alloc)?)),
            Keyset::Masked(at, e, mask) => {
                let e = e.copy(alloc)?;
                let mask = mask.copy(alloc)?;
                Ok(Keyset::Masked(*at, e, mask))
            }
        }
    }
}

fn copy_keysets(alloc: Global, list: &[Keyset]) -> Result<Vec<Keyset>, AllocError>
    ensures { IfOk result (λ v. map keyset_of v.items ≡ map keyset_of list.now) }
{
    let mut copies = Vec::with_capacity(alloc, list.len())?;
    for k in list {
        copies.push(k.copy(alloc)?)?;
    }
    Ok(copies)
}

fn copy_case(alloc: Global, case: &(Vec<Keyset>, Name)) -> Result<(Vec<Keyset>, Name), AllocError>
    ensures { IfOk result (λ c. case_of c ≡ case_of case.now) }
{
    let keys = copy_keysets(alloc, &case.0)?;
    let name = case.1.copy(alloc)?;
    Ok((keys, name))
}

fn copy_cases(
    alloc: Global,
    list: &[(Vec<Keyset>, Name)],
) -> Result<Vec<(Vec<Keyset>, Name)>, AllocError>
    ensures { IfOk result (λ v. map case_of v.items ≡ map case_of list.now) }
{
    let mut copies = Vec::with_capacity(alloc, list.len())?;
    for c in list {
        copies.push(copy_case(alloc, c)?)?;
    }
    Ok(copies)
}

impl Transition {
    /// An equal transition with the same places.
    pub fn copy(&self, alloc: Global) -> Result<Transition, AllocError>
        ensures { IfOk result (λ t. transition_of t ≡ transition_of self.now) }
    {
        match self {
            Transition::None(at) => Ok(Transition::None(*at)),
            Transition::To(at, name) => Ok(Transition::To(*at, name.copy(alloc)?)),
            Transition::Select(at, list, cases) => {
                let list = copy_exprs(alloc, list)?;
                let cases = copy_cases(alloc, cases)?;
                Ok(Transition::Select(*at, list, cases))
            }
        }
    }
}

impl ParserState {
    /// An equal state with the same places.
    pub fn copy(&self, alloc: Global) -> Result<ParserState, AllocError>
        ensures { IfOk result (λ s. state_of s ≡ state_of self.now) }
    {
        Ok(ParserState {
            at: self.at,
            name: self.name.copy(alloc)?,
            body: copy_stmts(alloc, &self.body)?,
            next: self.next.copy(alloc)?,
        })
    }
}

fn copy_states(alloc: Global, list: &[ParserState]) -> Result<Vec<ParserState>, AllocError>
    ensures { IfOk result (λ v. map state_of v.items ≡ map state_of list.now) }
{
    let mut copies = Vec::with_capacity(alloc, list.len())?;
    for s in list {
        copies.push(s.copy(alloc)?)?;
    }
    Ok(copies)
}

impl Parser {
    /// An equal parser with the same places.
    pub fn copy(&self, alloc: Global) -> Result<Parser, AllocError>
        ensures { IfOk result (λ p. parser_of p ≡ parser_of self.now) }
    {
        Ok(Parser {
            at: self.at,
            name: self.name.copy(alloc)?,
            params: copy_params(alloc, &self.params)?,
            states: copy_states(alloc, &self.states)?,
        })
    }
}
