//! Parser states under a scope.

ghost use Rattle.std.specs.Prelude.{◌≡◌, IfOk, map};
ghost use Rattle.p4_tree.specs.View.{stmt_of, keyset_of, case_of, transition_of, state_of};
ghost use Rattle.p4_meaning.specs.Under.{stmt_under, keyset_under, case_under, transition_under, state_under};
ghost use Rattle.p4_resolved.specs.Scopes.{scope_of};

use crate::scope::Scope;
use crate::under::{expr_under, exprs_under, stmt_under};
use lex_text::Name;
use p4_tree::{Keyset, ParserState, Stmt, Transition};
use std::alloc::{AllocError, Global};

fn keyset_under(alloc: Global, sc: &Scope, k: &Keyset) -> Result<Keyset, AllocError>
    ensures { IfOk result (λ t. keyset_of t ≡ keyset_under (scope_of sc.now) (keyset_of k.now)) }
{
    match k {
        Keyset::Any(at) => Ok(Keyset::Any(*at)),
        Keyset::One(at, e) => Ok(Keyset::One(*at, expr_under(alloc, sc, e)?)),
        Keyset::Masked(at, e, m) => {
            let e = expr_under(alloc, sc, e)?;
            let m = expr_under(alloc, sc, m)?;
            Ok(Keyset::Masked(*at, e, m))
        }
    }
}

fn keysets_under(alloc: Global, sc: &Scope, list: &[Keyset]) -> Result<Vec<Keyset>, AllocError>
    ensures { IfOk result (λ v. map keyset_of v.items ≡ map (keyset_under (scope_of sc.now)) (map keyset_of list.now)) }
{
    let mut copies = Vec::new(alloc);
    for k in list {
        copies.push(keyset_under(alloc, sc, k)?)?;
    }
    Ok(copies)
}

fn cases_under(
    alloc: Global,
    sc: &Scope,
    list: &[(Vec<Keyset>, Name)],
) -> Result<Vec<(Vec<Keyset>, Name)>, AllocError>
    ensures { IfOk result (λ v. map case_of v.items ≡ map (case_under (scope_of sc.now)) (map case_of list.now)) }
{
    let mut copies = Vec::new(alloc);
    for c in list {
        let keys = keysets_under(alloc, sc, &c.0)?;
        let next = c.1.copy(alloc)?;
        copies.push((keys, next))?;
    }
    Ok(copies)
}

fn transition_under(alloc: Global, sc: &Scope, next: &Transition) -> Result<Transition, AllocError>
    ensures { IfOk result (λ t. transition_of t ≡ transition_under (scope_of sc.now) (transition_of next.now)) }
{
    match next {
        Transition::None(at) => Ok(Transition::None(*at)),
        Transition::To(at, name) => Ok(Transition::To(*at, name.copy(alloc)?)),
        Transition::Select(at, list, cases) => {
            let list = exprs_under(alloc, sc, list)?;
            let cases = cases_under(alloc, sc, cases)?;
            Ok(Transition::Select(*at, list, cases))
        }
    }
}

fn body_under(alloc: Global, sc: &Scope, list: &[Stmt]) -> Result<Vec<Stmt>, AllocError>
    ensures { IfOk result (λ v. map stmt_of v.items ≡ map (stmt_under (scope_of sc.now)) (map stmt_of list.now)) }
{
    let mut copies = Vec::new(alloc);
    for s in list {
        copies.push(stmt_under(alloc, sc, s)?)?;
    }
    Ok(copies)
}

/// States.
pub fn states_under(
    alloc: Global,
    sc: &Scope,
    list: &[ParserState],
) -> Result<Vec<ParserState>, AllocError>
    ensures { IfOk result (λ v. map state_of v.items ≡ map (state_under (scope_of sc.now)) (map state_of list.now)) }
{
    let mut copies = Vec::new(alloc);
    for s in list {
        copies.push(state_under(alloc, sc, s)?)?;
    }
    Ok(copies)
}

fn state_under(alloc: Global, sc: &Scope, s: &ParserState) -> Result<ParserState, AllocError>
    ensures { IfOk result (λ t. state_of t ≡ state_under (scope_of sc.now) (state_of s.now)) }
{
    Ok(ParserState {
        at: s.at,
        name: s.name.copy(alloc)?,
        body: body_under(alloc, sc, &s.body)?,
        next: transition_under(alloc, sc, &s.next)?,
    })
}
