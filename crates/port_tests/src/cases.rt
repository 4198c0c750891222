//! The cases of a parser by the port of a frame. All places are 0.

ghost use Rattle.std.specs.Prelude.{◌≡◌, ◌∷◌, IfOk, map, []};
ghost use Rattle.p4_tree.specs.View.{case_of, keyset_of};
ghost use Rattle.linked_halves.specs.ParserStates.{link_case, link_cases};

use lex_text::Name;
use p4_tree::Keyset;
use small_trees::number;
use std::alloc::{AllocError, Global};

/// A case for each port with a link, and then the last.
#[tactic(auto, using(crate::proofs::CaseLists::cases_append))]
pub fn link_cases(
    alloc: Global,
    linked_ports: &[u16],
) -> Result<Vec<(Vec<Keyset>, Name)>, AllocError>
    ensures { IfOk result (λ v. map case_of v.items ≡ link_cases linked_ports.now) }
{
    let mut cases = port_cases(alloc, linked_ports)?;
    cases.push(case(alloc, Keyset::Any(0), "hydra_start")?)?;
    Ok(cases)
}

fn port_cases(alloc: Global, linked_ports: &[u16]) -> Result<Vec<(Vec<Keyset>, Name)>, AllocError>
    ensures { IfOk result (λ v. map case_of v.items ≡ map link_case linked_ports.now) }
{
    let mut cases = Vec::new(alloc);
    for port in linked_ports {
        cases.push(port_case(alloc, *port)?)?;
    }
    Ok(cases)
}

fn port_case(alloc: Global, port: u16) -> Result<(Vec<Keyset>, Name), AllocError>
    ensures { IfOk result (λ c. case_of c ≡ link_case port) }
{
    let key = Keyset::One(0, number(0, u128::from(port)));
    case(alloc, key, "hydra_taken")
}

fn case(alloc: Global, key: Keyset, next: &str) -> Result<(Vec<Keyset>, Name), AllocError>
    ensures { IfOk result (λ c. case_of c ≡ record { keys = keyset_of key ∷ []; next = next.now }) }
{
    let mut keys = Vec::new(alloc);
    keys.push(key)?;
    let next = Name::new(alloc, next)?;
    Ok((keys, next))
}
