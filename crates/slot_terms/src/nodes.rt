//! Nodes of terms, each made of its operands.

ghost use Rattle.std.specs.Prelude.{◌≡◌, IfOk};
ghost use Rattle.slot_terms.specs.Places.{place_term};
ghost use Rattle.slot_terms.specs.Terms.{term_of, inversion, opposite, binary, join, cut};

use crate::term::Term;
use bit_values::Operator;
use std::alloc::{AllocError, Global};

/// Each bit turned round, as far as the mask goes.
pub(crate) fn inversion_node(alloc: Global, mask: u128, a: Term) -> Result<Term, AllocError>
    ensures { IfOk result (λ t. term_of t ≡ inversion mask (term_of a)) }
{
    Ok(Term::Invert(mask, Box::new(alloc, a)?))
}

/// The number that gives 0 with this one, as far as the mask goes.
pub(crate) fn opposite_node(alloc: Global, mask: u128, a: Term) -> Result<Term, AllocError>
    ensures { IfOk result (λ t. term_of t ≡ opposite mask (term_of a)) }
{
    Ok(Term::Negate(mask, Box::new(alloc, a)?))
}

/// The bits from one on, as far as the mask goes.
pub(crate) fn cut_node(alloc: Global, low: u8, mask: u128, a: Term) -> Result<Term, AllocError>
    ensures { IfOk result (λ t. term_of t ≡ cut low mask (term_of a)) }
{
    Ok(Term::Cut(low, mask, Box::new(alloc, a)?))
}

/// A number, so many bits higher, and another one behind it.
pub(crate) fn join_node(alloc: Global, low: u8, a: Term, b: Term) -> Result<Term, AllocError>
    ensures { IfOk result (λ t. term_of t ≡ join low (term_of a) (term_of b)) }
{
    let a = Box::new(alloc, a)?;
    let b = Box::new(alloc, b)?;
    Ok(Term::Join(low, a, b))
}

/// An operator on two numbers, as far as the mask goes.
pub(crate) fn binary_node(
    alloc: Global,
    op: Operator,
    mask: u128,
    a: Term,
    b: Term,
) -> Result<Term, AllocError>
    ensures { IfOk result (λ t. term_of t ≡ binary op mask (term_of a) (term_of b)) }
{
    let a = Box::new(alloc, a)?;
    let b = Box::new(alloc, b)?;
    Ok(Term::Bin(op, mask, a, b))
}

/// What a place reads.
pub(crate) fn place_node(slot: u32, header: Option<u32>) -> Term
    ensures { term_of result ≡ place_term slot header }
{
    match header {
        None => Term::Slot(slot),
        Some(header) => Term::Field(slot, header),
    }
}
