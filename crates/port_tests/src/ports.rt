//! Tests of ports. All places are 0.

ghost use Rattle.std.specs.Prelude.{◌≡◌, ◌∷◌, IfOk, map, []};
ghost use Rattle.p4_tree.specs.View.{expr_of};
ghost use Rattle.linked_halves.specs.Statements as around;

use p4_tree::{Expr, Op};
use small_trees::{at_path, binary, negated, number, two_names};
use std::alloc::{AllocError, Global};

/// Whether a field holds none of some ports.
pub fn none_of(alloc: Global, root: &str, field: &str, ports: &[u16]) -> Result<Expr, AllocError>
    ensures { IfOk result (λ e. expr_of e ≡ around.none_of (root.now ∷ field.now ∷ []) ports.now) }
{
    let here = is_port_of(alloc, root, field, ports)?;
    negated(alloc, here)
}

/// Whether the field holds one of the ports: 511 tests are one when they are joined nine times.
fn is_port_of(alloc: Global, root: &str, field: &str, ports: &[u16]) -> Result<Expr, AllocError>
    ensures { IfOk result (λ e. expr_of e ≡ around.is_port_of (root.now ∷ field.now ∷ []) ports.now) }
{
    let tests = port_tests(alloc, root, field, ports)?;
    let tests = joined(alloc, 9, tests)?;
    any_of(alloc, tests)
}

/// A test for each port.
fn port_tests(
    alloc: Global,
    root: &str,
    field: &str,
    ports: &[u16],
) -> Result<Vec<Expr>, AllocError>
    ensures { IfOk result (λ v. map expr_of v.items ≡ map (around.port_test (root.now ∷ field.now ∷ [])) ports.now) }
{
    let mut tests = Vec::new(alloc);
    for port in ports {
        tests.push(port_test(alloc, root, field, *port)?)?;
    }
    Ok(tests)
}

/// Whether the field holds a port.
fn port_test(alloc: Global, root: &str, field: &str, port: u16) -> Result<Expr, AllocError>
    ensures { IfOk result (λ e. expr_of e ≡ around.port_test (root.now ∷ field.now ∷ []) port) }
{
    let path = two_names(alloc, root, field)?;
    binary(alloc, Op::Equal, at_path(path), number(0, u128::from(port)))
}

/// Neighbours are joined by `||`, so many times: so the test of many ports is not high.
fn joined(alloc: Global, times: u8, tests: Vec<Expr>) -> Result<Vec<Expr>, AllocError>
    ensures { IfOk result (λ v. map expr_of v.items ≡ around.joined times (map expr_of tests.items)) }
{
    if times == 0 {
        return Ok(tests);
    }
    let pairs = joined_pairs(alloc, tests)?;
    joined(alloc, times - 1, pairs)
}

/// Neighbours are joined by `||`.
fn joined_pairs(alloc: Global, tests: Vec<Expr>) -> Result<Vec<Expr>, AllocError>
    ensures { IfOk result (λ v. map expr_of v.items ≡ around.joined_pairs (map expr_of tests.items)) }
{
    let mut pairs = Vec::new(alloc);
    let mut rest = tests.into_iter();
    while let Some(one) = rest.next() {
        match rest.next() {
            None => pairs.push(one)?,
            Some(other) => pairs.push(binary(alloc, Op::Either, one, other)?)?,
        }
    }
    Ok(pairs)
}

/// One of these holds.
fn any_of(alloc: Global, tests: Vec<Expr>) -> Result<Expr, AllocError>
    ensures { IfOk result (λ e. expr_of e ≡ around.any_of (map expr_of tests.items)) }
{
    let mut tests = tests;
    let Some(last) = tests.pop() else {
        return Ok(Expr::Flag(0, false));
    };
    let mut all = last;
    while let Some(one) = tests.pop() {
        all = binary(alloc, Op::Either, one, all)?;
    }
    Ok(all)
}
