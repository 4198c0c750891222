//! The names that a parser and a control give their parameters.

ghost use Rattle.std.specs.Prelude.{◌≡◌, IfOk};
ghost use Rattle.p4_tree.specs.View.{control_of, parser_of};
ghost use Rattle.p4_resolved.specs.Scopes.{roots_in};
ghost use Rattle.linked_programs.specs.Linked.{control_roots, parser_roots};

use p4_resolved::{Roots, roots_of};
use p4_tree::{Control, Parser};
use std::alloc::{AllocError, Global};

/// Of a parser: its headers, its metadata and the standard metadata, behind the packet.
pub(crate) fn parser_roots(alloc: Global, d: &Parser) -> Result<Roots, AllocError>
    ensures { IfOk result (λ r. roots_in r ≡ parser_roots (parser_of d.now)) }
{
    roots_of(alloc, &d.params, 1, 2, 3)
}

/// Of a control: its first three parameters, which are headers, metadata and the standard metadata in
/// ingress and egress.
pub fn control_roots(alloc: Global, c: &Control) -> Result<Roots, AllocError>
    ensures { IfOk result (λ r. roots_in r ≡ control_roots (control_of c.now)) }
{
    roots_of(alloc, &c.params, 0, 1, 2)
}
