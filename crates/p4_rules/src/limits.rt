//! What is counted of a program.

ghost use Rattle.std.specs.Prelude.{◌≡◌, map};
ghost use Rattle.p4_tree.specs.View.{local_of, top_of};
ghost use Rattle.p4_scopes.specs.View.{scope_of};
ghost use Rattle.p4_rules.specs.Limits.{fields_bytes, add_cells, local_cells, locals_cells, top_cells, tops_cells};

use lex_text::Name;
use p4_scopes::scope::Scope;
use p4_tree::{Local, PTy, Top};

/// The bytes of the headers that are fields.
pub(crate) fn fields_bytes(scope: &Scope, fields: &[(PTy, Name)]) -> u32
    ensures { result ≡ fields_bytes (scope_of scope.now) fields.now }
{
    let mut bytes: u32 = 0;
    for field in fields {
        bytes = bytes.saturating_add(scope.thing_in(&field.0).header_bits() / 8);
    }
    bytes
}

/// A sum that stops at the greatest number.
fn add_cells(cells: u64, count: u128) -> u64
    ensures { result ≡ add_cells cells count }
{
    let sum = u128::from(cells).saturating_add(count);
    u64::try_from(sum).unwrap_or(u64::MAX)
}

fn local_cells(local: &Local) -> u128
    ensures { result ≡ local_cells (local_of local.now) }
{
    match local {
        Local::Reg(_, register) => register.count,
        Local::Act(_, _) | Local::Tab(_, _) | Local::Const(_, _, _, _) => 0,
        Local::Var(_, _, _, _) => 0,
    }
}

fn locals_cells(locals: &[Local]) -> u64
    ensures { result ≡ locals_cells (map local_of locals.now) }
{
    let mut cells = 0;
    for local in locals {
        cells = add_cells(cells, local_cells(local));
    }
    cells
}

fn top_cells(top: &Top) -> u128
    ensures { result ≡ top_cells (top_of top.now) }
{
    match top {
        Top::Reg(_, register) => register.count,
        Top::Ctl(_, control) => u128::from(locals_cells(&control.locals)),
        Top::Const(_, _, _, _) | Top::Typedef(_, _, _) | Top::Header(_, _, _) => 0,
        Top::Struct(_, _, _) | Top::Pars(_, _) => 0,
    }
}

/// The cells of all registers.
pub(crate) fn tops_cells(tops: &[Top]) -> u64
    ensures { result ≡ tops_cells (map top_of tops.now) }
{
    let mut cells = 0;
    for top in tops {
        cells = add_cells(cells, top_cells(top));
    }
    cells
}
