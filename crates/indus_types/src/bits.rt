//! The bits of the telemetry.

ghost use Rattle.std.specs.Prelude.{◌≡◌, ◌≤◌, map};
ghost use Rattle.indus_tree.specs.State.{width_of};
ghost use Rattle.indus_tree.specs.View.{decl_of, property_of, shape_of};
ghost use Rattle.indus_types.specs.Sums.{cut_wide, shape_bits, decls_bits, property_bits};

use indus_tree::{Decl, DeclKind, Property, Shape, Ty};

fn ty_bits(t: Ty) -> u64
    ensures value { result ≡ width_of t }
    ensures small { result ≤ 255 }
{
    match t {
        Ty::Bit(w) => w as u64,
        Ty::Bool => 1,
    }
}

#[tactic(auto, using(crate::proofs::Cuts::product))]
fn shape_bits(s: &Shape) -> u64
    ensures { result ≡ shape_bits (shape_of s.now) }
{
    match s {
        Shape::One(t) => ty_bits(*t),
        Shape::List(t, n) => *n as u64 * ty_bits(*t) + 8,
        _ => 0,
    }
}

fn decls_bits(decls: &[Decl]) -> u64
    ensures { result ≡ cut_wide (decls_bits (map decl_of decls.now)) }
{
    let mut sum: u64 = 0;
    for d in decls {
        sum = sum.saturating_add(match d.kind {
            DeclKind::Tele => shape_bits(&d.shape),
            _ => 0,
        });
    }
    sum
}

/// The bits of the telemetry.
pub fn property_bits(p: &Property) -> u64
    ensures { result ≡ cut_wide (property_bits (property_of p.now)) }
{
    decls_bits(&p.decls).saturating_add(8)
}
