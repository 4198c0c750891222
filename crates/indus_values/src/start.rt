//! What variables hold at the start.

ghost use Rattle.std.specs.Prelude.{◌≡◌, ◌≤◌, ◌∷◌, [], ℕ, List, map, length, true, IfOk};
ghost use Rattle.std.specs.Option.{option_map};
ghost use Rattle.indus_tree.specs.Start.{cells, sensor_of_shape, sensors_start, start_of_shape, start_word, tele_start};
ghost use Rattle.indus_tree.specs.State.{lookup};
ghost use Rattle.indus_tree.specs.View.{decl_of, expr_of, shape_of};
ghost use Rattle.indus_tree.specs.declared.tree.DeclKind.TheVariants.{Sensor, Tele};
ghost use Rattle.indus_values.specs.Lists.{sensor_lists, tele_lists};
ghost use Rattle.indus_values.specs.View.{cells_in, cells_of, is_kind, seats};

use crate::state::{SensorState, TeleState};
use crate::words::{cut, nothing, shape_width, width_of};
use bit_values::{Bits, sound_width, truth};
use indus_tree::{Decl, DeclKind, Expr, Property, Shape};
use std::alloc::{AllocError, Global};

impl TeleState {
    /// What a packet carries before its first hop.
    #[tactic(auto, using(crate::proofs::StartLemmas::tele_starts, crate::proofs::StartLemmas::tele_count))]
    pub fn start(alloc: Global, p: &Property) -> Result<TeleState, AllocError>
        ensures shaped { IfOk result (λ t. length t.items.items ≡ seats Tele (map decl_of p.now.decls.items)) }
        ensures start { let ds = map decl_of p.now.decls.items in
            IfOk result (λ t. (x : List ℕ) → is_kind Tele (lookup ds x) ≡ true → cells_in Tele ds t.items.items x ≡ tele_start ds x) }
    {
        let items = tele_lists(alloc, &p.decls)?;
        Ok(TeleState { items })
    }
}

impl SensorState {
    /// What a switch keeps before any packet.
    #[tactic(auto, using(crate::proofs::StartLemmas::sensor_starts, crate::proofs::StartLemmas::sensor_count))]
    pub fn start(alloc: Global, p: &Property) -> Result<SensorState, AllocError>
        ensures shaped { IfOk result (λ s. length s.cells.items ≡ seats Sensor (map decl_of p.now.decls.items)) }
        ensures start { let ds = map decl_of p.now.decls.items in
            IfOk result (λ s. (x : List ℕ) → is_kind Sensor (lookup ds x) ≡ true → cells_in Sensor ds s.cells.items x ≡ sensors_start ds x) }
    {
        let cells = sensor_lists(alloc, &p.decls)?;
        Ok(SensorState { cells })
    }
}

fn copies(alloc: Global, n: u8, w: Bits) -> Result<Vec<Bits>, AllocError>
    ensures { IfOk result (λ v. v.items ≡ cells n w) }
{
    let mut all = Vec::new(alloc);
    for i in 0..n {
        all.push(w)?;
    }
    Ok(all)
}

fn start_of_shape(alloc: Global, shape: &Shape) -> Result<Vec<Bits>, AllocError>
    ensures { IfOk result (λ v. v.items ≡ start_of_shape (shape_of shape.now)) }
{
    match shape {
        Shape::One(ty) => copies(alloc, 1, nothing(width_of(*ty))),
        Shape::List(_, _) => Ok(Vec::new(alloc)),
        Shape::SetOf(_) => Ok(Vec::new(alloc)),
        Shape::DictOf(_, _) => Ok(Vec::new(alloc)),
    }
}

fn start_word(start: &Option<Expr>, w: u8) -> Bits
    ensures { result ≡ start_word (option_map expr_of start.now) w }
{
    match start {
        None => nothing(w),
        Some(e) => match e {
            Expr::Num(_, n) => cut(sound_width(w), n.value),
            Expr::Flag(_, value) => cut(sound_width(w), truth(*value).value),
            Expr::Read(_, _) => nothing(w),
            Expr::Length(_, _) => nothing(w),
            Expr::Index(_, _, _) => nothing(w),
            Expr::Member(_, _, _) => nothing(w),
            Expr::Not(_, _) => nothing(w),
            Expr::Invert(_, _) => nothing(w),
            Expr::Bin(_, _, _, _) => nothing(w),
            Expr::Cast(_, _, _) => nothing(w),
        },
    }
}

fn sensor_of_shape(alloc: Global, shape: &Shape, w: Bits) -> Result<Vec<Bits>, AllocError>
    ensures { IfOk result (λ v. v.items ≡ sensor_of_shape (shape_of shape.now) w) }
{
    match shape {
        Shape::One(_) => copies(alloc, 1, w),
        Shape::List(_, n) => copies(alloc, *n, w),
        Shape::SetOf(_) => Ok(Vec::new(alloc)),
        Shape::DictOf(_, _) => Ok(Vec::new(alloc)),
    }
}

fn tele_lists(alloc: Global, decls: &[Decl]) -> Result<Vec<Vec<Bits>>, AllocError>
    ensures { IfOk result (λ v. map cells_of v.items ≡ tele_lists (map decl_of decls.now)) }
{
    let mut lists = Vec::new(alloc);
    for d in decls {
        match d.kind {
            DeclKind::Tele => lists.push(start_of_shape(alloc, &d.shape)?)?,
            DeclKind::Sensor => {}
            DeclKind::Header => {}
            DeclKind::Control => {}
        }
    }
    Ok(lists)
}

fn sensor_lists(alloc: Global, decls: &[Decl]) -> Result<Vec<Vec<Bits>>, AllocError>
    ensures { IfOk result (λ v. map cells_of v.items ≡ sensor_lists (map decl_of decls.now)) }
{
    let mut lists = Vec::new(alloc);
    for d in decls {
        match d.kind {
            DeclKind::Sensor => {
                let w = start_word(&d.start, shape_width(&d.shape));
                lists.push(sensor_of_shape(alloc, &d.shape, w)?)?;
            }
            DeclKind::Tele => {}
            DeclKind::Header => {}
            DeclKind::Control => {}
        }
    }
    Ok(lists)
}
