//! Numbers in expressions.

ghost use Rattle.std.specs.Prelude.{◌≡◌, ◌≤◌, slice_get};
ghost use Rattle.bit_values.specs.Bits.{word, cast};
ghost use Rattle.indus_tree.specs.State.{nothing_of, shape_size, shape_width, width_of};
ghost use Rattle.indus_tree.specs.Reads.{or_word};
ghost use Rattle.indus_tree.specs.View.{shape_of};

use bit_values::{Bits, sound_width};
use indus_tree::{Shape, Ty};

/// The lowest bits of a number.
pub fn cut(width: u8, value: u128) -> Bits
    requires wide { 1 ≤ width }
    requires narrow { width ≤ 128 }
    ensures { result ≡ word width (cast width value) }
{
    Bits::new(128, value).cast(width)
}

/// 0 or false of a width.
pub fn nothing(w: u8) -> Bits
    ensures { result ≡ nothing_of w }
{
    cut(sound_width(w), 0)
}

/// The bits of a value of a type.
pub fn width_of(ty: Ty) -> u8
    ensures { result ≡ width_of ty }
{
    match ty {
        Ty::Bit(w) => w,
        Ty::Bool => 1,
    }
}

/// The bits of one value of a shape.
pub fn shape_width(shape: &Shape) -> u8
    ensures { result ≡ shape_width (shape_of shape.now) }
{
    match shape {
        Shape::One(ty) => width_of(*ty),
        Shape::List(ty, _) => width_of(*ty),
        Shape::SetOf(_) => 1,
        Shape::DictOf(_, ty) => width_of(*ty),
    }
}

/// How many items a list holds at most.
pub fn shape_size(shape: &Shape) -> u8
    ensures { result ≡ shape_size (shape_of shape.now) }
{
    match shape {
        Shape::One(_) => 0,
        Shape::List(_, size) => *size,
        Shape::SetOf(_) => 0,
        Shape::DictOf(_, _) => 0,
    }
}

/// The word at a place, and 0 or false of a width where there is none.
pub fn word_at(words: &[Bits], n: u128, w: u8) -> Bits
    ensures { result ≡ or_word (slice_get words.now n) (nothing_of w) }
{
    if n < words.len() as u128 {
        words[n as usize]
    } else {
        nothing(w)
    }
}
