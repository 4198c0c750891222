//! Terms, and their values.

ghost use Rattle.std.specs.Prelude.{◌≡◌, slice_set};
ghost use Rattle.slot_terms.specs.Terms.{eval, term_of, combined, shifted_right, shifted_left, joined, truth_number, number_in, valid_at, field_at};

use bit_values::Operator;

/// An expression over slots. Its value is a number of 128 bits, which is cut by masks: a mask has as many
/// ones as the width of what it cuts.
#[derive(Drop)]
pub enum Term {
    Word(u128),
    /// The number in a slot.
    Slot(u32),
    /// The number in a slot, or 0 while a header is not valid.
    Field(u32, u32),
    /// Whether a header is valid.
    Valid(u32),
    /// The opposite of a truth value.
    Not(Box<Term>),
    /// Each bit turned round.
    Invert(u128, Box<Term>),
    /// The number that gives 0 with this one.
    Negate(u128, Box<Term>),
    Bin(Operator, u128, Box<Term>, Box<Term>),
    /// The left number, so many bits higher, and the right one behind it.
    Join(u8, Box<Term>, Box<Term>),
    /// The second or the third, by the first.
    Choice(Box<Term>, Box<Term>, Box<Term>),
    /// The bits from one on.
    Cut(u8, u128, Box<Term>),
}

/// The number in a slot; where there is no such slot it is 0.
#[inline(always)]
pub fn number_in(slots: &[u128], slot: u32) -> u128
    ensures { result ≡ number_in slots.now slot }
{
    let slot = slot as usize;
    if slot < slots.len() { slots[slot] } else { 0 }
}

/// A slot gets a number; where there is no such slot nothing is done.
pub fn put_number(slots: &mut [u128], slot: u32, number: u128)
    ensures { slots.new ≡ slice_set slots.old slot number }
{
    let slot = slot as usize;
    if slot < slots.len() {
        slots[slot] = number;
    }
}

/// Whether the header of a number is valid; where there is no such header it is not.
pub fn is_valid(valid: &[bool], header: u32) -> bool
    ensures { result ≡ valid_at valid.now header }
{
    let header = header as usize;
    if header < valid.len() {
        valid[header]
    } else {
        false
    }
}

/// A truth value as a number.
#[inline(always)]
fn truth_number(b: bool) -> u128
    ensures { result ≡ truth_number b }
{
    if b { 1 } else { 0 }
}

/// The bits moved up, as far as 128 bits go.
fn shifted_left(x: u128, y: u128) -> u128
    ensures { result ≡ shifted_left x y }
{
    if y < 128 { x << y } else { 0 }
}

/// The bits moved down.
fn shifted_right(x: u128, y: u128) -> u128
    ensures { result ≡ shifted_right x y }
{
    if y < 128 { x >> y } else { 0 }
}

/// A number, so many bits higher, and another one behind it.
fn joined(low: u8, x: u128, y: u128) -> u128
    ensures { result ≡ joined low x y }
{
    if low < 128 { (x << low) | y } else { y }
}

/// What an operator makes of two numbers; a concatenation is no such node.
#[inline(always)]
fn combined(op: Operator, mask: u128, x: u128, y: u128) -> u128
    ensures { result ≡ combined op mask x y }
{
    match op {
        Operator::Mul => x.wrapping_mul(y) & mask,
        Operator::Add => x.wrapping_add(y) & mask,
        Operator::Sub => x.wrapping_sub(y) & mask,
        Operator::Concat => y,
        Operator::Shl => shifted_left(x, y) & mask,
        Operator::Shr => shifted_right(x, y),
        Operator::BitAnd => x & y,
        Operator::BitXor => x ^ y,
        Operator::BitOr => x | y,
        Operator::Less => truth_number(x < y),
        Operator::LessEq => truth_number(x <= y),
        Operator::More => truth_number(y < x),
        Operator::MoreEq => truth_number(y <= x),
        Operator::Equal => truth_number(x == y),
        Operator::Differ => truth_number(x != y),
        Operator::Both => truth_number(x == 1 && y == 1),
        Operator::Either => truth_number(x == 1 || y == 1),
    }
}

/// What a header's field reads. While the header is not valid that is 0; P4_16 leaves it open.
#[inline(always)]
fn field(slots: &[u128], valid: &[bool], slot: u32, header: u32) -> u128
    ensures { result ≡ field_at slots.now valid.now slot header }
{
    if is_valid(valid, header) {
        number_in(slots, slot)
    } else {
        0
    }
}

/// The value of an operand. A word or a slot is looked at before a call, which takes half of the time.
#[cycle(eval)]
#[inline]
fn operand_value(t: &Term, slots: &[u128], valid: &[bool]) -> u128
    ensures { result ≡ eval slots.now valid.now (term_of t.now) }
{
    match t {
        Term::Word(x) => *x,
        Term::Slot(i) => number_in(slots, *i),
        Term::Field(i, h) => field(slots, valid, *i, *h),
        Term::Valid(_) | Term::Not(_) | Term::Invert(_, _) => eval(t, slots, valid),
        Term::Negate(_, _) | Term::Bin(_, _, _, _) | Term::Join(_, _, _) => eval(t, slots, valid),
        Term::Choice(_, _, _) | Term::Cut(_, _, _) => eval(t, slots, valid),
    }
}

/// The value of a term. Its common nodes stand here, with few calls, so that these are built in line.
#[cycle(eval)]
pub fn eval(t: &Term, slots: &[u128], valid: &[bool]) -> u128
    ensures { result ≡ eval slots.now valid.now (term_of t.now) }
{
    match t {
        Term::Bin(op, mask, a, b) => {
            let x = operand_value(a, slots, valid);
            let y = operand_value(b, slots, valid);
            combined(*op, *mask, x, y)
        }
        Term::Word(x) => *x,
        Term::Slot(i) => number_in(slots, *i),
        Term::Field(i, h) => field(slots, valid, *i, *h),
        Term::Valid(h) => truth_number(is_valid(valid, *h)),
        Term::Not(_) | Term::Invert(_, _) | Term::Negate(_, _) => rare_value(t, slots, valid),
        Term::Join(_, _, _) | Term::Choice(_, _, _) | Term::Cut(_, _, _) => rare_value(
            t, slots, valid,
        ),
    }
}

/// The value of a term whose node is rare.
#[cycle(eval)]
fn rare_value(t: &Term, slots: &[u128], valid: &[bool]) -> u128
    ensures { result ≡ eval slots.now valid.now (term_of t.now) }
{
    match t {
        Term::Not(a) => truth_number(eval(a, slots, valid) != 1),
        Term::Invert(mask, a) => !eval(a, slots, valid) & *mask,
        Term::Negate(mask, a) => 0u128.wrapping_sub(eval(a, slots, valid)) & *mask,
        Term::Join(low, a, b) => {
            let x = eval(a, slots, valid);
            let y = eval(b, slots, valid);
            joined(*low, x, y)
        }
        Term::Choice(test, a, b) => {
            if eval(test, slots, valid) == 1 {
                eval(a, slots, valid)
            } else {
                eval(b, slots, valid)
            }
        }
        Term::Cut(low, mask, a) => shifted_right(eval(a, slots, valid), *low as u128) & *mask,
        Term::Word(x) => *x,
        Term::Slot(i) => number_in(slots, *i),
        Term::Field(i, h) => field(slots, valid, *i, *h),
        Term::Valid(h) => truth_number(is_valid(valid, *h)),
        Term::Bin(op, mask, a, b) => {
            let x = eval(a, slots, valid);
            let y = eval(b, slots, valid);
            combined(*op, *mask, x, y)
        }
    }
}
