//! Numbers of a stated width.

use crate::never::never;
use bit_values::{Bits, put_bits, take_bits};

/// Words of a stated width.
pub fn bits(a: Bits, b: Bits, width: u8, value: u128, low: u8) {
    if never() {
        let _: Bits = Bits::new(width, value);
        let _: Bits = Bits { width, value };
        let _: Bits = Bits::default();
        let _: Bits = a.add(b);
        let _: Bits = a.sub(b);
        let _: Bits = a.mul(b);
        let _: Bits = a.bit_and(b);
        let _: Bits = a.bit_or(b);
        let _: Bits = a.bit_xor(b);
        let _: Bits = a.invert();
        let _: Bits = a.shl(value);
        let _: Bits = a.shr(value);
        let _: Bits = a.concat(b);
        let _: Bits = a.slice(width, low);
        let _: Bits = a.cast(width);
    }
}

/// Bits in bytes.
pub fn bytes(buf: &mut [u8], at: usize, width: u8) {
    if never() {
        let v: Bits = take_bits(buf, at, width);
        put_bits(buf, at, v);
    }
}
