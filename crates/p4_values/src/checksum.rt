//! The checksum of RFC 1071, over bytes.

ghost use Rattle.std.specs.Prelude.{◌≡◌, ℕ, List, ◌∷◌, ◌+◌, ◌*◌};
ghost use Rattle.p4_meaning.specs.Checksum.{ones_sum, bytes_sum, checksum_of};
ghost use Rattle.p4_values.specs.Sums.{sum_from};

/// The one's complement sum of two numbers of 16 bits.
fn ones_sum(a: u16, b: u16) -> u16
    ensures { result ≡ ones_sum a b }
{
    let sum = a as u32 + b as u32;
    (sum % 65_536 + sum / 65_536) as u16
}

/// The number of two bytes, the higher one first.
fn pair(high: u8, low: u8) -> u16
    ensures { result ≡ 256 * high + low }
{
    256 * (high as u16) + low as u16
}

/// The sum, and a byte more; every second byte ends a number.
fn with_byte(sum: u16, high: Option<u8>, byte: u8) -> (u16, Option<u8>)
    ensures { (rest : List ℕ) → sum_from result.0 result.1 rest ≡ sum_from sum high (byte ∷ rest) }
{
    match high {
        None => (sum, Some(byte)),
        Some(high) => (ones_sum(sum, pair(high, byte)), None),
    }
}

/// The one's complement sum of bytes, two by two.
fn bytes_sum(bytes: &[u8]) -> u16
    ensures { result ≡ bytes_sum 0 bytes.now }
{
    let mut sum = 0;
    let mut high = None;
    for byte in bytes {
        let (next, left) = with_byte(sum, high, *byte);
        sum = next;
        high = left;
    }
    match high {
        None => sum,
        Some(high) => ones_sum(sum, pair(high, 0)),
    }
}

/// The checksum of bytes.
pub fn csum16(bytes: &[u8]) -> u16
    ensures { result ≡ checksum_of bytes.now }
{
    65_535 - bytes_sum(bytes)
}
