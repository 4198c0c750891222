//! The bits behind the headers, which the parser did not consume.

ghost use Rattle.std.specs.Prelude.{◌≡◌, ◌≤◌, ◌<◌, ◌+◌, ◌-◌, ◌*◌, ◌/◌, ◌^◌, ◌++◌, length, take, drop};
ghost use Rattle.bit_values.specs.Bytes.{bits_of};
ghost use Rattle.bit_writer.specs.Bytes.{bytes_of};

use slot_packets::write_number;

/// Writes bytes behind the bits before `at`, one by one.
fn put_bytes(bytes: &[u8], buffer: &mut [u8], at: usize) -> usize
    requires short { length buffer.old < 2 ^ 29 }
    requires within { at + 8 * length bytes.now ≤ 8 * length buffer.old }
    ensures grown { take result (bits_of buffer.new) ≡ take at (bits_of buffer.old) ++ bits_of bytes.now }
    ensures end { result ≡ at + 8 * length bytes.now }
{
    let mut end = at;
    for i in 0..bytes.len() {
        write_number(buffer, end, 8, bytes[i] as u128);
        end += 8;
    }
    end
}

/// Copies bytes behind the first ones.
fn copy_bytes(bytes: &[u8], buffer: &mut [u8], first: usize)
    requires { first + length bytes.now ≤ length buffer.old }
    ensures { take (first + length bytes.now) buffer.new ≡ take first buffer.old ++ bytes.now }
{
    let end = first + bytes.len();
    buffer[first..end].copy_from_slice(bytes);
}

/// Writes bytes behind the bits before `at`.
fn emit_bytes(bytes: &[u8], buffer: &mut [u8], at: usize) -> usize
    requires short { length buffer.old < 2 ^ 29 }
    requires within { at + 8 * length bytes.now ≤ 8 * length buffer.old }
    ensures grown { take result (bits_of buffer.new) ≡ take at (bits_of buffer.old) ++ bits_of bytes.now }
    ensures end { result ≡ at + 8 * length bytes.now }
{
    if at % 8 > 0 {
        return put_bytes(bytes, buffer, at);
    }
    copy_bytes(bytes, buffer, at / 8);
    at + 8 * bytes.len()
}

/// Writes the bits of bytes but for the first `skip` ones behind the bits before `at`, and says how many
/// whole bytes there are then.
pub fn emit_rest(rest: &[u8], skip: u8, buffer: &mut [u8], at: usize) -> usize
    requires few { skip ≤ 7 }
    requires short { length buffer.old < 2 ^ 29 }
    requires within { at + 8 * length rest.now ≤ 8 * length buffer.old }
    ensures bytes { take result buffer.new ≡ bytes_of (take at (bits_of buffer.old) ++ drop skip (bits_of rest.now)) }
    ensures within { result ≤ length buffer.new }
{
    if rest.is_empty() {
        return at / 8;
    }
    let width = 8 - skip;
    write_number(buffer, at, width, rest[0] as u128);
    emit_bytes(&rest[1..], buffer, at + width as usize) / 8
}
