//! Texts that are numbers.

ghost use Rattle.std.specs.Prelude.{◌≡◌, ◌≤◌, ◌<◌, ◌+◌, ◌*◌, ◌^◌, IfSome, IfNone, SomeIff};
ghost use Rattle.std.specs.Char.{digit_value};
ghost use Rattle.std.specs.List.{list_all};
ghost use Rattle.lex_text.specs.Numbers.{is_digit_of, is_in_digits, are_digits, value_from};
ghost use Rattle.json_values.specs.Texts.{digits_of, number_of};

pub(crate) fn digit(base: u32, byte: u8) -> Option<u32>
    requires least { 2 ≤ base }
    requires most { base ≤ 36 }
    ensures { SomeIff result (digit_value byte < base) (digit_value byte) }
{
    (byte as char).to_digit(base)
}

fn is_digit(base: u32, byte: u8) -> bool
    requires least { 2 ≤ base }
    requires most { base ≤ 36 }
    ensures { result ≡ is_digit_of base byte }
{
    (byte as char).is_digit(base)
}

fn is_in_digits(base: u32, byte: u8) -> bool
    requires least { 2 ≤ base }
    requires most { base ≤ 36 }
    ensures { result ≡ is_in_digits base byte }
{
    is_digit(base, byte) || byte == b'_'
}

fn all_in_digits(base: u32, bytes: &[u8]) -> bool
    requires least { 2 ≤ base }
    requires most { base ≤ 36 }
    ensures { result ≡ list_all (is_in_digits base) bytes.now }
{
    bytes.iter().all(|byte| is_in_digits(base, *byte))
}

/// Digits of the base, one or more, with `_` between or behind them.
fn are_digits(base: u32, text: &[u8]) -> bool
    requires least { 2 ≤ base }
    requires most { base ≤ 36 }
    ensures { result ≡ are_digits base text.now }
{
    match text {
        [] => false,
        [first, rest @ ..] => is_digit(base, *first) && all_in_digits(base, rest),
    }
}

/// One digit more, or `None` where the value is 2^128 or more.
fn one_more(base: u32, value: u128, digit: u32) -> Option<u128>
    ensures small { IfSome result (λ more. more ≡ value * base + digit) }
    ensures large { IfNone result (2 ^ 128 ≤ value * base + digit) }
{
    value.checked_mul(base as u128)?.checked_add(digit as u128)
}

/// The value of digits, or `None` where it is 2^128 or more.
fn value(base: u32, digits: &[u8]) -> Option<u128>
    requires least { 2 ≤ base }
    requires most { base ≤ 36 }
    ensures small { IfSome result (λ v. v ≡ value_from base 0 digits.now) }
    ensures large { IfNone result (2 ^ 128 ≤ value_from base 0 digits.now) }
{
    let mut value: u128 = 0;
    for byte in digits {
        if let Some(digit) = digit(base, *byte) {
            value = one_more(base, value, digit)?;
        }
    }
    Some(value)
}

/// The number that the digits write, if it is below 2^128.
pub(crate) fn digits_value(base: u32, text: &[u8]) -> Option<u128>
    requires least { 2 ≤ base }
    requires most { base ≤ 36 }
    ensures { result ≡ digits_of base text.now }
{
    if !are_digits(base, text) {
        return None;
    }
    value(base, text)
}

/// The number that the text is, if it is below 2^128.
pub(crate) fn number_value(text: &[u8]) -> Option<u128>
    ensures { result ≡ number_of text.now }
{
    match text {
        [b'0', b'x' | b'X', digits @ ..] => digits_value(16, digits),
        [b'0', b'b' | b'B', digits @ ..] => digits_value(2, digits),
        _ => digits_value(10, text),
    }
}
