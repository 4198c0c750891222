//! Texts that are addresses: bytes joined by marks.

ghost use Rattle.std.specs.Prelude.{◌≡◌, ◌≤◌, ◌<◌, option_map, IfSome};
ghost use Rattle.std.specs.List.{list_all};
ghost use Rattle.lex_text.specs.NameToken.{is_digit};
ghost use Rattle.json_values.specs.Texts.{marks_of, octet_of, pair_of, byte_of, front_of, bytes_from, address_of};

use crate::digits::{digit, digits_value};

/// How the bytes of an address are written.
#[derive(Clone, Copy)]
pub enum Form {
    /// In decimal digits, joined by dots.
    Dotted,
    /// By two hexadecimal digits each, joined by colons.
    Coloned,
}

fn is_plain(text: &[u8]) -> bool
    ensures { result ≡ list_all is_digit text.now }
{
    text.iter().all(|byte| byte.is_ascii_digit())
}

fn octet(text: &[u8]) -> Option<u128>
    ensures { result ≡ octet_of text.now }
{
    if !is_plain(text) {
        return None;
    }
    digits_value(10, text).filter(|value| *value < 256)
}

fn pair(text: &[u8]) -> Option<u128>
    ensures value { result ≡ pair_of text.now }
    ensures small { IfSome result (λ n. n < 256) }
{
    let [high, low] = text else {
        return None;
    };
    let high = digit(16, *high)?;
    let low = digit(16, *low)?;
    Some((high * 16 + low) as u128)
}

fn byte(form: Form, text: &[u8]) -> Option<u128>
    ensures value { result ≡ byte_of form text.now }
    ensures small { IfSome result (λ n. n < 256) }
{
    match form {
        Form::Dotted => octet(text),
        Form::Coloned => pair(text),
    }
}

/// The byte before the first mark, and the text behind it.
fn front(form: Form, text: &str) -> Option<(u128, &str)>
    ensures value { option_map (λ f. (f.0, f.1.now)) result ≡ front_of form text.now }
    ensures small { IfSome result (λ f. f.0 < 256) }
{
    let (front, rest) = match form {
        Form::Dotted => text.split_once('.')?,
        Form::Coloned => text.split_once(':')?,
    };
    Some((byte(form, front.as_bytes())?, rest))
}

fn marks(form: Form) -> u32
    ensures value { result ≡ marks_of form }
    ensures few { result ≤ 5 }
{
    match form {
        Form::Dotted => 3,
        Form::Coloned => 5,
    }
}

/// The number that the address is.
pub(crate) fn address_value(form: Form, text: &str) -> Option<u128>
    ensures { result ≡ address_of form text.now }
{
    let mut before = 0;
    let mut rest = text;
    let marks = marks(form);
    for i in 0..marks {
        let (byte, behind) = front(form, rest)?;
        before = before * 256 + byte;
        rest = behind;
    }
    Some(before * 256 + byte(form, rest.as_bytes())?)
}
