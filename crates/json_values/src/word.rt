//! The word that a value is.

ghost use Rattle.std.specs.Prelude.{◌≡◌, ◌≤◌, ◌^◌, option_map};
ghost use Rattle.serde_json.specs.View.{view};
ghost use Rattle.json_values.specs.Texts.{text_value};
ghost use Rattle.json_values.specs.Words as words;
ghost use Rattle.json_values.specs.Views.{Gives};

use crate::address::{Form, address_value};
use crate::digits::number_value;
use crate::refused::value_refused;
use bit_values::{Bits, sound_width, truth};
use serde_json::Value;
use std::alloc::Global;
use table_faults::TableFault;

/// What word a place takes.
#[derive(Clone, Copy, Debug, PartialEq, Eq)]
pub enum WordKind {
    /// A number of so many bits.
    Number(u8),
    /// A truth value, which is one bit.
    Truth,
    /// A truth value, which may also be the number 1 or 0.
    TruthOrBit,
}

/// The number in a width, where it fits.
fn fitting(width: u8, value: u128) -> Option<Bits>
    requires wide { 1 ≤ width }
    requires narrow { width ≤ 128 }
    ensures { result ≡ words.fitting width value }
{
    let word = Bits::new(128, value).cast(width);
    if word.value != value {
        return None;
    }
    Some(word)
}

/// The number that the text is in a place of a width.
fn text_value(width: u8, text: &str) -> Option<u128>
    ensures { result ≡ text_value width text.now }
{
    match width {
        32 => number_value(text.as_bytes()).or_else(|| address_value(Form::Dotted, text)),
        48 => number_value(text.as_bytes()).or_else(|| address_value(Form::Coloned, text)),
        _ => number_value(text.as_bytes()),
    }
}

/// The number that a value is in a place of a width.
fn number(width: u8, value: &Value) -> Option<u128>
    ensures { result ≡ words.number_in width (view value.now) }
{
    match value.as_str() {
        Some(text) => text_value(width, text),
        None => Some(value.as_u64()? as u128),
    }
}

/// A bit that is written as the number 1 or 0.
fn bit(value: &Value) -> Option<Bits>
    ensures { result ≡ words.bit_of (view value.now) }
{
    match value.as_u64()? {
        0 => Some(truth(false)),
        1 => Some(truth(true)),
        _ => None,
    }
}

/// The word that a value is in a place of the kind.
pub fn word_of(kind: WordKind, value: &Value) -> Option<Bits>
    ensures { result ≡ words.word_of kind (view value.now) }
{
    match kind {
        WordKind::Number(width) => {
            let width = sound_width(width);
            fitting(width, number(width, value)?)
        }
        WordKind::Truth => Some(truth(value.as_bool()?)),
        WordKind::TruthOrBit => match value.as_bool() {
            Some(is_true) => Some(truth(is_true)),
            None => bit(value),
        },
    }
}

/// The word that the value at a path is.
///
/// # Errors
///
/// `Value` with the path exactly where it is none; else `NoMemory` alone, where memory runs out.
pub fn read_word(
    alloc: Global,
    path: &str,
    kind: WordKind,
    value: &Value,
) -> Result<Bits, TableFault>
    ensures { Gives (λ word. word) result (words.word_at path.now kind (view value.now)) }
{
    match word_of(kind, value) {
        Some(word) => Ok(word),
        None => Err(value_refused(alloc, path)),
    }
}
