//! The words and the matches that the values of an entry say.

ghost use Rattle.std.specs.Prelude.{◌≡◌, map, option_map};
ghost use Rattle.serde_json.specs.View.{view};
ghost use Rattle.json_parts.specs.Paths.{item_below};
ghost use Rattle.json_values.specs.Views.{Gives};
ghost use Rattle.table_entries.specs.View.{match_of};
ghost use Rattle.entry_parts.specs.Matches as matches;
ghost use Rattle.entry_parts.specs.Written.{masked as masked_part};
ghost use Rattle.entry_parts.specs.Views.{part_view, part_views};

use crate::parts::Part;
use bit_values::Bits;
use json_parts::item_path;
use json_values::{WordKind, read_word, value_refused};
use p4_tables::{Match, ValueShape};
use serde_json::Value;
use std::alloc::Global;
use table_faults::TableFault;

fn word_kind(holds: ValueShape) -> WordKind
    ensures { result ≡ matches.word_kind holds }
{
    if holds.is_truth {
        WordKind::TruthOrBit
    } else {
        WordKind::Number(holds.width)
    }
}

fn value(alloc: Global, path: &str, holds: ValueShape, value: &Value) -> Result<Bits, TableFault>
    ensures { Gives (λ word. word) result (matches.value_at path.now holds (view value.now)) }
{
    read_word(alloc, path, word_kind(holds), value)
}

/// The value at an element of the array at a path.
fn part_value(
    alloc: Global,
    path: &str,
    number: usize,
    holds: ValueShape,
    part: &Value,
) -> Result<Bits, TableFault>
    ensures { Gives (λ word. word) result
        (matches.value_at (item_below path.now number) holds (view part.now)) }
{
    let path = item_path(alloc, path, number)?;
    value(alloc, path.as_str(), holds, part)
}

fn arg(
    alloc: Global,
    path: &str,
    number: usize,
    params: &[ValueShape],
    arg: &Value,
) -> Result<Bits, TableFault>
    ensures { Gives (λ word. word) result
        (matches.arg_at path.now params.now number (view arg.now)) }
{
    let path = item_path(alloc, path, number)?;
    match params.get(number) {
        Some(holds) => value(alloc, path.as_str(), *holds, arg),
        None => Err(value_refused(alloc, path.as_str())),
    }
}

/// The words of the arguments at a path.
pub(crate) fn args(
    alloc: Global,
    path: &str,
    params: &[ValueShape],
    list: &[Value],
) -> Result<Vec<Bits>, TableFault>
    ensures { Gives (λ v. v.items) result
        (matches.args_of path.now params.now (map view list.now)) }
{
    let mut words = Vec::new(alloc);
    for (i, value) in list.iter().enumerate() {
        words.push(arg(alloc, path, i, params, value)?)?;
    }
    Ok(words)
}

fn front_bits(word: Bits, length: u8) -> Bits
    ensures { result ≡ matches.front_bits word length }
{
    let behind = word.width().saturating_sub(length) as u128;
    word.shr(behind).shl(behind)
}

fn masked_bits(word: Bits, mask: Bits) -> Bits
    ensures { result ≡ matches.masked_bits word mask }
{
    Bits::new(word.width(), word.value & mask.value)
}

#[tactic(auto, unfolding(crate::specs::Matches::match_of))]
fn masked(
    alloc: Global,
    path: &str,
    holds: ValueShape,
    value: &Value,
    mask: &Value,
) -> Result<Match, TableFault>
    ensures { Gives match_of result
        (matches.match_of path.now (masked_part holds (view value.now) (view mask.now))) }
{
    let word = part_value(alloc, path, 0, holds, value)?;
    let mask = part_value(alloc, path, 1, holds, mask)?;
    Ok(Match::Ternary(masked_bits(word, mask), mask))
}

/// What a part asks of its key.
#[tactic(auto, unfolding(crate::specs::Matches::match_of))]
fn asked(alloc: Global, path: &str, part: &Part) -> Result<Match, TableFault>
    ensures { Gives match_of result (matches.match_of path.now (part_view part.now)) }
{
    match part {
        Part::Whole(holds, part) => Ok(Match::Exact(value(alloc, path, *holds, part)?)),
        Part::Front(holds, part, length) => {
            let word = part_value(alloc, path, 0, *holds, part)?;
            Ok(Match::Lpm(front_bits(word, *length), *length))
        }
        Part::Masked(holds, part, mask) => masked(alloc, path, *holds, part, mask),
        Part::Past => Err(value_refused(alloc, path)),
    }
}

fn asked_at(alloc: Global, path: &str, number: usize, part: &Part) -> Result<Match, TableFault>
    ensures { Gives match_of result (matches.match_at path.now number (part_view part.now)) }
{
    let path = item_path(alloc, path, number)?;
    asked(alloc, path.as_str(), part)
}

/// What the parts of the key at a path ask.
pub(crate) fn matches(alloc: Global, path: &str, parts: &[Part]) -> Result<Vec<Match>, TableFault>
    ensures { Gives (λ v. map match_of v.items) result
        (matches.matches_of path.now (part_views parts.now)) }
{
    let mut list = Vec::new(alloc);
    for (i, part) in parts.iter().enumerate() {
        list.push(asked_at(alloc, path, i, part)?)?;
    }
    Ok(list)
}
