//! The parts of an entry's key, by their form.

ghost use Rattle.std.specs.Prelude.{◌≡◌, map};
ghost use Rattle.serde_json.specs.View.{view};
ghost use Rattle.json_parts.specs.Views.{Gives};
ghost use Rattle.entry_parts.specs.Written as written;
ghost use Rattle.entry_parts.specs.Views.{part_view, part_views};

use json_parts::{ShapeFault, item_path, list_of};
use lex_text::Name;
use p4_tables::{KeyKind, KeyShape, ValueShape};
use serde_json::Value;
use std::alloc::Global;

/// A part of a key, with what the key holds.
#[derive(Clone, Copy, Debug)]
pub(crate) enum Part<'a> {
    Whole(ValueShape, &'a Value),
    /// A value, and how many of its bits count, where 255 stands for all from 255 on.
    Front(ValueShape, &'a Value, u8),
    /// A value and its mask.
    Masked(ValueShape, &'a Value, &'a Value),
    /// A part behind the last key.
    Past,
}

fn capped(length: u64) -> u8
    ensures { result ≡ written.capped length }
{
    if length < 255 { length as u8 } else { 255 }
}

fn front<'a>(
    alloc: Global,
    path: &str,
    holds: ValueShape,
    value: &'a Value,
) -> Result<Part<'a>, ShapeFault>
    ensures { Gives part_view result (written.part_by path.now KeyKind.Lpm holds (view value.now)) }
{
    let Some([value, length]) = list_of(value) else {
        return Err(ShapeFault::Shape {
            path: Name::new(alloc, path)?,
        });
    };
    let Some(length) = length.as_u64() else {
        return Err(ShapeFault::Shape {
            path: item_path(alloc, path, 1)?,
        });
    };
    Ok(Part::Front(holds, value, capped(length)))
}

fn masked<'a>(
    alloc: Global,
    path: &str,
    holds: ValueShape,
    value: &'a Value,
) -> Result<Part<'a>, ShapeFault>
    ensures { Gives part_view result (written.part_by path.now KeyKind.Ternary holds (view value.now)) }
{
    let Some([value, mask]) = list_of(value) else {
        return Err(ShapeFault::Shape {
            path: Name::new(alloc, path)?,
        });
    };
    Ok(Part::Masked(holds, value, mask))
}

/// The part of a number, of which `key` is the key, if there is one.
fn part_at<'a>(
    alloc: Global,
    path: &str,
    number: usize,
    keys: &[KeyShape],
    value: &'a Value,
) -> Result<Part<'a>, ShapeFault>
    ensures { Gives part_view result (written.part_at path.now keys.now number (view value.now)) }
{
    let Some(key) = keys.get(number) else {
        return Ok(Part::Past);
    };
    let path = item_path(alloc, path, number)?;
    match key.kind {
        KeyKind::Exact => Ok(Part::Whole(key.value, value)),
        KeyKind::Lpm => front(alloc, path.as_str(), key.value, value),
        KeyKind::Ternary => masked(alloc, path.as_str(), key.value, value),
    }
}

/// The parts of the key at a path.
pub(crate) fn parts<'a>(
    alloc: Global,
    path: &str,
    keys: &[KeyShape],
    list: &'a [Value],
) -> Result<Vec<Part<'a>>, ShapeFault>
    ensures { Gives (λ v. part_views v.items) result
        (written.parts_of path.now keys.now (map view list.now)) }
{
    let mut parts = Vec::new(alloc);
    for (i, value) in list.iter().enumerate() {
        parts.push(part_at(alloc, path, i, keys, value)?)?;
    }
    Ok(parts)
}
