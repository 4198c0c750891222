//! The contents of a control variable.

ghost use Rattle.std.specs.Prelude.{◌≡◌, ◌++◌, ◌∷◌, [], map, IfOk};
ghost use Rattle.serde_json.specs.View.{view};
ghost use Rattle.json_parts.specs.Paths.{item_below};
ghost use Rattle.json_values.specs.Words.{word_at};
ghost use Rattle.json_values.specs.Views.{Gives};
ghost use Rattle.indus_tree.specs.State.{nothing_of, width_of};
ghost use Rattle.indus_tree.specs.View.{shape_of};
ghost use Rattle.indus_values.specs.View.{cells_of, contents_of, entry_of};
ghost use Rattle.control_file.specs.Keys.{key_at, kind_of, new_key_at, numbers_of};
ghost use Rattle.control_file.specs.Contents as contents;
ghost use Rattle.control_file.specs.Views.{seen_numbers};

use crate::keys::{Seen, add, key, kind_of};
use bit_values::{Bits, sound_width};
use indexmap::IndexSet;
use indus_tree::{Decl, Shape, Ty};
use indus_values::ControlValue;
use json_parts::item_path;
use json_values::{list_at, read_word, shape_refused};
use serde_json::Value;
use std::alloc::Global;
use table_faults::TableFault;

/// 0 or false.
fn unset_word(ty: Ty) -> Bits
    ensures { result ≡ nothing_of (width_of ty) }
{
    match ty {
        Ty::Bit(width) => Bits::new(sound_width(width), 0),
        Ty::Bool => Bits::new(1, 0),
    }
}

/// What a control variable holds until it is set: 0, false, or no keys.
pub(crate) fn unset(alloc: Global, shape: &Shape) -> ControlValue
    ensures { contents_of result ≡ contents.unset (shape_of shape.now) }
{
    match shape {
        Shape::One(ty) => ControlValue::One(unset_word(*ty)),
        Shape::List(_, _) | Shape::SetOf(_) => ControlValue::Members(Vec::new(alloc)),
        Shape::DictOf(_, _) => ControlValue::Pairs(Vec::new(alloc)),
    }
}

/// The key of a number in a set, which is none of those before.
fn new_key(
    alloc: Global,
    path: &str,
    types: &[Ty],
    seen: &mut Seen,
    number: usize,
    value: &Value,
) -> Result<Vec<Bits>, TableFault>
    ensures key { Gives (λ v. v.items) result (new_key_at (item_below path.now number) types.now
        (seen_numbers seen.old.keys) (view value.now)) }
    ensures added { IfOk result (λ v. seen_numbers seen.new.keys
        ≡ seen_numbers seen.old.keys ++ numbers_of v.items ∷ []) }
{
    let path = item_path(alloc, path, number)?;
    let key = key(alloc, path.as_str(), types, value)?;
    add(alloc, path.as_str(), seen, &key)?;
    Ok(key)
}

/// The keys of a set, each once.
fn keys(
    alloc: Global,
    path: &str,
    types: &[Ty],
    list: &[Value],
) -> Result<Vec<Vec<Bits>>, TableFault>
    ensures { Gives (λ v. map cells_of v.items) result
        (contents.keys_of path.now types.now (map view list.now)) }
{
    let mut seen = IndexSet::new(alloc);
    let mut keys = Vec::new(alloc);
    for (i, value) in list.iter().enumerate() {
        keys.push(new_key(alloc, path, types, &mut seen, i, value)?)?;
    }
    Ok(keys)
}

/// A value of a dict.
fn dict_value(alloc: Global, path: &str, ty: Ty, value: &Value) -> Result<Bits, TableFault>
    ensures { Gives (λ word. word) result
        (word_at (item_below path.now 1) (kind_of ty) (view value.now)) }
{
    let path = item_path(alloc, path, 1)?;
    read_word(alloc, path.as_str(), kind_of(ty), value)
}

fn dict_key(alloc: Global, path: &str, types: &[Ty], value: &Value) -> Result<Vec<Bits>, TableFault>
    ensures { Gives (λ v. v.items) result
        (key_at (item_below path.now 0) types.now (view value.now)) }
{
    let path = item_path(alloc, path, 0)?;
    key(alloc, path.as_str(), types, value)
}

/// A key with its value; the key is none of those before.
fn new_entry(
    alloc: Global,
    path: &str,
    types: &[Ty],
    ty: Ty,
    seen: &mut Seen,
    value: &Value,
) -> Result<(Vec<Bits>, Bits), TableFault>
    ensures entry { Gives entry_of result (contents.new_entry_at path.now types.now ty
        (seen_numbers seen.old.keys) (view value.now)) }
    ensures added { IfOk result (λ e. seen_numbers seen.new.keys
        ≡ seen_numbers seen.old.keys ++ numbers_of e.0.items ∷ []) }
{
    let [key, value] = list_at(alloc, path, value)? else {
        return Err(shape_refused(alloc, path));
    };
    let key = dict_key(alloc, path, types, key)?;
    add(alloc, path, seen, &key)?;
    let value = dict_value(alloc, path, ty, value)?;
    Ok((key, value))
}

/// The entry of a number in a dict.
fn numbered_entry(
    alloc: Global,
    path: &str,
    types: &[Ty],
    ty: Ty,
    seen: &mut Seen,
    number: usize,
    value: &Value,
) -> Result<(Vec<Bits>, Bits), TableFault>
    ensures entry { Gives entry_of result (contents.new_entry_at (item_below path.now number)
        types.now ty (seen_numbers seen.old.keys) (view value.now)) }
    ensures added { IfOk result (λ e. seen_numbers seen.new.keys
        ≡ seen_numbers seen.old.keys ++ numbers_of e.0.items ∷ []) }
{
    let path = item_path(alloc, path, number)?;
    new_entry(alloc, path.as_str(), types, ty, seen, value)
}

/// The keys of a dict, each once, with their values.
fn entries(
    alloc: Global,
    path: &str,
    types: &[Ty],
    ty: Ty,
    list: &[Value],
) -> Result<Vec<(Vec<Bits>, Bits)>, TableFault>
    ensures { Gives (λ v. map entry_of v.items) result
        (contents.entries_of path.now types.now ty (map view list.now)) }
{
    let mut seen = IndexSet::new(alloc);
    let mut entries = Vec::new(alloc);
    for (i, value) in list.iter().enumerate() {
        entries.push(numbered_entry(alloc, path, types, ty, &mut seen, i, value)?)?;
    }
    Ok(entries)
}

/// The contents at a path for a control variable of a shape.
#[tactic(auto, unfolding(crate::specs::Contents::contents_at))]
pub(crate) fn contents_at(
    alloc: Global,
    path: &str,
    shape: &Shape,
    value: &Value,
) -> Result<ControlValue, TableFault>
    ensures { Gives contents_of result
        (contents.contents_at path.now (shape_of shape.now) (view value.now)) }
{
    match shape {
        Shape::One(ty) => Ok(ControlValue::One(read_word(alloc, path, kind_of(*ty), value)?)),
        Shape::List(_, _) => Err(shape_refused(alloc, path)),
        Shape::SetOf(types) => {
            let list = list_at(alloc, path, value)?;
            Ok(ControlValue::Members(keys(alloc, path, types, list)?))
        }
        Shape::DictOf(types, ty) => {
            let list = list_at(alloc, path, value)?;
            Ok(ControlValue::Pairs(entries(alloc, path, types, *ty, list)?))
        }
    }
}
