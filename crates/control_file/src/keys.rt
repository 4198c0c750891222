//! The keys of sets and dicts.

ghost use Rattle.std.specs.Prelude.{◌≡◌, ◌<◌, ◌++◌, ◌∷◌, [], length, map, IfOk};
ghost use Rattle.serde_json.specs.View.{view};
ghost use Rattle.json_parts.specs.Turns.{all_of};
ghost use Rattle.json_values.specs.Views.{Gives};
ghost use Rattle.control_file.specs.Keys as keys;
ghost use Rattle.control_file.specs.Views.{seen_numbers};

use bit_values::Bits;
use indexmap::IndexSet;
use indus_tree::Ty;
use json_parts::item_path;
use json_values::{WordKind, list_at, read_word, shape_refused};
use lex_text::Name;
use serde_json::Value;
use std::alloc::{AllocError, Global};
use table_faults::TableFault;

/// The keys so far, each by the numbers that are its parts.
pub(crate) type Seen = IndexSet<Vec<u128>>;

/// What word a value of a type is.
pub(crate) fn kind_of(ty: Ty) -> WordKind
    ensures { result ≡ keys.kind_of ty }
{
    match ty {
        Ty::Bit(width) => WordKind::Number(width),
        Ty::Bool => WordKind::Truth,
    }
}

/// One part of a key of several.
fn part(
    alloc: Global,
    path: &str,
    types: &[Ty],
    number: usize,
    value: &Value,
) -> Result<Bits, TableFault>
    requires { number < length types.now }
    ensures { Gives (λ word. word) result
        (keys.part_at path.now types.now number (view value.now)) }
{
    let path = item_path(alloc, path, number)?;
    read_word(alloc, path.as_str(), kind_of(types[number]), value)
}

fn all_parts(
    alloc: Global,
    path: &str,
    types: &[Ty],
    list: &[Value],
) -> Result<Vec<Bits>, TableFault>
    requires { length list.now ≡ length types.now }
    ensures { Gives (λ v. v.items) result
        (all_of (keys.part_at path.now types.now) (map view list.now)) }
{
    let mut parts = Vec::new(alloc);
    for (i, value) in list.iter().enumerate() {
        parts.push(part(alloc, path, types, i, value)?)?;
    }
    Ok(parts)
}

/// The parts of a key, which are as many as there are types.
fn parts(alloc: Global, path: &str, types: &[Ty], list: &[Value]) -> Result<Vec<Bits>, TableFault>
    ensures { Gives (λ v. v.items) result
        (keys.parts_at path.now types.now (map view list.now)) }
{
    if list.len() != types.len() {
        return Err(shape_refused(alloc, path));
    }
    all_parts(alloc, path, types, list)
}

/// A key: a value, or an array of values where it has several parts.
pub(crate) fn key(
    alloc: Global,
    path: &str,
    types: &[Ty],
    value: &Value,
) -> Result<Vec<Bits>, TableFault>
    ensures { Gives (λ v. v.items) result (keys.key_at path.now types.now (view value.now)) }
{
    let [ty] = types else {
        return parts(alloc, path, types, list_at(alloc, path, value)?);
    };
    let mut key = Vec::new(alloc);
    key.push(read_word(alloc, path, kind_of(*ty), value)?)?;
    Ok(key)
}

fn numbers(alloc: Global, key: &[Bits]) -> Result<Vec<u128>, AllocError>
    ensures { IfOk result (λ v. v.items ≡ keys.numbers_of key.now) }
{
    let mut numbers = Vec::new(alloc);
    for word in key {
        numbers.push(word.value)?;
    }
    Ok(numbers)
}

/// Adds a key that is none of those before.
pub(crate) fn add(
    alloc: Global,
    path: &str,
    seen: &mut Seen,
    key: &[Bits],
) -> Result<(), TableFault>
    ensures fresh { Gives (λ u. u) result
        (keys.fresh path.now (seen_numbers seen.old.keys) key.now) }
    ensures added { IfOk result (λ _. seen_numbers seen.new.keys
        ≡ seen_numbers seen.old.keys ++ keys.numbers_of key.now ∷ []) }
{
    let added = seen.insert(numbers(alloc, key)?)?;
    if !added {
        let path = Name::new(alloc, path)?;
        return Err(TableFault::KeyTwice { path });
    }
    Ok(())
}
