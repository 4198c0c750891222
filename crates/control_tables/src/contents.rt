//! What the table of a control variable holds.

ghost use Rattle.std.specs.Prelude.{◌≡◌, ◌∷◌, [], map, IfOk};
ghost use Rattle.indus_values.specs.View.{contents_of, cells_of, entry_of as pair_seen};
ghost use Rattle.p4_meaning.specs.Choice.{exact};
ghost use Rattle.table_entries.specs.View.{match_of, entry_of};
ghost use Rattle.control_tables.specs.Contents as contents;
ghost use Rattle.control_tables.specs.Views.{loaded_of};

use bit_values::Bits;
use indus_values::ControlValue;
use p4_tables::{Entry, Match};
use std::alloc::{AllocError, Global};

/// What a table holds: its entries, and its default, where one is set.
type Loaded = (Vec<Entry>, Option<(u32, Vec<Bits>)>);

fn exact_keys(alloc: Global, key: &[Bits]) -> Result<Vec<Match>, AllocError>
    ensures { IfOk result (λ v. map match_of v.items ≡ map exact key.now) }
{
    let mut keys = Vec::new(alloc);
    for part in key {
        keys.push(Match::Exact(*part))?;
    }
    Ok(keys)
}

fn key_entry(alloc: Global, action: u32, key: &[Bits]) -> Result<Entry, AllocError>
    ensures { IfOk result (λ e. entry_of e ≡ contents.entry_for action key.now []) }
{
    let keys = exact_keys(alloc, key)?;
    Ok(Entry {
        keys,
        action,
        args: Vec::new(alloc),
        priority: 0,
    })
}

fn pair_entry(alloc: Global, action: u32, key: &[Bits], value: Bits) -> Result<Entry, AllocError>
    ensures { IfOk result (λ e. entry_of e ≡ contents.entry_for action key.now (value ∷ [])) }
{
    let keys = exact_keys(alloc, key)?;
    let mut args = Vec::new(alloc);
    args.push(value)?;
    Ok(Entry {
        keys,
        action,
        args,
        priority: 0,
    })
}

fn key_entries(alloc: Global, action: u32, keys: &[Vec<Bits>]) -> Result<Vec<Entry>, AllocError>
    ensures { IfOk result (λ v. map entry_of v.items
        ≡ map (λ k. contents.entry_for action k []) (map cells_of keys.now)) }
{
    let mut entries = Vec::new(alloc);
    for key in keys {
        entries.push(key_entry(alloc, action, key)?)?;
    }
    Ok(entries)
}

fn pair_entries(
    alloc: Global,
    action: u32,
    pairs: &[(Vec<Bits>, Bits)],
) -> Result<Vec<Entry>, AllocError>
    ensures { IfOk result (λ v. map entry_of v.items
        ≡ map (λ e. contents.entry_for action e.0 (e.1 ∷ [])) (map pair_seen pairs.now)) }
{
    let mut entries = Vec::new(alloc);
    for pair in pairs {
        entries.push(pair_entry(alloc, action, &pair.0, pair.1)?)?;
    }
    Ok(entries)
}

/// What the table of a control variable holds where the variable has these contents, and `action` is
/// the number of the table's first action. A default is given for a scalar alone.
pub fn contents_for(alloc: Global, value: &ControlValue, action: u32) -> Result<Loaded, AllocError>
    ensures { IfOk result (λ l. loaded_of l
        ≡ (contents.entries_for action (contents_of value.now), contents.default_for action (contents_of value.now))) }
{
    match value {
        ControlValue::One(word) => {
            let mut args = Vec::new(alloc);
            args.push(*word)?;
            Ok((Vec::new(alloc), Some((action, args))))
        }
        ControlValue::Members(keys) => Ok((key_entries(alloc, action, keys)?, None)),
        ControlValue::Pairs(pairs) => Ok((pair_entries(alloc, action, pairs)?, None)),
    }
}
