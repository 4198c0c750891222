//! Copies of control contents.

ghost use Rattle.std.specs.Prelude.{◌≡◌, map, IfOk};
ghost use Rattle.indus_values.specs.View.{cells_of, contents_of, entry_of};

use crate::state::ControlValue;
use bit_values::Bits;
use std::alloc::{AllocError, Global};

impl ControlValue {
    /// An equal value: the same words in the same order.
    pub fn copy(&self, alloc: Global) -> Result<ControlValue, AllocError>
        ensures { IfOk result (λ c. contents_of c ≡ contents_of self.now) }
    {
        match self {
            ControlValue::One(w) => Ok(ControlValue::One(*w)),
            ControlValue::Members(keys) => Ok(ControlValue::Members(copy_keys(alloc, keys)?)),
            ControlValue::Pairs(entries) => Ok(ControlValue::Pairs(copy_entries(alloc, entries)?)),
        }
    }
}

fn copy_keys(alloc: Global, keys: &[Vec<Bits>]) -> Result<Vec<Vec<Bits>>, AllocError>
    ensures { IfOk result (λ v. map cells_of v.items ≡ map cells_of keys.now) }
{
    let mut copies = Vec::new(alloc);
    for key in keys {
        copies.push(Vec::from_slice(alloc, key)?)?;
    }
    Ok(copies)
}

fn copy_entry(alloc: Global, entry: &(Vec<Bits>, Bits)) -> Result<(Vec<Bits>, Bits), AllocError>
    ensures { IfOk result (λ e. entry_of e ≡ entry_of entry.now) }
{
    let key = Vec::from_slice(alloc, &entry.0)?;
    Ok((key, entry.1))
}

fn copy_entries(
    alloc: Global,
    entries: &[(Vec<Bits>, Bits)],
) -> Result<Vec<(Vec<Bits>, Bits)>, AllocError>
    ensures { IfOk result (λ v. map entry_of v.items ≡ map entry_of entries.now) }
{
    let mut copies = Vec::new(alloc);
    for entry in entries {
        copies.push(copy_entry(alloc, entry)?)?;
    }
    Ok(copies)
}
