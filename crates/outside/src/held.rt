//! Files in memory: a map from names to bytes.

ghost use Rattle.std.specs.Prelude.{◌≡◌, OnOk, OnErr, MatchOption, Some, None};
ghost use Rattle.outside.specs.Held.{held_in, HoldsAlso, IsSameHeld};
ghost use Rattle.outside.specs.Reading.{ReadsWhole};

use crate::StoreStop;
use std::alloc::{AllocError, Global};
use std::collections::BTreeMap;

pub fn file_in<'a>(held: &'a BTreeMap<String, Vec<u8>>, name: &str) -> Option<&'a [u8]>
    ensures { MatchOption result (held_in held.now name.now ≡ None) (λ b. held_in held.now name.now ≡ Some b.now) }
{
    match held.get(name) {
        Some(bytes) => Some(bytes.as_slice()),
        None => None,
    }
}

pub fn read_from(
    alloc: Global,
    held: &BTreeMap<String, Vec<u8>>,
    name: &str,
    limit: u64,
) -> Result<Vec<u8>, StoreStop>
    ensures { ReadsWhole (held_in held.now name.now) limit result }
{
    match held.get(name) {
        None => Err(StoreStop::Missing),
        Some(bytes) if bytes.len() as u64 > limit => Err(StoreStop::TooLong),
        Some(bytes) => Ok(bytes.to_vec(alloc)?),
    }
}

pub fn put_in(
    alloc: Global,
    held: &mut BTreeMap<String, Vec<u8>>,
    name: &str,
    bytes: &[u8],
) -> Result<(), AllocError>
    ensures ok { OnOk result (HoldsAlso (held_in held.old) (held_in held.new) name.now bytes.now) }
    ensures err { OnErr result (IsSameHeld (held_in held.old) (held_in held.new)) }
{
    let key = String::from_str(alloc, name)?;
    let value = bytes.to_vec(alloc)?;
    held.insert(key, value)?;
    Ok(())
}
