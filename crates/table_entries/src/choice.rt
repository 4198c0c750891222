//! Which entry a table chooses for its keys.

ghost use Rattle.std.specs.Prelude.{◌≡◌, map};
ghost use Rattle.std.specs.Option.{option_map};
ghost use Rattle.p4_meaning.specs.Choice.{fits_key, fits_keys, prefix_of};
ghost use Rattle.table_entries.specs.View.{match_of, entry_of};
ghost use Rattle.table_entries.specs.Walk.{lent, rank_in, higher_in, found_in};

use crate::entry::{Entry, Match};
use bit_values::Bits;

/// Whether a key is what an entry asks for.
fn fits_key(m: &Match, key: Bits) -> bool
    ensures { result ≡ fits_key (match_of m.now) key }
{
    match m {
        Match::Exact(v) => v.value == key.value,
        Match::Lpm(v, n) => {
            let by = key.width().saturating_sub(*n) as u128;
            v.shr(by).value == key.shr(by).value
        }
        Match::Ternary(v, mask) => v.value & mask.value == key.value & mask.value,
    }
}

/// Whether all keys are, one by one.
pub(crate) fn fits_keys(list: &[Match], keys: &[Bits]) -> bool
    ensures { result ≡ fits_keys (map match_of list.now) keys.now }
{
    for i in 0..list.len() {
        if i >= keys.len() {
            return false;
        }
        if !fits_key(&list[i], keys[i]) {
            return false;
        }
    }
    if list.len() < keys.len() {
        return false;
    }
    true
}

/// The bits of an entry's prefix.
fn prefix_of(list: &[Match]) -> u8
    ensures { result ≡ prefix_of (map match_of list.now) }
{
    let mut most = 0;
    for m in list {
        match m {
            Match::Lpm(_, n) => {
                if most < *n {
                    most = *n;
                }
            }
            Match::Exact(_) => {}
            Match::Ternary(_, _) => {}
        }
    }
    most
}

/// What decides between entries that fit: with a ternary key the priority, and else the prefix.
fn rank_of(has_ternary: bool, e: &Entry) -> u32
    ensures { result ≡ rank_in has_ternary (entry_of e.now) }
{
    if has_ternary {
        e.priority
    } else {
        prefix_of(&e.keys) as u32
    }
}

/// The higher of two entries, and the first of two with one rank.
fn higher<'a>(has_ternary: bool, e: &'a Entry, found: Option<&'a Entry>) -> &'a Entry
    ensures { entry_of result.now
        ≡ higher_in has_ternary (entry_of e.now) (option_map entry_of (lent found.entry)) }
{
    match found {
        None => e,
        Some(f) => {
            if rank_of(has_ternary, e) < rank_of(has_ternary, f) {
                f
            } else {
                e
            }
        }
    }
}

/// The entry that one walk over all entries finds, from the last one on.
pub fn find<'a>(has_ternary: bool, entries: &'a [Entry], keys: &[Bits]) -> Option<&'a Entry>
    ensures { option_map entry_of (lent result)
        ≡ found_in has_ternary (map entry_of entries.now) keys.now }
{
    let mut found = None;
    let mut left = entries.len();
    while left > 0 {
        left -= 1;
        if fits_keys(&entries[left].keys, keys) {
            found = Some(higher(has_ternary, &entries[left], found));
        }
    }
    found
}
