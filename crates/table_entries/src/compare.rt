//! Which entries are for the keys of a table, and which ask the same.

ghost use Rattle.std.specs.Prelude.{◌≡◌, ◌-◌, ◌/◌, ◌^◌, map};
ghost use Rattle.table_shapes.specs.Shapes.{is_for_key, are_for_keys};
ghost use Rattle.table_entries.specs.Entries.{same_match, same_keys};
ghost use Rattle.table_entries.specs.View.{match_of};

use crate::entry::Match;
use bit_values::Bits;
use table_shapes::{KeyKind, KeyShape};

/// Whether what is asked of a key is of its kind and its width.
fn is_for_key(k: &KeyShape, m: &Match) -> bool
    ensures { result ≡ is_for_key k.now (match_of m.now) }
{
    match m {
        Match::Exact(v) => match k.kind {
            KeyKind::Exact => v.width() == k.value.width,
            KeyKind::Lpm | KeyKind::Ternary => false,
        },
        Match::Lpm(v, n) => match k.kind {
            KeyKind::Lpm => v.width() == k.value.width && *n <= k.value.width,
            KeyKind::Exact | KeyKind::Ternary => false,
        },
        Match::Ternary(v, mask) => match k.kind {
            KeyKind::Ternary => v.width() == k.value.width && mask.width() == k.value.width,
            KeyKind::Exact | KeyKind::Lpm => false,
        },
    }
}

/// Whether what is asked of keys is for the keys of a table, one by one.
pub fn are_for_keys(keys: &[KeyShape], list: &[Match]) -> bool
    ensures { result ≡ are_for_keys keys.now (map match_of list.now) }
{
    for i in 0..keys.len() {
        if i >= list.len() {
            return false;
        }
        if !is_for_key(&keys[i], &list[i]) {
            return false;
        }
    }
    if keys.len() < list.len() {
        return false;
    }
    true
}

/// A number without the bits behind so many.
pub(crate) fn first_bits(v: Bits, count: u8) -> u128
    ensures { result ≡ v.value / 2 ^ (v.width - count) }
{
    v.shr(v.width().saturating_sub(count) as u128).value
}

/// Whether the same is asked of a key.
fn same_match(a: &Match, b: &Match) -> bool
    ensures { result ≡ same_match (match_of a.now) (match_of b.now) }
{
    match a {
        Match::Exact(v) => match b {
            Match::Exact(w) => v.value == w.value,
            Match::Lpm(_, _) | Match::Ternary(_, _) => false,
        },
        Match::Lpm(v, n) => match b {
            Match::Lpm(w, m) => *n == *m && first_bits(*v, *n) == first_bits(*w, *m),
            Match::Exact(_) | Match::Ternary(_, _) => false,
        },
        Match::Ternary(v, m) => match b {
            Match::Ternary(w, k) => { m.value == k.value && v.value & m.value == w.value & k.value }
            Match::Exact(_) | Match::Lpm(_, _) => false,
        },
    }
}

/// Whether the same is asked of all keys.
pub fn same_keys(a: &[Match], b: &[Match]) -> bool
    ensures { result ≡ same_keys (map match_of a.now) (map match_of b.now) }
{
    for i in 0..a.len() {
        if i >= b.len() {
            return false;
        }
        if !same_match(&a[i], &b[i]) {
            return false;
        }
    }
    if a.len() < b.len() {
        return false;
    }
    true
}
