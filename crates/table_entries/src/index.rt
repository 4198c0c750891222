//! What the entries of a table run, and where they stand.

ghost use Rattle.std.specs.Prelude.{◌≡◌, [], ◌∷◌, ◌++◌, Some, None, true, List, ℕ, map, length, nat_eq, IfSome, IfNone, IfOk, OnOk, OnErr, if◌then◌else◌};
ghost use Rattle.std.specs.Bool.{OnTrue, OnFalse};
ghost use Rattle.std.specs.Option.{option_map, option_or};
ghost use Rattle.std.specs.BTreeMap.{IsOrdered};
ghost use Rattle.std.specs.Ordering.{nat_cmp};
ghost use Rattle.table_entries.specs.Signs.{wanted_of, wanted, packed, sign_act};
ghost use Rattle.table_entries.specs.Index.{priority_place, IsIndex, longest, first_told, first_fit, AreMany, AreUnpacked, IsUntold};
ghost use Rattle.table_shapes.specs.Shapes.{have_widths};
ghost use Rattle.table_entries.specs.View.{entry_of};
ghost use Rattle.table_entries.specs.Walk.{lent};

use crate::choice::fits_keys;
use crate::compare::first_bits;
use crate::entry::{Act, Entry};
use crate::signs::{Signs, key_code, sign_of};
use arrayvec::ArrayVec;
use bit_values::Bits;
use std::alloc::{AllocError, Global};
use std::cmp::Reverse;
use std::collections::BTreeMap;
use table_shapes::{KeyKind, KeyShape};

/// What is looked for, where that is few numbers. It takes no memory.
type Sign = ArrayVec<u128, 16>;

/// What each entry of a table runs, by what it asks of the keys; or in a table with a ternary key where
/// each stands, by its priority, the highest first.
#[derive(Debug)]
pub enum Index {
    Signs(Signs),
    Priorities(BTreeMap<Reverse<u32>, usize>),
}

impl Drop for Index {
    fn drop(self) {
        match self {
            Index::Signs(_first) => {}
            Index::Priorities(_first) => {}
        }
    }
}

/// Adds what asks for a key, where there is room.
fn try_wanted(sign: &mut Sign, k: &KeyShape, length: u8, key: Bits) -> bool
    ensures added { OnTrue result (sign.new.items ≡ sign.old.items ++ wanted_of k.now.kind length key) }
    ensures full { OnFalse result (AreMany (sign.old.items ++ wanted_of k.now.kind length key)) }
{
    match k.kind {
        KeyKind::Exact | KeyKind::Ternary => sign.try_push(key.value).is_ok(),
        KeyKind::Lpm => {
            sign.try_push(length as u128).is_ok() && sign.try_push(first_bits(key, length)).is_ok()
        }
    }
}

/// What asks for these keys, with so many first bits where they count, if that is few numbers.
fn wanted(kinds: &[KeyShape], length: u8, keys: &[Bits]) -> Option<Sign>
    ensures sign { IfSome result (λ s. s.items ≡ wanted kinds.now length keys.now) }
    ensures many { IfNone result (AreMany (wanted kinds.now length keys.now)) }
{
    let mut sign = ArrayVec::new();
    for i in 0..kinds.len() {
        if i >= keys.len() {
            return Some(sign);
        }
        if !try_wanted(&mut sign, &kinds[i], length, keys[i]) {
            return None;
        }
    }
    Some(sign)
}

/// Notes where an entry of a priority stands, unless another one stands before it.
fn note_priority(
    places: &mut BTreeMap<Reverse<u32>, usize>,
    priority: u32,
    place: usize,
) -> Result<(), AllocError>
    ensures ok { OnOk result ((p : ℕ) → priority_place places.new p
        ≡ option_or (priority_place places.old p) (if nat_eq p priority then Some place else None)) }
    ensures err { OnErr result ((p : ℕ) → priority_place places.new p ≡ priority_place places.old p) }
{
    let rank = Reverse(priority);
    if !places.contains_key(&rank) {
        places.insert(rank, place)?;
    }
    Ok(())
}

impl Index {
    /// The index of no entries.
    pub fn new(alloc: Global, has_ternary: bool) -> Index
        ensures { (ks : List _) → IsIndex ks has_ternary [] result }
    {
        if has_ternary {
            Index::Priorities(BTreeMap::new(alloc))
        } else {
            Index::Signs(Signs::new(alloc))
        }
    }

    /// Notes an entry that stands behind those of the index.
    pub fn note(
        &mut self,
        alloc: Global,
        kinds: &[KeyShape],
        e: &Entry,
        place: usize,
    ) -> Result<(), AllocError>
        ensures ok { OnOk result ((t : _) (es : List _) → IsIndex kinds.now t es self.old
            → place ≡ length es → IsIndex kinds.now t (es ++ entry_of e.now ∷ []) self.new) }
        ensures err { OnErr result ((t : _) (es : List _) → IsIndex kinds.now t es self.old
            → IsIndex kinds.now t es self.new) }
    {
        match self {
            Index::Signs(signs) => {
                let sign = sign_of(alloc, &e.keys)?;
                let act = e.act(alloc)?;
                signs.note(kinds, sign, act)
            }
            Index::Priorities(places) => note_priority(places, e.priority, place),
        }
    }
}

/// The index of entries.
pub fn index_of(
    alloc: Global,
    kinds: &[KeyShape],
    has_ternary: bool,
    list: &[Entry],
) -> Result<Index, AllocError>
    ensures { IfOk result (IsIndex kinds.now has_ternary (map entry_of list.now)) }
{
    let mut index = Index::new(alloc, has_ternary);
    for i in 0..list.len() {
        index.note(alloc, kinds, &list[i], i)?;
    }
    Ok(index)
}

/// Whether keys have the widths that a table's keys have.
fn have_key_widths(kinds: &[KeyShape], keys: &[Bits]) -> bool
    ensures { result ≡ have_widths (map (λ k. k.value) kinds.now) keys.now }
{
    for i in 0..kinds.len() {
        if i >= keys.len() {
            return false;
        }
        if keys[i].width() != kinds[i].value.width {
            return false;
        }
    }
    if kinds.len() < keys.len() {
        return false;
    }
    true
}

/// The width of the first key that is matched by its first bits, or else 0.
fn longest(kinds: &[KeyShape]) -> u8
    ensures { result ≡ longest kinds.now }
{
    for k in kinds {
        match k.kind {
            KeyKind::Lpm => return k.value.width,
            KeyKind::Exact | KeyKind::Ternary => {}
        }
    }
    0
}

/// Where the entry of this priority stands.
pub fn priority_place(places: &BTreeMap<Reverse<u32>, usize>, priority: u32) -> Option<usize>
    ensures { result ≡ priority_place places.now priority }
{
    places.get(&Reverse(priority)).copied()
}

/// What asks for these keys, with so many first bits where they count, as one number, where it fits
/// into one.
fn wanted_code(kinds: &[KeyShape], length: u8, keys: &[Bits]) -> Option<u128>
    ensures { result ≡ packed kinds.now (wanted kinds.now length keys.now) }
{
    let mut code = 0;
    for i in 0..kinds.len() {
        if i >= keys.len() {
            return None;
        }
        let key = keys[i];
        let bits = match kinds[i].kind {
            KeyKind::Exact | KeyKind::Ternary => key.value,
            KeyKind::Lpm => first_bits(key, length),
        };
        code = key_code(&kinds[i], length as u128, bits, code)?;
    }
    Some(code)
}

/// What the first entry runs that asks for these keys, with so many first bits where they count. Not
/// told where they are many.
fn act_for<'a>(
    signs: &'a Signs,
    kinds: &[KeyShape],
    length: u8,
    keys: &[Bits],
) -> Option<Option<&'a Act>>
    ensures told { IfSome result (λ told. lent told
        ≡ sign_act kinds.now signs.now (wanted kinds.now length keys.now)) }
    ensures untold { IfNone result (AreUnpacked kinds.now (wanted kinds.now length keys.now)) }
{
    match wanted_code(kinds, length, keys) {
        Some(code) => Some(signs.numbers.get(&code)),
        None => {
            let sign = wanted(kinds, length, keys)?;
            Some(signs.lists.get(sign.as_slice()))
        }
    }
}

/// What the entry of the longest prefix runs that asks for these keys, if one does. Not told where keys
/// have other widths, or where they are many.
pub fn longest_act<'a>(
    signs: &'a Signs,
    kinds: &[KeyShape],
    keys: &[Bits],
) -> Option<Option<&'a Act>>
    ensures told { IfSome result (λ told. lent told
        ≡ first_told (λ n. sign_act kinds.now signs.now (wanted kinds.now n keys.now))
        (longest kinds.now)) }
    ensures wide { IfSome result (λ _. have_widths (map (λ k. k.value) kinds.now) keys.now ≡ true) }
    ensures untold { IfNone result (IsUntold kinds.now keys.now) }
{
    if !have_key_widths(kinds, keys) {
        return None;
    }
    let mut length = longest(kinds);
    loop {
        let act = act_for(signs, kinds, length, keys)?;
        if act.is_some() || length == 0 {
            return Some(act);
        }
        length -= 1;
    }
}

/// The first entry that fits, from the highest priority on.
pub fn first_fit<'a>(
    places: &BTreeMap<Reverse<u32>, usize>,
    listed: &'a [Entry],
    keys: &[Bits],
) -> Option<&'a Entry>
    ensures found { option_map entry_of (lent result)
        ≡ first_fit (map entry_of listed.now) keys.now places.now.entries }
    ensures ordered { IsOrdered (λ x y. nat_cmp y.0 x.0) places.now }
{
    for (_, place) in places {
        if let Some(e) = listed.get(*place) {
            if fits_keys(&e.keys, keys) {
                return Some(e);
            }
        }
    }
    None
}
