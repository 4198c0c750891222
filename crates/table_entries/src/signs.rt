//! What the entries of a table run, by what they ask of the keys.

ghost use Rattle.std.specs.Prelude.{◌≡◌, ◌++◌, Some, None, List, ℕ, map, nat_eq, IfOk, OnOk, OnErr, if◌then◌else◌};
ghost use Rattle.std.specs.Option.{option_or};
ghost use Rattle.std.specs.Cmp.Lexicographic.{pointwise};
ghost use Rattle.table_entries.specs.Signs.{sign_of, signs_of, prefix_code, joined, by_kind, number_behind, prefix_behind, packed, number_act, list_act, sign_act};
ghost use Rattle.table_entries.specs.View.{match_of};
ghost use Rattle.table_entries.specs.Walk.{lent};

use crate::compare::first_bits;
use crate::entry::{Act, Match};
use std::alloc::{AllocError, Global};
use std::collections::HashMap;
use table_shapes::{KeyKind, KeyShape};

/// What the first entry runs that asks for a sign. Signs that fit into one number are kept by that, so
/// that a look touches little memory.
#[derive(Debug)]
pub struct Signs {
    pub numbers: HashMap<u128, Act>,
    pub lists: HashMap<Vec<u128>, Act>,
}

impl Drop for Signs {
    fn drop(self) {
        let Signs {
            numbers: _numbers,
            lists: _lists,
        } = self;
    }
}

/// Adds what is asked of a key.
fn put_sign(sign: &mut Vec<u128>, m: &Match) -> Result<(), AllocError>
    ensures { OnOk result (sign.new.items ≡ sign.old.items ++ sign_of (match_of m.now)) }
{
    match m {
        Match::Exact(v) => {
            sign.push(v.value)?;
            Ok(())
        }
        Match::Lpm(v, n) => {
            sign.push(*n as u128)?;
            sign.push(first_bits(*v, *n))?;
            Ok(())
        }
        Match::Ternary(v, mask) => {
            sign.push(mask.value)?;
            sign.push(v.value & mask.value)?;
            Ok(())
        }
    }
}

/// What is asked of all keys.
pub fn sign_of(alloc: Global, list: &[Match]) -> Result<Vec<u128>, AllocError>
    ensures { IfOk result (λ v. v.items ≡ signs_of (map match_of list.now)) }
{
    let mut sign = Vec::new(alloc);
    for m in list {
        put_sign(&mut sign, m)?;
    }
    Ok(sign)
}

/// A prefix as one number: a one, and behind it so many bits. None where there is no room for the one,
/// or where the bits are more.
fn prefix_code(length: u128, bits: u128) -> Option<u128>
    ensures { result ≡ prefix_code length bits }
{
    if length < 128 && bits < 1u128 << length {
        Some((1u128 << length) + bits)
    } else {
        None
    }
}

/// A number of so many bits behind what stands before, where both fit into one.
fn joined(width: u32, number: u128, before: u128) -> Option<u128>
    ensures { result ≡ joined width number before }
{
    if width >= 128 {
        return if before == 0 { Some(number) } else { None };
    }
    let end = 1u128 << width;
    if number >= end {
        None
    } else if before == 0 {
        Some(number)
    } else {
        before.checked_mul(end)?.checked_add(number)
    }
}

/// What is asked of one key, with so many first bits where they count, behind what stands before, as
/// one number.
pub(crate) fn key_code(k: &KeyShape, length: u128, bits: u128, before: u128) -> Option<u128>
    ensures { result ≡ by_kind k.now.kind (number_behind k.now bits before)
        (prefix_behind k.now length bits before) }
{
    let width = k.value.width as u32;
    match k.kind {
        KeyKind::Exact | KeyKind::Ternary => joined(width, bits, before),
        KeyKind::Lpm => joined(width + 1, prefix_code(length, bits)?, before),
    }
}

/// A sign as one number, where it fits into one.
fn packed(kinds: &[KeyShape], sign: &[u128]) -> Option<u128>
    ensures { result ≡ packed kinds.now sign.now }
{
    let mut code = 0;
    let mut left = sign;
    for k in kinds {
        match k.kind {
            KeyKind::Exact | KeyKind::Ternary => match left {
                [] => return None,
                [number, rest @ ..] => {
                    code = key_code(k, 0, *number, code)?;
                    left = rest;
                }
            },
            KeyKind::Lpm => match left {
                [length, bits, rest @ ..] => {
                    code = key_code(k, *length, *bits, code)?;
                    left = rest;
                }
                _ => return None,
            },
        }
    }
    if left.is_empty() { Some(code) } else { None }
}

/// Notes what an entry runs that asks for a number, unless another one asks for it.
fn note_number(acts: &mut HashMap<u128, Act>, number: u128, act: Act) -> Result<(), AllocError>
    ensures ok { OnOk result ((n : ℕ) → number_act acts.new n
        ≡ option_or (number_act acts.old n) (if nat_eq n number then Some act else None)) }
    ensures err { OnErr result ((n : ℕ) → number_act acts.new n ≡ number_act acts.old n) }
{
    if !acts.contains_key(&number) {
        acts.insert(number, act)?;
    }
    Ok(())
}

/// Notes what an entry runs that asks for these numbers, unless another one asks for them.
fn note_list(
    acts: &mut HashMap<Vec<u128>, Act>,
    sign: Vec<u128>,
    act: Act,
) -> Result<(), AllocError>
    ensures ok { OnOk result ((s : List ℕ) → list_act acts.new s
        ≡ option_or (list_act acts.old s) (if pointwise nat_eq s sign.items then Some act else None)) }
    ensures err { OnErr result ((s : List ℕ) → list_act acts.new s ≡ list_act acts.old s) }
{
    if !acts.contains_key(sign.as_slice()) {
        acts.insert(sign, act)?;
    }
    Ok(())
}

impl Signs {
    /// Of no entries.
    pub fn new(alloc: Global) -> Signs
        ensures { (ks : List _) (s : List ℕ) → sign_act ks result s ≡ None }
    {
        Signs {
            numbers: HashMap::new(alloc),
            lists: HashMap::new(alloc),
        }
    }

    /// Notes what an entry runs that asks for a sign, unless another one asks for it.
    pub fn note(&mut self, kinds: &[KeyShape], sign: Vec<u128>, act: Act) -> Result<(), AllocError>
        ensures ok { OnOk result ((s : List ℕ) → sign_act kinds.now self.new s
            ≡ option_or (sign_act kinds.now self.old s)
            (if pointwise nat_eq s sign.items then Some act else None)) }
        ensures err { OnErr result ((s : List ℕ) → sign_act kinds.now self.new s
            ≡ sign_act kinds.now self.old s) }
    {
        match packed(kinds, &sign) {
            Some(code) => note_number(&mut self.numbers, code, act),
            None => note_list(&mut self.lists, sign, act),
        }
    }

    /// What the first entry runs that asks for a sign.
    pub fn act(&self, kinds: &[KeyShape], sign: &[u128]) -> Option<&Act>
        ensures { lent result ≡ sign_act kinds.now self.now sign.now }
    {
        match packed(kinds, sign) {
            Some(code) => self.numbers.get(&code),
            None => self.lists.get(sign),
        }
    }
}
