//! What expressions read: names, cells, and keys of lists, sets and dicts.

ghost use Rattle.std.specs.Prelude.{codes, ◌≡◌, ◌∷◌, [], map, slice_get, IfOk};
ghost use Rattle.std.specs.Option.{option_map};
ghost use Rattle.indus_tree.specs.State.{held_width, lookup, nothing_of};
ghost use Rattle.indus_tree.specs.Keys.{at_key, at_key_by_kind, cell_at, first_width, found, found_in, has, has_by_kind, has_first, has_item, has_key, held_in, index_widths, member_widths, other_widths, same_words, widths, widths_for};
ghost use Rattle.indus_tree.specs.Reads.{built_in_word, item_in, name_word, or_word, scalar, single_word, variable_word, word_by_kind};
ghost use Rattle.indus_tree.specs.Hops.{headers_in};
ghost use Rattle.indus_tree.specs.View.{decl_of, shape_of};
ghost use Rattle.indus_values.specs.View.{cells_of, contents_of, decls_of, entry_of, hop_of, or_no_members, seen_of};

use crate::names::{cells, contents, seat};
use crate::state::{ControlValue, Env, SensorState, TeleState};
use crate::words::{cut, nothing, shape_width, width_of, word_at};
use bit_values::{Bits, either_width, truth};
use indus_tree::{Decl, DeclKind, Shape, Ty, find};
use lex_text::Name;
use std::alloc::{AllocError, Global};

/// The bits of one value of a declared variable, and 0 where it is not declared.
pub fn held_width(decls: &[Decl], name: &Name) -> u8
    ensures { result ≡ held_width (lookup (map decl_of decls.now) name.now) }
{
    match find(decls, name) {
        Some(d) => shape_width(&d.shape),
        None => 0,
    }
}

fn scalar(words: &[Bits], w: u8) -> Bits
    ensures { result ≡ scalar words.now w }
{
    match words {
        [] => nothing(w),
        [x, _rest @ ..] => *x,
    }
}

fn header_word(env: &Env, name: &Name) -> Bits
    ensures { result ≡ (hop_of env.now).headers name.now }
{
    match seat(DeclKind::Header, env.decls, name) {
        None => nothing(1),
        Some(n) => word_at(env.values, n as u128, 1),
    }
}

fn single_word(contents: Option<&ControlValue>, w: u8) -> Bits
    ensures { result ≡ single_word (or_no_members (option_map (λ c. contents_of c.now) contents.entry)) w }
{
    match contents {
        Some(ControlValue::One(x)) => *x,
        Some(ControlValue::Members(_)) => nothing(w),
        Some(ControlValue::Pairs(_)) => nothing(w),
        None => nothing(w),
    }
}

fn word_by_kind(
    kind: DeclKind,
    env: &Env,
    items: &[(Name, Bits)],
    tele: &TeleState,
    sensors: &SensorState,
    name: &Name,
    w: u8,
) -> Bits
    ensures { result ≡ word_by_kind kind (seen_of env.now items.now tele.now sensors.now) name.now w }
{
    match kind {
        DeclKind::Tele => scalar(cells(DeclKind::Tele, env.decls, &tele.items, name), w),
        DeclKind::Sensor => scalar(cells(DeclKind::Sensor, env.decls, &sensors.cells, name), w),
        DeclKind::Header => header_word(env, name),
        DeclKind::Control => single_word(contents(env, name), w),
    }
}

fn built_in_word(env: &Env, name: &Name) -> Bits
    ensures { result ≡ built_in_word (hop_of env.now) name.now }
{
    if name.as_str() == "first_hop" {
        truth(env.view.first)
    } else if name.as_str() == "last_hop" {
        truth(env.last)
    } else if name.as_str() == "switch_id" {
        cut(16, env.view.switch as u128)
    } else {
        nothing(0)
    }
}

fn variable_word(
    env: &Env,
    items: &[(Name, Bits)],
    tele: &TeleState,
    sensors: &SensorState,
    name: &Name,
) -> Bits
    ensures { result ≡ variable_word (seen_of env.now items.now tele.now sensors.now) name.now (lookup (decls_of env.now) name.now) }
{
    match find(env.decls, name) {
        None => built_in_word(env, name),
        Some(d) => {
            let w = shape_width(&d.shape);
            word_by_kind(d.kind, env, items, tele, sensors, name, w)
        }
    }
}

fn item_in(items: &[(Name, Bits)], name: &Name) -> Option<Bits>
    ensures { result ≡ item_in items.now name.now }
{
    for item in items {
        if item.0.as_str() == name.as_str() {
            return Some(item.1);
        }
    }
    None
}

/// The value of a name.
pub fn name_word(
    env: &Env,
    items: &[(Name, Bits)],
    tele: &TeleState,
    sensors: &SensorState,
    name: &Name,
) -> Bits
    ensures { result ≡ name_word (seen_of env.now items.now tele.now sensors.now) name.now }
{
    match item_in(items, name) {
        Some(x) => x,
        None => variable_word(env, items, tele, sensors, name),
    }
}

fn same_words(a: &[Bits], b: &[Bits]) -> bool
    ensures { result ≡ same_words a.now b.now }
{
    let mut left = a;
    let mut right = b;
    loop {
        match left {
            [] => return right.is_empty(),
            [x, more @ ..] => match right {
                [] => return false,
                [y, others @ ..] => {
                    if x.value != y.value {
                        return false;
                    }
                    left = more;
                    right = others;
                }
            },
        }
    }
}

fn has_item(words: &[Bits], w: Bits) -> bool
    ensures { result ≡ has_item words.now w }
{
    for x in words {
        if x.value == w.value {
            return true;
        }
    }
    false
}

fn has_key(keys: &[Vec<Bits>], key: &[Bits]) -> bool
    ensures { result ≡ has_key (map cells_of keys.now) key.now }
{
    for k in keys {
        if same_words(k, key) {
            return true;
        }
    }
    false
}

fn found(entries: &[(Vec<Bits>, Bits)], key: &[Bits], w: u8) -> Bits
    ensures { result ≡ found (map entry_of entries.now) key.now w }
{
    let missing = nothing(w);
    for entry in entries {
        if same_words(&entry.0, key) {
            return entry.1;
        }
    }
    missing
}

fn found_in(contents: Option<&ControlValue>, key: &[Bits], w: u8) -> Bits
    ensures { result ≡ found_in (or_no_members (option_map (λ c. contents_of c.now) contents.entry)) key.now w }
{
    match contents {
        Some(ControlValue::One(_)) => nothing(w),
        Some(ControlValue::Members(_)) => nothing(w),
        Some(ControlValue::Pairs(entries)) => found(entries, key, w),
        None => nothing(w),
    }
}

fn held_in(contents: Option<&ControlValue>, key: &[Bits]) -> bool
    ensures { result ≡ held_in (or_no_members (option_map (λ c. contents_of c.now) contents.entry)) key.now }
{
    match contents {
        Some(ControlValue::One(_)) => false,
        Some(ControlValue::Members(keys)) => has_key(keys, key),
        Some(ControlValue::Pairs(_)) => false,
        None => false,
    }
}

fn cell_at(words: &[Bits], key: &[Bits], w: u8) -> Bits
    ensures { result ≡ cell_at words.now key.now w }
{
    match key {
        [] => nothing(w),
        [k, _rest @ ..] => word_at(words, k.value, w),
    }
}

fn at_key_by_kind(
    kind: DeclKind,
    env: &Env,
    items: &[(Name, Bits)],
    tele: &TeleState,
    sensors: &SensorState,
    name: &Name,
    key: &[Bits],
    w: u8,
) -> Bits
    ensures { result ≡ at_key_by_kind kind (seen_of env.now items.now tele.now sensors.now) name.now key.now w }
{
    match kind {
        DeclKind::Tele => nothing(w),
        DeclKind::Sensor => {
            cell_at(
                cells(DeclKind::Sensor, env.decls, &sensors.cells, name),
                key,
                w,
            )
        }
        DeclKind::Header => nothing(w),
        DeclKind::Control => found_in(contents(env, name), key, w),
    }
}

/// What a variable has at a key.
pub fn at_key(
    env: &Env,
    items: &[(Name, Bits)],
    tele: &TeleState,
    sensors: &SensorState,
    name: &Name,
    key: &[Bits],
) -> Bits
    ensures { result ≡ at_key (seen_of env.now items.now tele.now sensors.now) name.now (lookup (decls_of env.now) name.now) key.now }
{
    match find(env.decls, name) {
        None => nothing(0),
        Some(d) => {
            let w = shape_width(&d.shape);
            at_key_by_kind(d.kind, env, items, tele, sensors, name, key, w)
        }
    }
}

fn has_first(words: &[Bits], key: &[Bits]) -> bool
    ensures { result ≡ has_first words.now key.now }
{
    match key {
        [] => false,
        [k, _rest @ ..] => has_item(words, *k),
    }
}

fn has_by_kind(
    kind: DeclKind,
    env: &Env,
    items: &[(Name, Bits)],
    tele: &TeleState,
    sensors: &SensorState,
    name: &Name,
    key: &[Bits],
) -> bool
    ensures { result ≡ has_by_kind kind (seen_of env.now items.now tele.now sensors.now) name.now key.now }
{
    match kind {
        DeclKind::Tele => has_first(cells(DeclKind::Tele, env.decls, &tele.items, name), key),
        DeclKind::Sensor => false,
        DeclKind::Header => false,
        DeclKind::Control => held_in(contents(env, name), key),
    }
}

/// Whether a variable has a key.
pub fn has(
    env: &Env,
    items: &[(Name, Bits)],
    tele: &TeleState,
    sensors: &SensorState,
    name: &Name,
    key: &[Bits],
) -> bool
    ensures { result ≡ has (seen_of env.now items.now tele.now sensors.now) name.now (lookup (decls_of env.now) name.now) key.now }
{
    match find(env.decls, name) {
        None => false,
        Some(d) => has_by_kind(d.kind, env, items, tele, sensors, name, key),
    }
}

fn widths(alloc: Global, types: &[Ty]) -> Result<Vec<u8>, AllocError>
    ensures { IfOk result (λ v. v.items ≡ widths types.now) }
{
    let mut all = Vec::new(alloc);
    for ty in types {
        all.push(width_of(*ty))?;
    }
    Ok(all)
}

fn widths_of_index(alloc: Global, shape: &Shape) -> Result<Vec<u8>, AllocError>
    ensures { IfOk result (λ v. v.items ≡ index_widths (shape_of shape.now)) }
{
    match shape {
        Shape::One(_) => Ok(Vec::new(alloc)),
        Shape::List(_, _) => Ok(Vec::new(alloc)),
        Shape::SetOf(key) => widths(alloc, key),
        Shape::DictOf(key, _) => widths(alloc, key),
    }
}

fn one_width(alloc: Global, w: u8) -> Result<Vec<u8>, AllocError>
    ensures { IfOk result (λ v. v.items ≡ w ∷ []) }
{
    let mut all = Vec::new(alloc);
    all.push(w)?;
    Ok(all)
}

fn widths_of_member(alloc: Global, shape: &Shape) -> Result<Vec<u8>, AllocError>
    ensures { IfOk result (λ v. v.items ≡ member_widths (shape_of shape.now)) }
{
    match shape {
        Shape::One(_) => Ok(Vec::new(alloc)),
        Shape::List(ty, _) => one_width(alloc, width_of(*ty)),
        Shape::SetOf(key) => widths(alloc, key),
        Shape::DictOf(key, _) => widths(alloc, key),
    }
}

/// The widths that the places of a key's parts give, in brackets behind a name.
pub fn index_widths(alloc: Global, decls: &[Decl], name: &Name) -> Result<Vec<u8>, AllocError>
    ensures { IfOk result (λ v. v.items ≡ widths_for index_widths (lookup (map decl_of decls.now) name.now)) }
{
    match find(decls, name) {
        None => Ok(Vec::new(alloc)),
        Some(d) => widths_of_index(alloc, &d.shape),
    }
}

/// The same at the left of `in`.
pub fn member_widths(alloc: Global, decls: &[Decl], name: &Name) -> Result<Vec<u8>, AllocError>
    ensures { IfOk result (λ v. v.items ≡ widths_for member_widths (lookup (map decl_of decls.now) name.now)) }
{
    match find(decls, name) {
        None => Ok(Vec::new(alloc)),
        Some(d) => widths_of_member(alloc, &d.shape),
    }
}

/// The width of the first part's place.
pub fn first_width(widths: &[u8], v: u8) -> u8
    ensures { result ≡ first_width widths.now v }
{
    match widths {
        [] => either_width(v, 128),
        [w, _rest @ ..] => *w,
    }
}

pub fn other_widths<'a>(widths: &'a [u8]) -> &'a [u8]
    ensures { result.now ≡ other_widths widths.now }
{
    match widths {
        [] => widths,
        [_w, rest @ ..] => rest,
    }
}
