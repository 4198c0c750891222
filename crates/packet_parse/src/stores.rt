//! What the parser and the deparser have in sight, by paths that begin with fixed roots.

ghost use Rattle.std.specs.Prelude.{◌≡◌, IfOk, OnOk, map};
ghost use Rattle.bit_values.specs.Bits.{cast};
ghost use Rattle.p4_meaning.specs.Store.{blank};
ghost use Rattle.p4_meaning.specs.Scope.{path_under};
ghost use Rattle.p4_packets.specs.Fields.{store_of};
ghost use Rattle.p4_resolved.specs.Scopes.{scope_of};
ghost use Rattle.packet_parse.specs.Stores.{error_at, shown_standard, shown_valid, shown_value, store_under, valid_or, with_headers, with_standard, with_values};

use crate::fields::{Fields, StdMeta};
use crate::sight::{cut, error_word};
use bit_values::{Bits, holds, truth};
use lex_text::Name;
use p4_packets::{Fields as Store, ParserError, number, set_standard, standard_value};
use p4_resolved::{Scope, first_name};
use p4_values::{Sight, copy_path};
use std::alloc::{AllocError, Global};

/// The path of the store that a path is.
fn path_under(alloc: Global, sc: &Scope, path: &[Name]) -> Result<Vec<Name>, AllocError>
    ensures { IfOk result (λ v. v.items ≡ path_under (scope_of sc.now) path.now) }
{
    let mut names = copy_path(alloc, path)?;
    match path {
        [] => {}
        [first, _rest @ ..] => names[0] = first_name(alloc, sc, first)?,
    }
    Ok(names)
}

/// Sets the words of paths, from the last on, so that the first of a path counts.
fn put_values(
    alloc: Global,
    sc: &Scope,
    rows: &[(Vec<Name>, Bits)],
    s: &mut Store,
) -> Result<(), AllocError>
    ensures { OnOk result (store_of s.new ≡ with_values (scope_of sc.now) rows.now (store_of s.old)) }
{
    let mut left = rows.len();
    while left > 0 {
        left -= 1;
        let path = path_under(alloc, sc, &rows[left].0)?;
        s.set(alloc, &path, rows[left].1)?;
    }
    Ok(())
}

/// Makes headers valid, or not, likewise.
fn put_headers(
    alloc: Global,
    sc: &Scope,
    rows: &[(Vec<Name>, bool)],
    s: &mut Store,
) -> Result<(), AllocError>
    ensures { OnOk result (store_of s.new ≡ with_headers (scope_of sc.now) rows.now (store_of s.old)) }
{
    let mut left = rows.len();
    while left > 0 {
        left -= 1;
        let path = path_under(alloc, sc, &rows[left].0)?;
        s.set_valid(alloc, &path, rows[left].1)?;
    }
    Ok(())
}

/// Sets the standard metadata.
fn put_standard(alloc: Global, std: &StdMeta, s: &mut Store) -> Result<(), AllocError>
    ensures { OnOk result (store_of s.new ≡ with_standard std.now (store_of s.old)) }
{
    set_standard(alloc, "ingress_port", cut(9, std.ingress_port as u32), s)?;
    set_standard(alloc, "egress_spec", cut(9, std.egress_spec as u32), s)?;
    set_standard(alloc, "egress_port", cut(9, std.egress_port as u32), s)?;
    set_standard(alloc, "packet_length", cut(32, std.packet_length), s)?;
    set_standard(alloc, "checksum_error", truth(std.checksum_error), s)?;
    set_standard(alloc, "parser_error", error_word(std.parser_error), s)?;
    Ok(())
}

/// What fields stand for, where names stand for this.
pub(crate) fn store_under(alloc: Global, sc: &Scope, f: &Fields) -> Result<Store, AllocError>
    ensures { IfOk result (λ s. store_of s ≡ store_under (scope_of sc.now) f.now) }
{
    let mut s = Store::new(alloc);
    put_headers(alloc, sc, &f.valid, &mut s)?;
    put_values(alloc, sc, &f.values, &mut s)?;
    put_standard(alloc, &f.std, &mut s)?;
    Ok(s)
}

/// The words of paths become those of a store.
fn show_values(
    alloc: Global,
    sc: &Scope,
    s: &Store,
    rows: &mut Vec<(Vec<Name>, Bits)>,
) -> Result<(), AllocError>
    ensures { OnOk result (rows.new.items ≡ map (shown_value (scope_of sc.now) (store_of s.now)) rows.old.items) }
{
    for i in 0..rows.len() {
        let path = path_under(alloc, sc, &rows[i].0)?;
        rows[i].1 = s.value(&path);
    }
    Ok(())
}

/// Headers become valid, or not, as in a store.
fn show_headers(
    alloc: Global,
    sc: &Scope,
    s: &Store,
    rows: &mut Vec<(Vec<Name>, bool)>,
) -> Result<(), AllocError>
    ensures { OnOk result (rows.new.items ≡ map (shown_valid (scope_of sc.now) (store_of s.now)) rows.old.items) }
{
    for i in 0..rows.len() {
        let path = path_under(alloc, sc, &rows[i].0)?;
        rows[i].1 = valid_or(s.header(&path), rows[i].1);
    }
    Ok(())
}

/// Whether a header is valid, or else another truth value.
fn valid_or(valid: Option<bool>, other: bool) -> bool
    ensures { result ≡ valid_or valid other }
{
    match valid {
        None => other,
        Some(valid) => valid,
    }
}

/// The parser's error of a number.
fn error_at(number: u128) -> ParserError
    ensures { result ≡ error_at number }
{
    if number == 0 {
        ParserError::NoError
    } else if number == 1 {
        ParserError::PacketTooShort
    } else {
        ParserError::NoMatch
    }
}

/// The standard metadata of a store.
fn shown_standard(alloc: Global, s: &Store) -> Result<StdMeta, AllocError>
    ensures { IfOk result (λ m. m ≡ shown_standard (store_of s.now)) }
{
    let ingress = standard_value(alloc, "ingress_port", s)?;
    let spec = standard_value(alloc, "egress_spec", s)?;
    let egress = standard_value(alloc, "egress_port", s)?;
    let length = standard_value(alloc, "packet_length", s)?;
    let checksum = standard_value(alloc, "checksum_error", s)?;
    let error = standard_value(alloc, "parser_error", s)?;
    Ok(StdMeta {
        ingress_port: port(ingress),
        egress_spec: port(spec),
        egress_port: port(egress),
        packet_length: length_in(length),
        checksum_error: holds(checksum),
        parser_error: error_at(number(error)),
    })
}

/// The 9 bits of a port.
fn port(word: Bits) -> u16
    ensures { result ≡ cast 9 word.value }
{
    word.cast(9).value as u16
}

/// The 32 bits of a length.
fn length_in(word: Bits) -> u32
    ensures { result ≡ cast 32 word.value }
{
    word.cast(32).value as u32
}

/// Fields become those of a store, where names stand for this. After want of memory some of them may
/// be.
pub(crate) fn show(alloc: Global, sc: &Scope, s: &Store, f: &mut Fields) -> Result<(), AllocError>
    ensures valid { OnOk result (f.new.valid.items ≡ map (shown_valid (scope_of sc.now) (store_of s.now)) f.old.valid.items) }
    ensures values { OnOk result (f.new.values.items ≡ map (shown_value (scope_of sc.now) (store_of s.now)) f.old.values.items) }
    ensures name { f.new.std_name ≡ f.old.std_name }
    ensures standard { OnOk result (f.new.std ≡ shown_standard (store_of s.now)) }
{
    f.std = shown_standard(alloc, s)?;
    show_headers(alloc, sc, s, &mut f.valid)?;
    show_values(alloc, sc, s, &mut f.values)?;
    Ok(())
}
