//! The store before the parser.

ghost use Rattle.std.specs.Prelude.{◌≡◌, IfOk, OnOk, map};
ghost use Rattle.p4_meaning.specs.Store.{blank};
ghost use Rattle.p4_meaning.specs.Pass.{zero_fields, no_headers, with_standard, store_before};
ghost use Rattle.p4_packets.specs.Fields.{store_of};
ghost use Rattle.p4_parts.specs.Headers.{field_in, header_in};
ghost use Rattle.p4_parts.specs.PartsIn.{parts_in};

use crate::fields::Fields;
use crate::standard::set_number;
use bit_values::{Bits, sound_width};
use lex_text::Name;
use p4_parts::{Field, Header, Parts};
use p4_values::path_of_one;
use std::alloc::{AllocError, Global};

/// The fields become 0.
fn zero_fields(
    alloc: Global,
    path: &[Name],
    fields: &[Field],
    s: &mut Fields,
) -> Result<(), AllocError>
    ensures { OnOk result (store_of s.new ≡ zero_fields path.now (map field_in fields.now) (store_of s.old)) }
{
    for f in fields {
        let zero = Bits::default().cast(sound_width(f.width));
        s.set_field(alloc, path, &f.name, zero)?;
    }
    Ok(())
}

/// The headers are invalid, and their fields 0.
fn no_headers(alloc: Global, headers: &[Header], s: &mut Fields) -> Result<(), AllocError>
    ensures { OnOk result (store_of s.new ≡ no_headers (map header_in headers.now) (store_of s.old)) }
{
    for h in headers {
        s.set_valid(alloc, &h.path, false)?;
        zero_fields(alloc, &h.path, &h.fields, s)?;
    }
    Ok(())
}

/// The standard metadata before the parser.
fn with_standard(alloc: Global, port: u16, length: u64, s: &mut Fields) -> Result<(), AllocError>
    ensures { OnOk result (store_of s.new ≡ with_standard port length (store_of s.old)) }
{
    set_number(alloc, "ingress_port", 9, port as u128, s)?;
    set_number(alloc, "egress_spec", 9, 0, s)?;
    set_number(alloc, "egress_port", 9, 0, s)?;
    set_number(alloc, "packet_length", 32, length as u128, s)?;
    set_number(alloc, "checksum_error", 1, 0, s)?;
    set_number(alloc, "parser_error", 2, 0, s)?;
    Ok(())
}

/// The store before the parser.
pub fn store_before(alloc: Global, p: &Parts, port: u16, length: u64) -> Result<Fields, AllocError>
    ensures { IfOk result (λ s. store_of s ≡ store_before (parts_in p.now) port length) }
{
    let mut s = Fields::new(alloc);
    no_headers(alloc, &p.headers, &mut s)?;
    let root = Name::new(alloc, "meta")?;
    let path = path_of_one(alloc, &root)?;
    zero_fields(alloc, &path, &p.metadata, &mut s)?;
    with_standard(alloc, port, length, &mut s)?;
    Ok(s)
}
