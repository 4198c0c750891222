//! The deparser.

ghost use Rattle.std.specs.Prelude.{◌≡◌, ◌++◌, IfOk, OnOk, map};
ghost use Rattle.bit_writer.specs.Bytes.{bytes_of};
ghost use Rattle.bit_writer.specs.Written.{bits_in};
ghost use Rattle.p4_meaning.specs.Parsing.{fields_bits, header_bits, deparse_of};
ghost use Rattle.p4_packets.specs.Fields.{store_of};
ghost use Rattle.p4_parts.specs.Headers.{field_in, header_in};
ghost use Rattle.p4_parts.specs.Paths.{path_in};
ghost use Rattle.p4_parts.specs.PartsIn.{parts_in};
ghost use Rattle.p4_packets.specs.Rests.{rest_in};

use crate::fields::Fields;
use crate::rest::Rest;
use bit_writer::BitWriter;
use lex_text::Name;
use p4_parts::{Field, Header, Parts};
use p4_values::{Sight, same_path};
use std::alloc::{AllocError, Global};

/// The fields of a header go behind the bits that are written.
fn put_fields(
    alloc: Global,
    path: &[Name],
    fields: &[Field],
    s: &Fields,
    out: &mut BitWriter,
) -> Result<(), AllocError>
    ensures { OnOk result (bits_in out.new ≡ bits_in out.old ++ fields_bits path.now (map field_in fields.now) (store_of s.now)) }
{
    for f in fields {
        let v = s.field_value(alloc, path, &f.name)?.cast(f.width);
        out.put(f.width, v.value)?;
    }
    Ok(())
}

/// The header at a path, where it is valid.
fn put_header(
    alloc: Global,
    headers: &[Header],
    path: &[Name],
    s: &Fields,
    out: &mut BitWriter,
) -> Result<(), AllocError>
    ensures { OnOk result (bits_in out.new ≡ bits_in out.old ++ header_bits (map header_in headers.now) path.now (store_of s.now)) }
{
    for h in headers {
        if same_path(&h.path, path) {
            return match s.header(&h.path) {
                Some(true) => put_fields(alloc, &h.path, &h.fields, s, out),
                Some(false) => Ok(()),
                None => Ok(()),
            };
        }
    }
    Ok(())
}

/// The headers that a deparser emits, where they are valid.
fn put_headers(
    alloc: Global,
    headers: &[Header],
    emits: &[Vec<Name>],
    s: &Fields,
    out: &mut BitWriter,
) -> Result<(), AllocError>
    ensures { OnOk result (bits_in out.new ≡ bits_in out.old ++ deparse_of (map header_in headers.now) (map path_in emits.now) (store_of s.now)) }
{
    for path in emits {
        put_header(alloc, headers, path, s, out)?;
    }
    Ok(())
}

/// The frame that a deparser makes.
pub fn write_frame(alloc: Global, p: &Parts, s: &Fields, rest: &Rest) -> Result<Vec<u8>, AllocError>
    ensures { IfOk result (λ v. v.items ≡ bytes_of (deparse_of (parts_in p.now).headers (parts_in p.now).emits (store_of s.now) ++ rest_in rest.now)) }
{
    let mut out = BitWriter::new(alloc);
    put_headers(alloc, &p.headers, &p.emits, s, &mut out)?;
    out.put_rest(&rest.bytes, rest.skip)?;
    Ok(out.finish())
}
