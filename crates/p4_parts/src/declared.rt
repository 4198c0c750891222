//! Which paths a program declares, and which of them statements may write.

ghost use Rattle.std.specs.Prelude.{◌≡◌, ◌∷◌, ◌++◌, [], map};
ghost use Rattle.lex_text.specs.Names.{same_path};
ghost use Rattle.p4_meaning.specs.Standard.{metadata_root, standard_root, standard_paths, is_assignable};
ghost use Rattle.p4_meaning.specs.Pass.{is_field_of, is_header_field, is_one_path, is_declared_path, is_declared_header};
ghost use Rattle.p4_parts.specs.Headers.{field_in, header_in};
ghost use Rattle.p4_parts.specs.PartsIn.{parts_in};

use crate::header::{Field, Header};
use crate::parts::Parts;
use lex_text::Name;
use p4_values::{same_path, same_text};

/// Whether a path is this one name.
fn is_one(name: &Name, path: &[Name]) -> bool
    ensures { result ≡ same_path (name.now ∷ []) path.now }
{
    match path {
        [] => false,
        [x, rest @ ..] => match rest {
            [] => same_text(name.as_str(), x.as_str()),
            [_second, _more @ ..] => false,
        },
    }
}

/// Whether a path is another one with one name more.
fn is_below(above: &[Name], name: &Name, path: &[Name]) -> bool
    ensures { result ≡ same_path (above.now ++ name.now ∷ []) path.now }
{
    for i in 0..above.len() {
        if i >= path.len() {
            return false;
        }
        if !same_text(above[i].as_str(), path[i].as_str()) {
            return false;
        }
    }
    if above.len() <= path.len() {
        is_one(name, &path[above.len()..])
    } else {
        false
    }
}

/// Whether a path is a field of a header at a path, or of the metadata.
fn is_field_of(above: &[Name], fields: &[Field], path: &[Name]) -> bool
    ensures { result ≡ is_field_of above.now (map field_in fields.now) path.now }
{
    for f in fields {
        if is_below(above, &f.name, path) {
            return true;
        }
    }
    false
}

fn is_header_field(headers: &[Header], path: &[Name]) -> bool
    ensures { result ≡ is_header_field (map header_in headers.now) path.now }
{
    for h in headers {
        if is_field_of(&h.path, &h.fields, path) {
            return true;
        }
    }
    false
}

/// Whether a path is a root and a field.
fn is_pair(root: &str, field: &str, path: &[Name]) -> bool
    ensures { result ≡ same_path (root.now ∷ field.now ∷ []) path.now }
{
    match path {
        [] => false,
        [x, rest @ ..] => match rest {
            [] => false,
            [y, more @ ..] => match more {
                [] => same_text(root, x.as_str()) && same_text(field, y.as_str()),
                [_third, _others @ ..] => false,
            },
        },
    }
}

/// Whether a path is a field of the standard metadata.
fn is_standard(field: &str, path: &[Name]) -> bool
    ensures { result ≡ same_path (standard_root ∷ field.now ∷ []) path.now }
{
    is_pair("standard_metadata", field, path)
}

/// Whether a path is one of the standard metadata's.
fn is_any_standard(path: &[Name]) -> bool
    ensures { result ≡ is_one_path standard_paths path.now }
{
    is_standard("ingress_port", path)
        || is_standard("egress_spec", path)
        || is_standard("egress_port", path)
        || is_standard("packet_length", path)
        || is_standard("checksum_error", path)
        || is_standard("parser_error", path)
}

/// Whether a path is a field of the metadata.
fn is_metadata(fields: &[Field], path: &[Name]) -> bool
    ensures { result ≡ is_field_of (metadata_root ∷ []) (map field_in fields.now) path.now }
{
    for f in fields {
        if is_pair("meta", f.name.as_str(), path) {
            return true;
        }
    }
    false
}

/// Whether a program declares a path: a field of a header, of the metadata or of the standard
/// metadata.
pub fn is_declared_path(p: &Parts, path: &[Name]) -> bool
    ensures { result ≡ is_declared_path (parts_in p.now) path.now }
{
    is_any_standard(path) || is_metadata(&p.metadata, path) || is_header_field(&p.headers, path)
}

/// Whether a program declares a header at a path.
pub fn is_declared_header(headers: &[Header], path: &[Name]) -> bool
    ensures { result ≡ is_declared_header (map header_in headers.now) path.now }
{
    for h in headers {
        if same_path(&h.path, path) {
            return true;
        }
    }
    false
}

/// Whether statements may write a path: of the standard metadata `egress_spec` alone.
pub fn is_assignable(path: &[Name]) -> bool
    ensures { result ≡ is_assignable path.now }
{
    match path {
        [] => true,
        [x, rest @ ..] => match rest {
            [] => true,
            [y, more @ ..] => {
                if same_text(x.as_str(), "standard_metadata") {
                    match more {
                        [] => same_text(y.as_str(), "egress_spec"),
                        [_third, _others @ ..] => false,
                    }
                } else {
                    true
                }
            }
        },
    }
}
