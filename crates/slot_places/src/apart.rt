//! Whether the paths of a program are apart.

ghost use Rattle.std.specs.Prelude.{◌≡◌, ◌&&◌, is_some, map, IfOk};
ghost use Rattle.slot_terms.specs.Places.{path_of, place_at, place_of};
ghost use Rattle.slot_places.specs.ProgramPlaces.{are_apart, are_headers, is_root};

use lex_text::Name;
use p4_values::{same_path, same_text};
use slot_terms::{Place, header_number};
use std::alloc::AllocError;

/// Whether one of the rows has this path.
fn is_among(rows: &[Place], path: &[Name]) -> bool
    ensures { result ≡ is_some (place_at (map place_of rows.now) path.now) }
{
    for row in rows {
        if same_path(&row.path, path) {
            return true;
        }
    }
    false
}

/// Whether no two rows have one path.
fn are_apart(rows: &[Place]) -> bool
    ensures { result ≡ are_apart (map place_of rows.now) }
{
    let mut left = rows;
    loop {
        match left {
            [] => return true,
            [row, rest @ ..] => {
                if is_among(rest, &row.path) {
                    return false;
                }
                left = rest;
            }
        }
    }
}

/// Whether below a path stands what is no field of a header.
fn is_root(path: &[Name]) -> bool
    ensures { result ≡ is_root path.now }
{
    match path {
        [] => true,
        [name, rest @ ..] => match rest {
            [] => {
                same_text("standard_metadata", name.as_str()) || same_text("meta", name.as_str())
            }
            [_second, _more @ ..] => false,
        },
    }
}

/// Whether no two headers have one path, and none has that of a root.
fn are_headers(paths: &[Vec<Name>]) -> Result<bool, AllocError>
    ensures { IfOk result (λ b. b ≡ are_headers (map path_of paths.now)) }
{
    let mut left = paths;
    loop {
        match left {
            [] => return Ok(true),
            [path, rest @ ..] => {
                if is_root(path) || header_number(rest, path)?.is_some() {
                    return Ok(false);
                }
                left = rest;
            }
        }
    }
}

/// Whether no path of a program is declared twice, by its rows and the paths of its headers.
pub(crate) fn is_apart(rows: &[Place], paths: &[Vec<Name>]) -> Result<bool, AllocError>
    ensures { IfOk result (λ b. b ≡ (are_apart (map place_of rows.now) && are_headers (map path_of paths.now))) }
{
    if are_apart(rows) {
        are_headers(paths)
    } else {
        Ok(false)
    }
}
