//! A number of each path, by which nearly all other paths are told apart: FNV-1a of 64 bits.

ghost use Rattle.std.specs.Prelude.{◌≡◌};
ghost use Rattle.slot_terms.specs.Hashes.{byte_hash, name_hash, path_hash};

use lex_text::Name;

/// What the number of no path is.
const BASIS: u64 = 14_695_981_039_346_656_037;

const PRIME: u64 = 1_099_511_628_211;

fn byte_hash(hash: u64, byte: u8) -> u64
    ensures { result ≡ byte_hash hash byte }
{
    (hash ^ byte as u64).wrapping_mul(PRIME)
}

fn name_hash(hash: u64, name: &str) -> u64
    ensures { result ≡ name_hash hash name.now }
{
    let mut hash = hash;
    for byte in name.as_bytes() {
        hash = byte_hash(hash, *byte);
    }
    hash
}

/// The number of a path, each of whose names has a point before it.
pub(crate) fn path_hash(path: &[Name]) -> u64
    ensures { result ≡ path_hash path.now }
{
    let mut hash = BASIS;
    for name in path {
        hash = name_hash(byte_hash(hash, b'.'), name.as_str());
    }
    hash
}
