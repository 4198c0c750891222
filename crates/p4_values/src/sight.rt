//! What is in sight at a place of a program.

ghost use Rattle.std.specs.Prelude.{◌≡◌};
ghost use Rattle.p4_meaning.specs.Store.{Store, blank, read};

use bit_values::Bits;
use lex_text::Name;

/// The words of paths, and which headers are valid.
pub trait Sight {
    /// What is in sight, as a store.
    ghost store: { Self → Store };

    /// The word that a path reads: 0 where its header is not valid.
    fn read(&self, path: &[Name]) -> Bits
        ensures { result ≡ read (store self.now) path.now };

    /// Whether the header at a path is valid; `None` where no header is.
    fn header(&self, path: &[Name]) -> Option<bool>
        ensures { result ≡ (store self.now).headers path.now };
}

/// Where nothing is declared: each path reads one bit that is 0, and there is no header.
#[derive(Clone, Copy, Debug)]
pub struct Nowhere;

impl Sight for Nowhere {
    ghost store = { λ s. blank };

    fn read(&self, _path: &[Name]) -> Bits {
        Bits::default()
    }

    fn header(&self, _path: &[Name]) -> Option<bool> {
        None
    }
}
