//! What a switch keeps of a program.

use slot_passages::ProgramCode;
use slot_terms::Places;

/// The code of a program, the places of its paths, and the most keys that the application of a table has.
pub struct Coded {
    pub code: ProgramCode,
    pub places: Places,
    pub keys: usize,
}

impl Drop for Coded {
    fn drop(self) {
        let Coded {
            code: _code,
            places: _places,
            keys: _,
        } = self;
    }
}
