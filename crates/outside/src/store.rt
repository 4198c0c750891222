//! Files under names, as the program meets them.

ghost use Rattle.std.specs.Prelude.{◌≡◌, ◌⊎◌, ◌≤◌, length, IfOk, IsErrOf};
ghost use Rattle.outside.specs.declared.stops.StoreStop.TheVariants.{Missing, TooLong, Failed};
ghost use Rattle.outside.specs.Causes.{Licenses};
ghost use Rattle.outside.specs.Files.{Told, ToldBoth};
ghost use Rattle.outside.specs.Reading.{Reads, Writes};
ghost use Rattle.outside.specs.State.{StoreState};

use crate::StoreStop;
use std::alloc::Global;

/// Files under their names.
///
/// A store tells its files after a call exactly where it told them before.
pub trait Store {
    /// The files, where the store tells them, and its counts of misses, read faults and write faults.
    ghost state: { Self → StoreState };

    /// The bytes of a file of at most `limit` bytes.
    ///
    /// No file changes. Where files are told, Ok gives the held bytes, `Missing` comes exactly where
    /// the name is not held, and `TooLong` exactly where the file is longer, but for faults and want
    /// of memory.
    fn read(&mut self, alloc: Global, name: &str, limit: u64) -> Result<Vec<u8>, StoreStop>
        ensures kept { (state self.new).files ≡ (state self.old).files }
        ensures content { Told (state self.old).files (λ f. Reads (f name.now) limit (state self.old).read_faults (state self.new).read_faults result) }
        ensures within { IfOk result (λ b. length b.items ≤ limit) }
        ensures missing { Licenses (state self.old).misses (state self.new).misses (IsErrOf result Missing) }
        ensures failed { Licenses (state self.old).read_faults (state self.new).read_faults (IsErrOf result Failed) }
        ensures writes_stay { (state self.new).write_faults ≡ (state self.old).write_faults };

    /// Puts these bytes under the name, in place of what it held.
    ///
    /// Other names stay. After `Failed` or `NoMemory` the content under this name is not known.
    fn write(&mut self, alloc: Global, name: &str, bytes: &[u8]) -> Result<(), StoreStop>
        ensures content { ToldBoth (state self.old).files (state self.new).files (λ f g. Writes f g name.now bytes.now result) }
        ensures stops { (IsErrOf result Missing ⊎ IsErrOf result TooLong) → ⊥ }
        ensures failed { Licenses (state self.old).write_faults (state self.new).write_faults (IsErrOf result Failed) }
        ensures misses_stay { (state self.new).misses ≡ (state self.old).misses }
        ensures reads_stay { (state self.new).read_faults ≡ (state self.old).read_faults };
}
