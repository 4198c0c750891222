//! A store in memory whose calls don't fail.

ghost use Rattle.std.specs.Prelude.{◌≡◌, ◌⊎◌, ◌≤◌, ℕ, List, length, OnOk, OnErr, IfOk, IsErrOf, MatchOption, Some, None};
ghost use Rattle.outside.specs.declared.stops.StoreStop.TheVariants.{Missing, TooLong, Failed};
ghost use Rattle.outside.specs.Causes.{Licenses, Counts};
ghost use Rattle.outside.specs.Files.{Told};
ghost use Rattle.outside.specs.Held.{HoldsAlso, IsSameHeld};
ghost use Rattle.outside.specs.Reading.{Reads, ReadsWhole};
ghost use Rattle.outside.specs.State.{counts_of};

use crate::held::{file_in, put_in, read_from};
use crate::{Store, StoreStop};
use std::alloc::{AllocError, Global};
use std::collections::BTreeMap;

/// Files in memory. No call fails, so its read faults and write faults are always 0.
#[derive(Drop)]
pub struct SureStore {
    held: BTreeMap<String, Vec<u8>>,
    misses: u64,
}

impl SureStore {
    ghost use Rattle.outside.specs.SureStore.{surely_held, sure_store_state};

    /// An empty store, which takes no memory.
    pub fn new(alloc: Global) -> SureStore
        ensures empty { (name : List ℕ) → surely_held result name ≡ None }
        ensures counts { counts_of (sure_store_state result) ≡ (0, 0, 0) }
    {
        SureStore {
            held: BTreeMap::new(alloc),
            misses: 0,
        }
    }

    /// Puts a file in, and counts nothing. After an error the files are as they were.
    pub fn hold(&mut self, alloc: Global, name: &str, bytes: &[u8]) -> Result<(), AllocError>
        ensures ok { OnOk result (HoldsAlso (surely_held self.old) (surely_held self.new) name.now bytes.now) }
        ensures err { OnErr result (IsSameHeld (surely_held self.old) (surely_held self.new)) }
        ensures counts { counts_of (sure_store_state self.new) ≡ counts_of (sure_store_state self.old) }
    {
        put_in(alloc, &mut self.held, name, bytes)
    }

    /// The bytes held under a name, or `None` where it is not held.
    pub fn file(&self, name: &str) -> Option<&[u8]>
        ensures { MatchOption result (surely_held self.now name.now ≡ None) (λ b. surely_held self.now name.now ≡ Some b.now) }
    {
        file_in(&self.held, name)
    }
}

impl Store for SureStore {
    ghost use Rattle.outside.specs.SureStore.{surely_held, sure_store_state};

    ghost state = { sure_store_state };

    fn read(&mut self, alloc: Global, name: &str, limit: u64) -> Result<Vec<u8>, StoreStop>
        ensures kept { (sure_store_state self.new).files ≡ (sure_store_state self.old).files }
        ensures content { Told (sure_store_state self.old).files (λ f. Reads (f name.now) limit (sure_store_state self.old).read_faults (sure_store_state self.new).read_faults result) }
        ensures within { IfOk result (λ b. length b.items ≤ limit) }
        ensures missing { Licenses (sure_store_state self.old).misses (sure_store_state self.new).misses (IsErrOf result Missing) }
        ensures failed { Licenses (sure_store_state self.old).read_faults (sure_store_state self.new).read_faults (IsErrOf result Failed) }
        ensures writes_stay { (sure_store_state self.new).write_faults ≡ (sure_store_state self.old).write_faults }

        // Each read answers by what is held.
        ensures sure { ReadsWhole (surely_held self.old name.now) limit result }
        ensures misses { Counts (sure_store_state self.old).misses (sure_store_state self.new).misses (IsErrOf result Missing) }
    {
        let result = read_from(alloc, &self.held, name, limit);
        if matches!(&result, Err(StoreStop::Missing)) {
            self.misses = self.misses.saturating_add(1);
        }
        result
    }

    fn write(&mut self, alloc: Global, name: &str, bytes: &[u8]) -> Result<(), StoreStop> {
        Ok(put_in(alloc, &mut self.held, name, bytes)?)
    }
}
