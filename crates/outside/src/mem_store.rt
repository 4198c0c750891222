//! A store in memory, whose calls fail where a list says so.

ghost use Rattle.std.specs.Prelude.{◌≡◌, ◌⊎◌, ◌≤◌, ℕ, List, length, Contains, OnOk, OnErr, IfOk, IsErrOf, MatchOption, Some, None};
ghost use Rattle.outside.specs.declared.stops.StoreStop.TheVariants.{Missing, TooLong, Failed};
ghost use Rattle.outside.specs.Causes.{Licenses, Counts, raised};
ghost use Rattle.outside.specs.Files.{Told, ToldBoth};
ghost use Rattle.outside.specs.Held.{HoldsAlso, IsSameHeld};
ghost use Rattle.outside.specs.Reading.{Reads, ReadsWhole, Writes};
ghost use Rattle.outside.specs.State.{counts_of};

use crate::failing::FailList;
use crate::held::{file_in, put_in, read_from};
use crate::{Store, StoreStop};
use std::alloc::{AllocError, Global};
use std::collections::BTreeMap;

/// Files in memory, with a list of the calls that are to fail.
///
/// Reads and writes are numbered together from 0. A call whose number is listed answers `Failed`,
/// whatever its name is.
#[derive(Drop)]
pub struct MemStore {
    held: BTreeMap<String, Vec<u8>>,
    fail: FailList,
    misses: u64,
    read_faults: u64,
    write_faults: u64,
}

impl MemStore {
    ghost use Rattle.outside.specs.MemStore.{held_by, mem_store_state, failing_calls, next_call};

    /// An empty store, which takes no memory. `fail` lists the calls that are to fail, in any order.
    pub fn new(alloc: Global, fail: Vec<u64>) -> MemStore
        ensures empty { (name : List ℕ) → held_by result name ≡ None }
        ensures counts { counts_of (mem_store_state result) ≡ (0, 0, 0) }
        ensures list { failing_calls result ≡ fail.items }
        ensures next { next_call result ≡ 0 }
    {
        MemStore {
            held: BTreeMap::new(alloc),
            fail: FailList::new(fail),
            misses: 0,
            read_faults: 0,
            write_faults: 0,
        }
    }

    /// Puts a file in, and counts nothing. After an error the files are as they were.
    pub fn hold(&mut self, alloc: Global, name: &str, bytes: &[u8]) -> Result<(), AllocError>
        ensures ok { OnOk result (HoldsAlso (held_by self.old) (held_by self.new) name.now bytes.now) }
        ensures err { OnErr result (IsSameHeld (held_by self.old) (held_by self.new)) }
        ensures counts { counts_of (mem_store_state self.new) ≡ counts_of (mem_store_state self.old) }
        ensures list { (failing_calls self.new ≡ failing_calls self.old) × (next_call self.new ≡ next_call self.old) }
    {
        put_in(alloc, &mut self.held, name, bytes)
    }

    /// The bytes held under a name, or `None` where it is not held.
    pub fn file(&self, name: &str) -> Option<&[u8]>
        ensures { MatchOption result (held_by self.now name.now ≡ None) (λ b. held_by self.now name.now ≡ Some b.now) }
    {
        file_in(&self.held, name)
    }
}

impl Store for MemStore {
    ghost use Rattle.outside.specs.MemStore.{held_by, mem_store_state, failing_calls, next_call};

    ghost state = { mem_store_state };

    fn read(&mut self, alloc: Global, name: &str, limit: u64) -> Result<Vec<u8>, StoreStop>
        ensures kept { (mem_store_state self.new).files ≡ (mem_store_state self.old).files }
        ensures content { Told (mem_store_state self.old).files (λ f. Reads (f name.now) limit (mem_store_state self.old).read_faults (mem_store_state self.new).read_faults result) }
        ensures within { IfOk result (λ b. length b.items ≤ limit) }
        ensures missing { Licenses (mem_store_state self.old).misses (mem_store_state self.new).misses (IsErrOf result Missing) }
        ensures failed { Licenses (mem_store_state self.old).read_faults (mem_store_state self.new).read_faults (IsErrOf result Failed) }
        ensures writes_stay { (mem_store_state self.new).write_faults ≡ (mem_store_state self.old).write_faults }

        // A listed read fails whatever its name is, and every other one answers by what is held.
        ensures listed { Contains (failing_calls self.old) (next_call self.old) → IsErrOf result Failed }
        ensures unlisted { (Contains (failing_calls self.old) (next_call self.old) → ⊥) → ReadsWhole (held_by self.old name.now) limit result }
        ensures misses { Counts (mem_store_state self.old).misses (mem_store_state self.new).misses (IsErrOf result Missing) }
        ensures faults { Counts (mem_store_state self.old).read_faults (mem_store_state self.new).read_faults (IsErrOf result Failed) }
        ensures numbered { next_call self.new ≡ raised (next_call self.old) }
        ensures list_stays { failing_calls self.new ≡ failing_calls self.old }
    {
        if self.fail.fails() {
            self.read_faults = self.read_faults.saturating_add(1);
            return Err(StoreStop::Failed);
        }
        let result = read_from(alloc, &self.held, name, limit);
        if matches!(&result, Err(StoreStop::Missing)) {
            self.misses = self.misses.saturating_add(1);
        }
        result
    }

    fn write(&mut self, alloc: Global, name: &str, bytes: &[u8]) -> Result<(), StoreStop>
        ensures content { ToldBoth (mem_store_state self.old).files (mem_store_state self.new).files (λ f g. Writes f g name.now bytes.now result) }
        ensures stops { (IsErrOf result Missing ⊎ IsErrOf result TooLong) → ⊥ }
        ensures failed { Licenses (mem_store_state self.old).write_faults (mem_store_state self.new).write_faults (IsErrOf result Failed) }
        ensures misses_stay { (mem_store_state self.new).misses ≡ (mem_store_state self.old).misses }
        ensures reads_stay { (mem_store_state self.new).read_faults ≡ (mem_store_state self.old).read_faults }

        // A listed write fails whatever its name is, and no other one does.
        ensures listed { Contains (failing_calls self.old) (next_call self.old) → IsErrOf result Failed }
        ensures unlisted { (Contains (failing_calls self.old) (next_call self.old) → ⊥) → IsErrOf result Failed → ⊥ }
        ensures faults { Counts (mem_store_state self.old).write_faults (mem_store_state self.new).write_faults (IsErrOf result Failed) }
        ensures numbered { next_call self.new ≡ raised (next_call self.old) }
        ensures list_stays { failing_calls self.new ≡ failing_calls self.old }
    {
        if self.fail.fails() {
            self.write_faults = self.write_faults.saturating_add(1);
            return Err(StoreStop::Failed);
        }
        Ok(put_in(alloc, &mut self.held, name, bytes)?)
    }
}
