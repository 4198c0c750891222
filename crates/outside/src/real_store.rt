//! The system's files, of which nothing is told.

ghost use Rattle.std.specs.Prelude.{◌≡◌, ◌≢◌, ◌⊎◌, ◌≤◌, ◌↔◌, length, IfOk, IsErrOf};
ghost use Rattle.std.specs.IoError.{error_kind};
ghost use Rattle.outside.specs.declared.stops.StoreStop.TheVariants.{Missing, TooLong, Failed};
ghost use Rattle.outside.specs.Causes.{Licenses, Counts};
ghost use Rattle.outside.specs.Files.{Told, ToldBoth};
ghost use Rattle.outside.specs.Reading.{Reads, Writes};
ghost use Rattle.outside.specs.State.{counts_of};

use crate::transfer::{read_up_to, write_whole};
use crate::{SinkStop, Store, StoreStop};
use std::alloc::Global;
use std::fs;
use std::io::{Error, ErrorKind};
use std::rt::Files;

/// The files of the system. A name is a path, and one that begins without a slash starts at the
/// working folder.
///
/// It tells nothing of content. Its counts are raised at each `Missing` and at each `Failed` of a
/// read and of a write.
#[derive(Drop)]
pub struct RealStore<'a, R: Files> {
    rt: &'a R,
    misses: u64,
    read_faults: u64,
    write_faults: u64,
}

impl<'a, R: Files> RealStore<'a, R> {
    ghost use Rattle.outside.specs.RealStore.{real_store_state};

    /// The files that this runtime reaches, with nothing counted.
    pub fn new(rt: &'a R) -> Self
        ensures counts { counts_of (real_store_state result) ≡ (0, 0, 0) }
    {
        RealStore {
            rt,
            misses: 0,
            read_faults: 0,
            write_faults: 0,
        }
    }
}

impl<'a, R: Files> Store for RealStore<'a, R> {
    ghost use Rattle.outside.specs.RealStore.{real_store_state};

    ghost state = { real_store_state };

    fn read(&mut self, alloc: Global, name: &str, limit: u64) -> Result<Vec<u8>, StoreStop>
        ensures kept { (real_store_state self.new).files ≡ (real_store_state self.old).files }
        ensures content { Told (real_store_state self.old).files (λ f. Reads (f name.now) limit (real_store_state self.old).read_faults (real_store_state self.new).read_faults result) }
        ensures within { IfOk result (λ b. length b.items ≤ limit) }
        ensures missing { Licenses (real_store_state self.old).misses (real_store_state self.new).misses (IsErrOf result Missing) }
        ensures failed { Licenses (real_store_state self.old).read_faults (real_store_state self.new).read_faults (IsErrOf result Failed) }
        ensures writes_stay { (real_store_state self.new).write_faults ≡ (real_store_state self.old).write_faults }

        // A miss is counted at each `Missing` alone, and a read fault at each `Failed`.
        ensures misses { Counts (real_store_state self.old).misses (real_store_state self.new).misses (IsErrOf result Missing) }
        ensures faults { Counts (real_store_state self.old).read_faults (real_store_state self.new).read_faults (IsErrOf result Failed) }
    {
        let result = read_file(self.rt, alloc, name, limit);
        match result {
            Err(StoreStop::Missing) => self.misses = self.misses.saturating_add(1),
            Err(StoreStop::Failed) => self.read_faults = self.read_faults.saturating_add(1),
            _ => {}
        }
        result
    }

    fn write(&mut self, _alloc: Global, name: &str, bytes: &[u8]) -> Result<(), StoreStop>
        ensures content { ToldBoth (real_store_state self.old).files (real_store_state self.new).files (λ f g. Writes f g name.now bytes.now result) }
        ensures stops { (IsErrOf result Missing ⊎ IsErrOf result TooLong) → ⊥ }
        ensures failed { Licenses (real_store_state self.old).write_faults (real_store_state self.new).write_faults (IsErrOf result Failed) }
        ensures misses_stay { (real_store_state self.new).misses ≡ (real_store_state self.old).misses }
        ensures reads_stay { (real_store_state self.new).read_faults ≡ (real_store_state self.old).read_faults }

        // A write fault is counted at each `Failed` alone.
        ensures faults { Counts (real_store_state self.old).write_faults (real_store_state self.new).write_faults (IsErrOf result Failed) }
    {
        match write_file(self.rt, name, bytes) {
            Ok(()) => Ok(()),
            Err(SinkStop::Failed) => {
                self.write_faults = self.write_faults.saturating_add(1);
                Err(StoreStop::Failed)
            }
        }
    }
}

fn read_file<R: Files>(rt: &R, alloc: Global, name: &str, limit: u64) -> Result<Vec<u8>, StoreStop>
    ensures { IfOk result (λ b. length b.items ≤ limit) }
{
    match fs::open(rt, name) {
        Ok(mut file) => read_up_to(alloc, &mut file, limit),
        Err(e) => Err(stop_of(&e)),
    }
}

// Why a file could not be opened.
fn stop_of(error: &Error) -> StoreStop
    ensures missing { (result ≡ Missing) ↔ (error_kind error.now ≡ ErrorKind.NotFound) }
    ensures long { result ≢ TooLong }
{
    match error.kind() {
        ErrorKind::NotFound => StoreStop::Missing,
        ErrorKind::OutOfMemory => StoreStop::NoMemory,
        _ => StoreStop::Failed,
    }
}

fn write_file<R: Files>(rt: &R, name: &str, bytes: &[u8]) -> Result<(), SinkStop> {
    match fs::create(rt, name) {
        Ok(mut file) => write_whole(&mut file, bytes),
        Err(_) => Err(SinkStop::Failed),
    }
}
