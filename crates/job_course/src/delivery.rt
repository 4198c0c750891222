//! What is written, in order, and what the sink is handed.

ghost use Rattle.std.specs.Prelude.{◌≡◌};
ghost use Rattle.job_course.specs.Delivery.{Delivered, HandsOver, Refuses, WritesFiles};
ghost use Rattle.job_course.specs.Ending.{HasPut};
ghost use Rattle.job_course.specs.Output.{out_of, files_of};

use crate::status::{Status, Stop};
use outside::{Sink, Store, StoreStop};
use std::alloc::Global;

/// The files that are written, in order, and the text for the sink.
#[derive(Drop)]
pub struct Output {
    pub files: Vec<(String, Vec<u8>)>,
    pub text: String,
}

/// How far the files were written.
pub enum Written {
    All,
    /// The file at this place could not be written.
    Failed(usize),
    /// Memory was wanting for the file at this place.
    Starved(usize),
}

/// Writes the files in order, up to the first that fails.
fn write_files<S: Store>(alloc: Global, store: &mut S, files: &[(String, Vec<u8>)]) -> Written
    ensures { WritesFiles (files_of files.now) (S.state store.old) (S.state store.new) result }
{
    for (at, (name, bytes)) in files.iter().enumerate() {
        match store.write(alloc, name, bytes) {
            Ok(()) => {}
            Err(StoreStop::NoMemory) => return Written::Starved(at),
            Err(_) => return Written::Failed(at),
        }
    }
    Written::All
}

/// Hands the sink a piece, and lets a fault be: the status does not change.
pub fn say<K: Sink>(out: &mut K, piece: &[u8])
    ensures { HasPut piece.now (K.state out.old) (K.state out.new) }
{
    let _ = out.put(piece);
}

/// Answers a refusal, and puts its line.
pub fn refuse<K: Sink>(out: &mut K, stop: &Stop) -> Status
    ensures { Refuses stop.now (K.state out.old) (K.state out.new) result }
{
    match stop {
        Stop::Refused(refusal) => {
            say(out, refusal.line.as_bytes());
            refusal.status
        }
        Stop::Starved => {
            say(out, b"hydra: memory\n");
            Status::NoMemory
        }
    }
}

/// Writes the files in order, and then puts the text.
pub fn deliver<S: Store, K: Sink>(
    alloc: Global,
    store: &mut S,
    out: &mut K,
    output: &Output,
) -> Status
    ensures { Delivered (out_of output.now) (S.state store.old) (S.state store.new) (K.state out.old) (K.state out.new) result }
{
    match write_files(alloc, store, &output.files) {
        Written::All => hand_over(out, output.text.as_bytes()),
        Written::Starved(_) => {
            say(out, b"hydra: memory\n");
            Status::NoMemory
        }
        Written::Failed(at) => {
            let name = output.files[at].0.as_str();
            match format!(in alloc; "hydra: write {name}\n") {
                Ok(line) => {
                    say(out, line.as_bytes());
                    Status::WriteFault
                }
                Err(_) => {
                    say(out, b"hydra: memory\n");
                    Status::NoMemory
                }
            }
        }
    }
}

/// Puts a text, and where that fails the line that says so.
fn hand_over<K: Sink>(out: &mut K, text: &[u8]) -> Status
    ensures { HandsOver text.now (K.state out.old) (K.state out.new) result }
{
    match out.put(text) {
        Ok(()) => Status::Done,
        Err(_) => {
            say(out, b"hydra: write -\n");
            Status::WriteFault
        }
    }
}
