//! What a command reads, refuses and writes, for any kind of job.
//!
//! A course (`specs/Course`) says which files a command asks for, which first refusals the files admit,
//! and which job they give. The layer above gets `read_file`, the step from which courses are made,
//! `deliver` and `refuse`, and the words of `specs/Steps` and `Ending`: what a step says of its course,
//! and what an answer says of the store and the sink. A command's own kind of job, and what its
//! outputs are, are parameters of these.
//!
//! That steps one after another keep to courses one after another is shown in `proofs/Courses`, and
//! that a plan and its delivery make an answer in `proofs/Joining`.
#![tactic(auto)]

mod delivery;
mod lines;
mod reading;
mod status;

pub use delivery::{Output, deliver, refuse, say};
pub use lines::{cause_text, lex_text, place_text, word_text};
pub use reading::read_file;
pub use status::{Area, Refusal, Status, Stop};
