//! What `run` is to do.
//!
//! The layer above gets `LinkedJob`: a property, the forwarding program that was given, what both are
//! linked to, and all that a run is handed besides. `specs/Job` says what a job is and what is known of
//! one whose files were read, and `specs/Run` what its run is: that of the linked programs, in the job's
//! world.
#![tactic(auto)]

mod job;

pub use job::LinkedJob;
