//! The run of a program without a property, and what is written of it.
//!
//! The layer above gets `ForwardJob`, what is to be done, and `run_forward`, which runs the program at
//! every switch over the packets and the schedule, and gives the files in order and the text for the
//! sink. Contracts see a job as the record of `specs/Job`; `specs/Run` says its run as the network's
//! run, and `specs/Files` what is written of that, byte by byte.
//!
//! Follows: the libpcap savefile format, version 2.4 (`pcap-savefile(5)`).
#![tactic(auto)]

mod job;
mod output;
mod run;

pub use job::ForwardJob;
pub use run::run_forward;
