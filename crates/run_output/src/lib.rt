//! What is written of a run of linked programs.
//!
//! The layer above gets `output_of`, which makes of a run's log the files in order and the summary for the
//! sink, and `wire_output_of`, likewise what `wire` writes. `Files` of run_texts and `specs/Wire` say what
//! they are, byte by byte; `specs/Ends` what is asked of the log. They are those of each network of the
//! run's definition that the log shows.
//!
//! Follows: the libpcap savefile format, version 2.4 (`pcap-savefile(5)`).
#![tactic(auto)]

mod output;
mod wire;

pub use output::{RunParts, output_of};
pub use wire::wire_output_of;
