//! The captures that a run writes.
//!
//! The layer above gets `put_captures`, which puts behind other files one for each switch and port by
//! which frames were sent, with the frames in the order of events, each with the time of its packet.
//! `specs/Captures` says which files these are, name by name and byte by byte.
//!
//! Follows: the libpcap savefile format, version 2.4 (`pcap-savefile(5)`).
#![tactic(auto)]

mod captures;

pub use captures::{Front, Time, put_captures};
