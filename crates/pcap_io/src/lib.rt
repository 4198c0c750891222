//! Captures of Ethernet frames, read and written as files.
//!
//! The layer above gets `read_capture`, which answers the records of a file or the first thing that
//! is wrong with it, and `write_capture`, which gives the one file that is written for records;
//! `put_header` and `put_record` write such a file piece by piece, from bytes that lie elsewhere.
//!
//! Follows: the libpcap savefile format, version 2.4 (`pcap-savefile(5)`).
//!
//! A record that was captured short is its captured bytes: original lengths are read over, and what
//! is written says that each frame was captured whole. Zone, accuracy and snapshot length of a file
//! that is read are not looked at. pcapng and compressed captures are refused as no captures.
#![tactic(auto)]

mod captured;
mod fault;
mod form;
mod reading;
mod writing;

pub use captured::Captured;
pub use fault::CaptureFault;
pub use reading::read_capture;
pub use writing::{put_header, put_record, write_capture};
