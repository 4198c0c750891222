//! The case that is made from a number: packets that are drawn, in a fabric of leaves and spines.
//!
//! The layer above gets `make_load`, the files of the case, whose definition is `specs/Made`: which they
//! are, in their order, name by name and byte by byte. The case file reads as `case_data` of `specs/Values`.
//!
//! Follows: RFC 791, RFC 1071, RFC 8259; the libpcap savefile format, version 2.4.
#![tactic(auto)]

mod captures;
mod case;
mod control;
mod draws;
mod entries;
mod fabric;
mod files;
mod frames;
mod load;
mod network;
mod packet;
mod texts;

pub use load::make_load;
