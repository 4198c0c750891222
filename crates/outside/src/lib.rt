//! What the program meets outside: a store of files and a sink of bytes.
//!
//! The layers above read, write and put through the traits `Store` and `Sink` alone. Each has a
//! state for proofs: what it holds, where it tells that, and counts that never fall. A fault is
//! answered only where its count rose in that very call.
//!
//! - `SureStore` and `SureSink` are in memory and never fail.
//! - `MemStore` and `MemSink` are in memory and fail at the calls of a list.
//! - `RealStore` is the system's files and `RealSink` the standard output. They read and write by
//!   `read_up_to` and `write_whole`, on which a kind of another crate may stand too.
//!
//! Not promised: what the system's files and standard output hold, or that they answer. The kinds
//! that work on them tell nothing of content; tests alone show that they reach the right file.
#![tactic(auto)]

mod failing;
mod held;
mod mem_sink;
mod mem_store;
mod real_sink;
mod real_store;
mod reserved;
mod sink;
mod stops;
mod store;
mod sure_sink;
mod sure_store;
mod transfer;

pub use mem_sink::MemSink;
pub use mem_store::MemStore;
pub use real_sink::RealSink;
pub use real_store::RealStore;
pub use sink::Sink;
pub use stops::{SinkStop, StoreStop};
pub use store::Store;
pub use sure_sink::SureSink;
pub use sure_store::SureStore;
pub use transfer::{read_up_to, write_whole};
