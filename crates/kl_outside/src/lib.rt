//! The outside as the product sees it: files that are read, and sinks that are written.
//!
//! A contract speaks of a `Files` or a `Sink` by its `state`: the bytes, where the object tells them, and counts that
//! never fall. Files and sinks in memory tell their bytes, and can be told to fail. Those of the system tell none, so
//! of them a contract says how much was read or written, what is open, and that a failure was counted.
//!
//! What `rt plant` lets through here: a `read` of the system's files that always answers the end, since these tell no
//! bytes (a test reads some), and calls of `fail_at` that answer want of memory, which no contract of this project ties
//! to a refused growth (tests call them with ample memory).
#![tactic(auto)]

mod files;
mod host;
mod memory;
mod memory_sink;
mod schedule;
mod sinks;
mod stop;

pub use files::{Files, Whole, read_whole};
pub use host::{HostFiles, HostSink};
pub use memory::MemFiles;
pub use memory_sink::MemSink;
pub use sinks::{Sink, write_whole};
pub use stop::Stop;
