//! The sources of a program: which ones a catalogue names, at which drivers, and what comes of attaching those that the
//! program mentions.
//!
//! What `rt plant` lets through here: bodies that answer want of memory, which no contract of this project ties to a
//! refused growth. A test with ample memory calls each public function.
#![tactic(auto)]

mod attaching;
mod placing;
mod source;
mod walking;

pub use attaching::{AttachError, attach_sources};
pub use placing::{PlaceError, place_sources};
pub use source::{Source, names_of, types_of};
