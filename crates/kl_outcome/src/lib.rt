//! What programs, terms and plans come to: the words that their meanings share, and which values and outcomes have a
//! type.
//!
//! Definitions, and lemmas on them for all that has a meaning: an outcome has a type where its parts have theirs, and a
//! primitive of arguments of its types gives a value of its type or overflows.
#![tactic(auto)]

mod laws;

pub use laws::has_laws;
