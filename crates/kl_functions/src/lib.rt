//! Programs with function parameters: which fields are functions, whether a program keeps to the rules of names, and with
//! what the new names of its expansion begin.
#![tactic(auto)]

mod bases;
mod candidates;
mod copies;
mod first;
mod functions;
mod hiding;
mod names;
mod occurrences;
mod plain;
mod programs;
mod variables;

pub use bases::base;
pub use functions::{Known, known_in};
pub use names::named;
