//! Tests: the calls of the layers of values that take memory, each once on its happy path.
//!
//! That a call with ample memory does not answer want of memory is in no contract; these tests show it. They stand
//! together, as a crate that has tests is proved twice.
#![tactic(auto)]

#[cfg(test)]
mod containers;
#[cfg(test)]
mod exchange;
#[cfg(test)]
mod heads;
#[cfg(test)]
mod joins;
#[cfg(test)]
mod memos;
#[cfg(test)]
mod outside;
#[cfg(test)]
mod primitives;
#[cfg(test)]
mod tokens;
#[cfg(test)]
mod types;
#[cfg(test)]
mod values;
