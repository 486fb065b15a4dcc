//! Tests: the calls of the layers of the language that take memory, each once on its happy path.
//!
//! That a call with ample memory does not answer want of memory is in no contract; these tests show it. They stand
//! together, as a crate that has tests is proved twice.
#![tactic(auto)]

#[cfg(test)]
mod core_terms;
#[cfg(test)]
mod evaluation;
#[cfg(test)]
mod forms;
#[cfg(test)]
mod inference;
#[cfg(test)]
mod names;
#[cfg(test)]
mod parser;
#[cfg(test)]
mod programs;
#[cfg(test)]
mod rewriting;
#[cfg(test)]
mod rules;
#[cfg(test)]
mod translation;
#[cfg(test)]
mod unifier;
