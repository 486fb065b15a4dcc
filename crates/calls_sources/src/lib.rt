//! Tests: the calls of the layers of sources and of the command line that take memory, each once on its happy path.
//!
//! That a call with ample memory does not answer want of memory is in no contract; these tests show it. They stand
//! together, as a crate that has tests is proved twice.
#![tactic(auto)]

#[cfg(test)]
mod asks;
#[cfg(test)]
mod attaching;
#[cfg(test)]
mod catalogues;
#[cfg(test)]
mod made;
#[cfg(test)]
mod nested;
#[cfg(test)]
mod placing;
#[cfg(test)]
mod served;
#[cfg(test)]
mod statements;
#[cfg(test)]
mod tables;
#[cfg(test)]
mod words;
