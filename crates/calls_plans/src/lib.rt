//! Tests: the calls of the layers of plans, each once on its happy path.
//!
//! That a call with ample memory does not answer want of memory is in no contract; these tests show it. They stand
//! together, as a crate that has tests is proved twice.
#![tactic(auto)]

#[cfg(test)]
mod cursors;
#[cfg(test)]
mod runs;
#[cfg(test)]
mod scans;
#[cfg(test)]
mod shipping;
