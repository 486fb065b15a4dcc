//! Terms on positions: what they mean, which of them make sense, and substitution.
//!
//! What `rt plant` lets through here: bodies that answer want of memory, which no contract of this project ties to a
//! refused growth. A test with ample memory calls each of these functions.
#![tactic(auto)]

pub mod building;
mod contents;
mod copy;
mod laws;
mod measure;
mod moving;
mod replacing;
mod term;

pub use contents::{fits, is_total, is_total_code, occurs};
pub use laws::typing_laws;
pub use measure::{depth, nodes};
pub use moving::shift;
pub use replacing::subst;
pub use term::{Term, TermBranches, TermFields, Terms};
