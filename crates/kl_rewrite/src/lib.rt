//! The strategy of rewriting: step by step, each at the first place at which a rule makes something, by the lowest rule that
//! does, until there is none or so many steps are made.
//!
//! What `rt plant` lets through here: bodies that answer want of memory, which no contract of this project ties to a
//! refused growth.
#![tactic(auto)]

mod laws;
mod normal;
mod place;
mod search;
mod walk;

pub use laws::step_laws;
pub use normal::{MOST_STEPS, Normal, is_normal, rewrite};
