//! Joins and memos: which loops of a plan become joins, which values are kept, and how all is numbered.
#![tactic(auto)]

mod depths;
mod forming;
mod frees;
mod joining;
mod keeping;
mod keys;
mod lowering;
mod numbering;
mod positions;

pub use joining::join_loops;
pub use keeping::keep;
pub use keys::is_same;
pub use numbering::number;
