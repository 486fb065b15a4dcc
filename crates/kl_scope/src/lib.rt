//! Names: what each means, and whether a program keeps to the rules of scope.
//!
//! `resolve` takes a program and the names of its sources. It writes into each name what the name means, so that no
//! later layer looks a name up again, or answers the first breach of the rules. `sizes` tells the first declaration
//! whose translation to a core term is too large.
//!
//! What `rt plant` lets through here: bodies that answer want of memory, which no contract of this project ties to a
//! refused growth. A test with ample memory calls each public function.
#![tactic(auto)]

mod counting;
mod findings;
mod names;
mod patterns;
mod refusal;
mod scoped;
mod terms;
mod walk;

pub use counting::{SizeBreach, sizes};
pub use names::is_primitive;
pub use refusal::ScopeError;
pub use scoped::{Scoped, resolve};
