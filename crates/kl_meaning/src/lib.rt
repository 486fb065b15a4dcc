//! What programs mean, and their types.
//!
//! Definitions, and one law: a program that has a type is never stuck, and what it means is of that type. Beside them
//! the codes of primitives by their names, and those of operators.
#![tactic(auto)]

mod codes;
mod laws;

pub use codes::{code_named, code_of};
pub use laws::typing_laws;
