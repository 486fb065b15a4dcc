//! Parameters that are functions: what they mean, and how they are expanded away.
//!
//! A field of a definition's parameter may be a function: one that the body calls, or hands on to a call. A call of such
//! a definition hands over a bare name in each of these fields. The definitions are in `specs/`: which fields are
//! functions, shapes, meaning, typing and expansions. `expand` makes an expansion, and the other functions are laws; no
//! command reads such programs yet.
#![tactic(auto)]

mod declaring;
mod expanded;
mod expanding;
mod laws;
mod program;
mod stop;
mod table;

pub use expanded::{ExpandError, Expanded, Numbers, expand};
pub use laws::{expansion_laws, function_field_laws, scoping_laws};
pub use program::HoScoped;
