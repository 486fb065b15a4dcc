//! The translation of programs to terms.
//!
//! `term_of` of `specs/Translation.antt` is the term of a program, and `translation_laws` says that it means what the
//! program means, wherever the program makes sense. `translate` makes it. `specs/Layers.antt` says the same of a pattern
//! and of qualifiers without functions, as layers round what they go on with, which is how the code makes them.
//!
//! `sense_laws` says that the term makes sense: where a program is in scope and has a type over sources of the language's
//! types, its term has that type over the types of its sources. Terms are made of the definitions that are reached alone:
//! `specs/Reached.antt`.
//!
//! What `rt plant` lets through here: bodies that answer want of memory, which no contract of this project ties to a
//! refused growth. A test with ample memory calls each public function.
#![tactic(auto)]

mod calls;
mod codes;
mod expressions;
mod laws;
mod layers;
mod program;
mod reach;
mod scope;
mod terms;

pub use laws::{sense_laws, translation_laws};
pub use program::translate;
