//! Types of programs: inference, the text of a type, and the kind of what a program can give.
//!
//! Inference answers a scheme for each definition and for the last expression. They are principal: the instances of each
//! are exactly the types that derivations give the declaration, over the definitions before it, and there is at least
//! one. That is `Infers` in `specs/Inferred.antt`, over the derivations of `kl_meaning`. Where there is no typing it answers
//! the first declaration without a type: `IsIllTyped` there.
//!
//! An expression is checked against a number of a type. What is asked of numbers is a fact of the assignments that solve
//! them, and one thing is asked after another: `Leaves` in `specs/Asking.antt`. Where nothing meets what is asked, that is
//! refused.
//!
//! A scheme is a table whose parts are shared. Its text is that of the tree of its parts: `scheme_text` in
//! `specs/Printed.antt`. Each variable has a number there, from 1 in the order of first appearance: `number` in
//! `specs/Numbers.antt`. The tree is never built, and what is past the limit of a text is not gone through.
//!
//! The contracts let through bodies that answer want of memory, which no contract of this project ties to a refused
//! growth. A test with ample memory calls each public function.
#![tactic(auto)]

mod exprs;
mod inference;
mod page;
mod patterns;
mod printing;
mod refusal;
mod scope;
mod typed;
mod typing;

pub use inference::{InferError, infer};
pub use printing::print_scheme;
pub use typed::{Schemes, Typed};
