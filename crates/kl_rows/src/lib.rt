//! A unifier of types, rows and kinds, and schemes.
//!
//! Types, functions, rows and kinds go by numbers. What is said of them is the set of ground assignments that solve it: `Solves` in
//! `specs/Solutions.antt`. A unifier is most general where it leaves all of them that make the two one: `Unifies` in
//! `specs/Making.antt`. A scheme stands for its instances: `Settles` and `Instantiates` in `specs/Schemes.antt`.
//!
//! Rows are chains of blocks of fields with an open or an empty end, after Rémy and Wand: where two meet, common labels
//! are unified, and each end takes what the other has more, before one fresh rest. Nothing of the merges rests on finite
//! types: whether there are any is asked once, at the end.
//!
//! What `rt plant` lets through here: bodies that answer want of memory, which no contract of this project ties to a
//! refused growth.
#![tactic(auto)]

mod cell;
mod copying;
mod fields;
mod find;
mod finite;
mod fresh;
mod keeping;
mod knowing;
mod looking;
mod meet;
mod merging;
mod schemes;
mod settling;
mod unifier;

pub use cell::{Cell, KindNode, RowNode, Scalar, TypeNode};
pub use looking::Spot;
pub use schemes::{Node, Nodes, Part, Scheme};
pub use unifier::Unifier;
