//! Shapes: what values that have a type in common say of it.
//!
//! A shape is a type with gaps, where no value was seen yet, and with variants that may have more labels. `join` makes of a
//! shape and one more value the shape of the types that have both (`specs/Joining.antt`), so that values may come one by
//! one, and `filled` is a type of the shape.
//!
//! What `rt plant` lets through here: bodies that answer want of memory, which no contract of this project ties to a
//! refused growth.
#![tactic(auto)]

mod bases;
mod copying;
mod filling;
mod joining;
mod labels;
mod shape;

pub use filling::filled;
pub use joining::join;
pub use shape::{Shape, ShapeFields};
