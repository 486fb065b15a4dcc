//! Values, their order, and collections in canonical form.
//!
//! What `rt plant` lets through here: bodies that answer want of memory, which no contract of this project ties to a
//! refused growth. A test with ample memory calls each of these functions. The laws have no body that could be planted.
#![tactic(auto)]

mod measure;
mod order;
mod sorting;
mod value;
mod views;
mod written;

pub use kl_base::{Box, Label, NoMemory, Seq, Text, is_word};
pub use measure::{depth, dup, dup_items};
pub use order::{canon, canon_laws, cmp, order_laws};
pub use value::{Fields, Items, Kind, Value};
pub use views::{bool_of, bytes_of, field, int_of, into_items, into_parts, items_of, parts_of};
pub use written::{closing, escaped, opening, separator};
