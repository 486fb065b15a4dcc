//! What the forms of the language ask of types: constants, collections, records, variants, primitives and uses of schemes,
//! over the numbers of a unifier.
//!
//! Each call asks one thing of numbers that are there. What it asks is a fact of an assignment, in `specs/Forms.antt`;
//! what comes of that is one record of what it does to the solutions: `Checks` where it answers whether that can be, and
//! `Finds` where it answers the number of a type, in `specs/Checks.antt`. An inference puts them together, one after
//! another, and knows nothing of rows and kinds.
//!
//! A record's or a variant's fields are sorted once, and become one chain of rows, in `records.rt`; that chain is all that
//! is asked of a label, too, and its end is the row of a record's other fields. `proofs/Opening.antt`, `Shapes.antt` and
//! `Turns.antt` put checks together.
//!
//! What `rt plant` lets through here: bodies that answer want of memory, which no contract of this project ties to a
//! refused growth.
#![tactic(auto)]

mod collections;
mod constants;
mod primitives;
mod records;
mod types;
mod uses;

pub use collections::{any_items_of, fresh_types, items_of};
pub use constants::value;
pub use primitives::{applied, operated};
pub use records::{field_of, is_record, is_variant, rest_of, variant_of};
pub use types::uses_type;
pub use uses::{uses_function, uses_value};
