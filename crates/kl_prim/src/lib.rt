//! The primitives of the language: their table, and what each makes of its arguments.
//!
//! Each primitive stands once in the macro `primitives` of `primitives.rt`, by its code, name, arity, shape, totality
//! and the function of `answers.rt` that answers. The table that `table` hands out and the cases of `apply_args` are both
//! made from that list. What a primitive means stands in `specs/Meaning.antt` by definitions on values, and `rows` of
//! `specs/Table.antt` is the table with its meanings. `Fits` says which arguments fit the shape of a row.
//!
//! A new row takes one line in `primitives` (and a larger count at `ROWS` and `table`), a function in `answers.rt`, its
//! meaning, and one line in `rows`; a new type of arguments takes a variant of `Shape` and a line in `FitsShape`. The
//! proofs ask for what the new code requires and answers under `proofs/primitives/answer`, and for one entry in each of
//! the lists of `proofs/MeaningLemmas.antt` and in `rows_at` of `proofs/TableLemmas.antt`.
//!
//! What `rt plant` lets through here: sums and products with their sides exchanged, which are the same.
#![tactic(auto)]

mod answers;
mod args;
mod collections;
mod numbers;
mod primitives;
mod records;
mod rows;
mod stop;
mod texts;
mod views;

pub use args::{Arg, Args};
pub use primitives::{apply, apply_args, row_of, table, table_laws};
pub use rows::{PrimRow, PrimTable, Shape};
pub use stop::PrimStop;
pub use texts::number_in;
