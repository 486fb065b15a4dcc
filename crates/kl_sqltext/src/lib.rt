//! SQL text: statements that select, project and join, read off their bytes and rendered.
//!
//! The grammar is `Statement` in `specs/Grammar.antt`, over bytes, and what a statement means over tables is `spj` in
//! `specs/Meaning.antt`.
//!
//! What `rt plant` lets through here: bodies that answer want of memory, which no contract of this project ties to a
//! refused growth.
#![tactic(auto)]

mod ast;
mod numbers;
mod reading;
mod rendering;
mod statements;
mod words;

pub use ast::{Spj, SqlColumns, SqlOp, SqlRight, SqlTest, SqlTests};
pub use reading::{SqlError, read_sql};
pub use rendering::{render, sql_laws};
