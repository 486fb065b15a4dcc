//! Catalogues that write themselves: for tables and files of values the entries by which programs read them.
//!
//! `klcat` does what the words of its command line say: of each table it finds out the columns and their types, of each
//! file of values the type of its items, and it prints the catalogue of all of them. What it prints was read back before,
//! and each file was read as its type.
//!
//! What `rt plant` lets through here: bodies that answer want of memory, which no contract of this project ties to a
//! refused growth, and other names, which no contract fixes.
#![tactic(auto)]

mod columns;
mod file;
mod header;
mod listing;
mod naming;
mod narrowing;
mod refusal;
mod table;
mod top;
mod values;
mod words;
mod writing;

pub use refusal::{Refusal, put_line, status};
pub use top::klcat;
