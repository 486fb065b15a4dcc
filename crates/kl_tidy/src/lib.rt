//! Tables made tidy: copies of tables whose columns programs can name.
//!
//! `kltable` does what the words of its command line say: it reads a table, makes a word of each header, fills empty cells and
//! makes integers of cells with a fraction where it is told to, and prints the table with commas between its cells. A table is
//! held whole, and nothing is printed of one that is refused.
//!
//! What `rt plant` lets through here: bodies that answer want of memory, which no contract of this project ties to a
//! refused growth.
#![tactic(auto)]

mod cells;
mod columns;
mod naming;
mod reading;
mod refusal;
mod table;
mod top;
mod words;
mod writing;

pub use columns::Wrong;
pub use refusal::{Refusal, put_line, status};
pub use top::kltable;
pub use words::Command;
