//! The words of the command line, and what they ask for.
//!
//! The first word names the command. What the words behind it are is read by `clap`, as those of one simple command: so
//! an option may stand anywhere, with its value behind it or behind `=`; no option may be given twice; `--` ends the
//! options, and `-` alone is a name. Its help and its version are refusals.
//!
//! What `rt plant` lets through here: bodies that answer want of memory, which no contract of this project ties to a
//! refused growth. A test with ample memory calls each public function.
#![tactic(auto)]

mod command;
mod line;
mod read;

pub use command::{Command, Job, WordsError};
pub use read::read_words;
