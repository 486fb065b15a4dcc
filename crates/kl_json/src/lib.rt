//! JSON values as values of the language, and back, and the two commands of `kljson` over files and sinks.
//!
//! Which value a JSON value is stands in `specs/Meaning.antt`, by recursion on the JSON value that the ported crate `json`
//! says a text is; which JSON value is written of a value in `specs/Written.antt`; which values stand in a file, one behind
//! another, in `specs/Files.antt`; and what the commands do in `specs/Answers.antt`. Where a value ends in a file is found by
//! brackets, quotes, commas and colons (`src/scan.rt`), of which nothing is said: what stands up to there is then read as one
//! JSON text, and has to be one.
//!
//! The contracts let through bodies that answer want of memory, and that refuse as `Bad` what is JSON.
#![tactic(auto)]

mod choices;
mod fault;
mod laws;
mod meaning;
mod reader;
mod scan;
mod top;
mod words;
mod written;

pub use choices::{Choices, Refusal};
pub use fault::Fault;
pub use laws::back_laws;
pub use meaning::value_of;
pub use reader::{JsonError, JsonReader};
pub use top::{from, kljson, to};
pub use words::{Command, read_words};
pub use written::{WriteError, json_text};
