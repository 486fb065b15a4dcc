//! Exchange text: the form in which values go through files. Items are read in pieces, and values are printed
//! canonically.
//!
//! A text is items, each a value and `;`. White space may stand before and after each token: tab, line feed, carriage
//! return and space.
//!
//! - `true` and `false`; numbers of 64 bits with leading zeros and `-0` as they come; texts in double quotes, where `\"`,
//!   `\\`, `\n`, `\r`, `\t` and `\x` with two hexadecimal digits of either case stand for a byte.
//! - Sets `{1, 2}`, bags `{|1, 1|}` and lists `[|2, 1|]`. The items of sets and bags come in any order.
//! - Records `[a=1, b=2]`, with fields in any order and no label twice, and variants `<a=1>`.
//!
//! The grammar stands in `specs/Grammar.antt`, as a relation between bytes and values by recursion on the brackets that
//! may be open. What a reader answers is said by it alone, in `specs/Reading.antt`. The code is a machine that takes one
//! byte at a time: `specs/Machine.antt` says what a byte makes of it, for contracts of private functions. Texts, numbers,
//! labels, commas and brackets it takes in spans, which come to the same (`src/spans.rt`). A reader holds the bytes of the
//! item that is not whole, and what they have come to.
//!
//! The contracts let through bodies that answer want of memory, which no contract of this project ties to a refused
//! growth, and other words in `Display`.
#![tactic(auto)]

mod error;
mod file_reader;
mod gathered;
mod laws;
mod machine;
mod memo;
mod printing;
mod reader;
mod scan;
mod spans;
mod stack;

pub use error::{FileError, PrintError, ReadError};
pub use file_reader::{FileReader, MOST_READ};
pub use gathered::Growing;
pub use laws::{file_laws, found_laws, reading_laws};
pub use machine::{is_blank, last_of_close};
pub use printing::{Page, print};
pub use reader::{Item, Reader};
pub use stack::Stack;
