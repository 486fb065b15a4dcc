//! Exchange text that states its type. A text may begin with a head, `type T;`, where `T` is the type of its items; one
//! without a head is read by `kl_exchange` alone.
//!
//! `type` is followed by at least one byte of white space. The type is written as in a catalogue, with white space between
//! its tokens and without comments: `bool`, `int`, `string`, `{T}`, `{|T|}`, `[|T|]`, records `[a: T, b: U]` and variants
//! `<a: T, b: U>`, with fields in any order and no label twice.
//!
//! Which bytes are a head stands in `specs/Heads.antt`, as a relation by recursion on the brackets that may be open, and
//! which texts begin with one in `specs/Texts.antt`. What a reader answers is said by them alone (`specs/Reading.antt`,
//! `specs/FileReading.antt`). The code is a machine that takes one byte at a time, as for items: `specs/Machine.antt`.
//! The bytes of a head are held until it is whole.
//!
//! The contracts let through bodies that answer want of memory, which no contract of this project ties to a refused
//! growth.
#![tactic(auto)]

mod fields;
mod file_reader;
mod front;
mod laws;
mod machine;
mod reader;
mod scan;
mod stated;

pub use file_reader::FileReader;
pub use laws::{head_laws, text_laws};
pub use reader::{Item, Reader};
pub use stated::states_no_other;
