//! Catalogues: which sources a program may name, of which type, and which driver finds them where.
//!
//! `read_catalogue` reads a catalogue off its text, and tells the first place where a text that is none goes wrong. The
//! grammar is `ReadsCatalogue` in `specs/Grammar.antt`, line by line. Whether two entries have one name, and whether their
//! drivers are there, is for the layers above.
//!
//! What `rt plant` lets through here: bodies that answer want of memory, which no contract of this project ties to a
//! refused growth. A test with ample memory calls each of these functions.
#![tactic(auto)]

mod front;
mod reading;

pub use reading::{Catalogue, CatalogueError, Entry, catalogue_laws, read_catalogue};
