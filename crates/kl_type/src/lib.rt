//! Types without variables: which values have them, their text, and copies.
//!
//! `read_type` reads a whole text. `read_front` reads the type with which a list of tokens begins, and with it go the steps
//! that take tokens off (`eat`, `want`, `word_at`), for crates that read types inside longer texts.
//!
//! What `rt plant` lets through here: bodies that answer want of memory, which no contract of this project ties to a
//! refused growth. A test with ample memory calls each of these functions.
#![tactic(auto)]

mod copying;
mod front;
mod ground;
mod printing;
mod reading;
mod typed;

pub use front::{byte_of, eat, want, word_at};
pub use ground::{Ty, TyFields};
pub use printing::print_type;
pub use reading::{TypeError, read_front, read_type, type_laws};
pub use typed::has;
