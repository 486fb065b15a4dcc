//! Asks, the drivers that answer them, and the session that owns the drivers while a program runs.
//!
//! What `rt plant` lets through here: bodies that answer want of memory, which no contract of this project ties to a
//! refused growth. A test with ample memory calls each public function.
#![tactic(auto)]

mod ask;
mod asked;
mod asking;
mod boxed;
mod cursors;
mod driver;
mod named;
mod session;
mod settings;
mod tables;

pub use ask::{Abilities, Ask, Cmp, ColTest, Drift, DriverError, Head, Right};
pub use asked::{ask_laws, count_ask, sum_asked, unread_by};
pub use asking::allows;
pub use boxed::{
    abilities_boxed, attach_boxed, finish_boxed, handed_boxed, name_boxed, pull_boxed, start_boxed,
    suits_boxed,
};
pub use cursors::close_cursor;
pub use driver::Driver;
pub use named::asked_source;
pub use session::{Attached, Seen, Session};
pub use settings::{JoinHow, JoinRun, Settings, Trace};
pub use tables::columns_of;
