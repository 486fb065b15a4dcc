//! The top call: what the program does, from the bytes that come in to the bytes that go out.
//!
//! What `rt plant` lets through here: bodies that answer want of memory, which is tied to nothing. A top call that always
//! answers 9 is refused by the program `cases`.
#![tactic(auto)]

mod check;
mod cut;
mod drivers;
mod explain;
mod fault;
mod inputs;
mod listing;
mod page;
mod read;
mod run;
mod show;
mod stats;
mod top;
mod types;

pub use drivers::{Drivers, SeenAll, add_driver};
pub use fault::{Fault, Wrong};
pub use top::{Answer, kleisli};
