//! Results of plans: their values, and the items of a collection one at a time.
//!
//! A cursor holds what it has still to do, and only the values that it binds itself: the environment stands on the stack and is
//! copied by `open_plan` alone. Rows are fetched ahead, so many at once, where none is left of those fetched before.
#![tactic(auto)]

mod ahead;
mod cursor;
mod drawing;
mod finding;
mod gathering;
mod held;
mod joins;
mod memos;
mod parts;
mod pulling;
mod scans;
mod state;
mod stepping;
mod steps;
mod values;

pub use cursor::{Cursor, Draw, open_plan, value_of};
pub use kl_scans::{Ran, Run};
