//! What is wrong with a program, its catalogue or its sources, as people read it.
//!
//! `klwhy` does what the words of its command line say: it reads a program as `kleisli` does, and tells of the first thing that
//! is wrong the file, the line and the column, the rule, and the line with a caret under the place.
//!
//! What `rt plant` lets through here: bodies that answer want of memory, which no contract of this project ties to a
//! refused growth; and all of `blame`, `reasons` and `spans`, with what asks for a part in `asking`. They choose which part of a
//! program without types is told, and say why in words for the reader: no contract says that it is the smallest, or that
//! the reason is the best. Whatever they choose, the program that asks for the part has no typing (`IsUntyped`).
#![tactic(auto)]

mod asking;
mod blame;
mod catalogue;
mod drivers;
mod finding;
mod place;
mod program;
mod reasons;
mod record;
mod source;
mod spans;
mod tokens;
mod top;
mod unfit;
mod why;
mod words;
mod wrong;

pub use drivers::{Drivers, SeenAll, add_driver};
pub use place::{Place, place_of};
pub use top::klwhy;
pub use unfit::Unfit;
pub use why::{Spot, Why};
pub use wrong::Wrong;
