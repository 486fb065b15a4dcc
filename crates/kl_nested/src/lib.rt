//! Files of values as sources: the driver `nested`, whose sources are exchange files.
//!
//! A file may begin with a head, which states the type of its items; then that is the type of the source's items. A source
//! is read through when it is attached; of it are kept whether it has a head, the number of its bytes and that of its
//! items, and no item. Each cursor reads the file again, its head too, by a reader of its own: `specs/Nested.antt`. What
//! stays true of the files that are open meanwhile is `IsDesk` in `specs/Desk.antt`.
//!
//! What `rt plant` lets through here: bodies that answer want of memory, which no contract of this project ties to a
//! refused growth. A test with ample memory calls each public function.
#![tactic(auto)]

mod driver;
mod handing;
mod opening;
mod parts;
mod rows;
mod sources;
mod through;
mod types;

pub use driver::NestedDriver;
