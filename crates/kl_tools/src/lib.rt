//! What a plan asks of the drivers, as text; and made rows: the driver `made`, whose sources are rows by a formula, and the
//! program over them that the command `gen` runs.
//!
//! Row i of a source with a seed is `[grp=(seed + 7 * i) mod 100, id=i, name="n.."]`, where the digits of
//! `(seed + i) mod 1000` follow the `n`: `specs/Made.antt`.
//!
//! What `rt plant` lets through here: bodies that answer want of memory, which no contract of this project ties to a
//! refused growth. A test with ample memory calls each public function.
#![tactic(auto)]

mod driver;
mod explaining;
mod handing;
mod locator;
mod parts;
mod rows;
mod sources;
mod texts;
mod types;

pub use driver::MadeDriver;
pub use explaining::{SeenNames, explain};
pub use texts::{GenTexts, gen_texts};
