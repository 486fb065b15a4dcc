//! Runs of plans: a session and what is kept of subqueries beside it, the scans over them (a cursor of a driver is opened, its rows
//! are pulled, and it is closed), and what is counted of all that.
#![tactic(auto)]

mod counting;
mod drivers;
mod over;
mod run;
mod scans;
mod stops;
mod unrepeated;

pub use over::{keep, kept_value, ran, recall};
pub use run::{Ran, Run};
pub use scans::{finish_scan, pull_scan, start_scan};
pub use unrepeated::repeats_none;
