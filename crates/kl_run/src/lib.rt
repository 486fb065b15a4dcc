//! Runs of plans: the plan of a term over the sources of a catalogue, a session over which it is run, and what is counted of it.
#![tactic(auto)]

mod planning;
mod running;
mod tracing;

pub use planning::plan_of;
pub use running::{memo_for, run_of};
pub use tracing::trace_of;
