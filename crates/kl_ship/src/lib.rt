//! Plans: what is sent to which source, and what is done with the rows.
//!
//! What `rt plant` lets through here: bodies that answer want of memory, which no contract of this project ties to a
//! refused growth.
#![tactic(auto)]

mod bodies;
mod building;
mod conditions;
mod erased;
mod full;
mod laws;
mod needs;
mod one_row;
mod reads;
mod row_conditions;
mod scanning;
mod shipping;
mod source;
mod sql_scan;
mod statements;
mod used;

pub use full::fully_shipped;
pub use kl_plan::{Frees, Join, JoinKey, Plan, PlanBranches, PlanFields, Plans, Scan, count_scans};
pub use laws::plan_laws;
pub use needs::Need;
pub use shipping::ship;
pub use source::ShipSource;
