//! Plans: how a term is run, what that comes to, and what is counted of it.
//!
//! `specs/Nodes.antt` has the forms of plans as contracts see them, `specs/Meaning.antt` what they come to, `specs/Typing.antt` which
//! make sense, and `specs/Reached.antt` how often they come to their scans. Which plan a term is run as is said by the layer above.
#![tactic(auto)]

mod counting;
mod plan;
mod totals;

pub use counting::count_scans;
pub use plan::{Frees, Join, JoinKey, Plan, PlanBranches, PlanFields, Plans, Scan};
pub use totals::is_total;
