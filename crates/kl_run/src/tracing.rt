//! A trace in which a plan's scans are counted.
ghost use Rattle.std.specs.Prelude.{◌≤◌, List, IfOk};
ghost use Rattle.kl_ask.specs.declared.settings.Settings.{Settings};
ghost use Rattle.kl_plan.specs.Nodes.{view};
ghost use Rattle.kl_ship.specs.declared.source.ShipSource.{ShipSource};
ghost use Rattle.kl_core.specs.Counts.{nodes_of};
ghost use Rattle.kl_core.specs.Trees.{Tree};
ghost use Rattle.kl_run.specs.Counted.{IsFreshTrace};
ghost use Rattle.kl_run.specs.Planned.{IsPlanOf};

use kl_ask::Trace;
use kl_base::{NoMemory, Seq};
use kl_plan::{Plan, count_scans};
use std::alloc::Global;

/// A trace of a run that took so many steps of rewriting, with a count for each scan of its plan, by its number. Nothing else is
/// counted yet.
///
/// # Errors
/// Want of memory.
pub fn trace_of(alloc: Global, plan: &Plan, steps: u32) -> Result<Trace, NoMemory>
    requires { (settings : Settings) × (ss : List ShipSource) × (t : Tree) × IsPlanOf settings ss t (view plan.now) × (nodes_of t ≤ 16384) }
    ensures { IfOk result (λ t. IsFreshTrace (view plan.now) steps t) }
{
    let count = count_scans(plan);
    let mut starts = Vec::with_capacity(alloc, count as usize)?;
    'scans: for number in 0..count {
        starts.push((number, 0))?;
    }
    let mut trace = Trace::new(alloc);
    trace.steps = steps;
    trace.starts = Seq::of(starts);
    Ok(trace)
}
