ghost use Rattle.std.specs.Prelude.{◌≡◌, ◌≤◌, List, [], IfOk};
ghost use Rattle.kl_ask.specs.declared.settings.Settings.{Settings};
ghost use Rattle.kl_core.specs.Counts.{nodes_of};
ghost use Rattle.kl_core.specs.Trees.{Tree};
ghost use Rattle.kl_run.specs.Planned.{IsPlanOf};
ghost use Rattle.kl_plan.specs.Nodes.{view};
ghost use Rattle.kl_ship.specs.declared.source.ShipSource.{ShipSource};

use kl_ask::{Driver, Settings};
use kl_core::Term;
use kl_run::{plan_of, trace_of};
use kl_ship::Plan;
use kl_value::Value;
use std::alloc::Global;
use std::test::Fail;

// The plan of a constant.
fn four(alloc: Global) -> Result<Plan, Fail>
    ensures { IfOk result (λ p. (how : Settings) × (ss : List ShipSource) × (t : Tree)
        × IsPlanOf how ss t (view p) × (nodes_of t ≤ 16384)) }
{
    let drivers: Vec<Box<dyn Driver>> = Vec::new(alloc);
    let term = Term::Const(Value::Int(4));
    let plan = plan_of(alloc, &term, &[], &drivers, &Settings::usual())?;
    Ok(plan)
}

fn is_four(plan: &Plan) -> bool {
    matches!(plan, Plan::Plain(Term::Const(Value::Int(4))))
}

// Whether a trace of a plan has its steps, and counts no scan.
fn is_traced(alloc: Global, plan: &Plan) -> Result<bool, Fail>
    requires { (how : Settings) × (ss : List ShipSource) × (t : Tree) × IsPlanOf how ss t (view plan.now) × (nodes_of t ≤ 16384) }
{
    let trace = trace_of(alloc, plan, 3)?;
    Ok(trace.steps == 3 && trace.starts.is_empty())
}

fn is_planned(alloc: Global) -> Result<bool, Fail> {
    let plan = four(alloc)?;
    if is_four(&plan) {
        is_traced(alloc, &plan)
    } else {
        Ok(false)
    }
}

#[test]
fn a_term_is_planned(rt: HostRuntime) -> Result<(), Fail> {
    assert!(rt; is_planned(rt.alloc())?);
    Ok(())
}
