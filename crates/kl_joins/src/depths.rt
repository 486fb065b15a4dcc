//! How many positions of a plan are bound around one of its parts. Takes no memory.
ghost use Rattle.std.specs.Prelude.{◌≡◌, ◌-◌, ◌^◌, ◌↔◌, min, true};
ghost use Rattle.kl_plan.specs.Joins.{join_view, keys_view, other_node};
ghost use Rattle.kl_plan.specs.Nodes.{view, nodes_view, fields_view};
ghost use Rattle.kl_joins.specs.Keeping.{binders, binders_of_nodes, binders_of_fields, binders_of_branches, binders_of_key, IsShallow};

use kl_base::{Box, Label};
use kl_plan::{Join, JoinKey, Plan};

/// Whether the positions of a plan, and one more, may be counted in 32 bits.
pub fn is_shallow(plan: &Plan) -> bool
    ensures { (result ≡ true) ↔ IsShallow 1 (view plan.now) }
{
    deep(plan) < u32::MAX
}

// A number past u32 is answered as the greatest u32.
#[cycle(deep)]
#[tactic(auto, using(crate::proofs::Binding::depth_rules))]
fn deep(plan: &Plan) -> u32
    ensures { result ≡ min (binders (view plan.now)) (2 ^ 32 - 1) }
{
    match plan {
        Plan::Plain(_) | Plan::Var(_) | Plan::Scan(_) => 0,
        Plan::Rec(fields) => deep_labelled(fields.slice()),
        Plan::Proj(_, a) => deep(a.get()),
        Plan::Inj(_, a) => deep(a.get()),
        Plan::Case(a, branches, other) => {
            let subject = deep(a.get());
            let branches = deep_labelled(branches.slice());
            subject.max(branches.max(deep_other(other)).saturating_add(1))
        }
        Plan::Make(_, plans) => deep_all(plans.slice()),
        Plan::Union(a, b) => deep(a.get()).max(deep(b.get())),
        Plan::Ext(_, body, source) => deep(source.get()).max(deep(body.get()).saturating_add(1)),
        Plan::If(a, b, c) => {
            let condition = deep(a.get());
            condition.max(deep(b.get()).max(deep(c.get())))
        }
        Plan::Let(a, b) => deep(a.get()).max(deep(b.get()).saturating_add(1)),
        Plan::Prim(_, plans) => deep_all(plans.slice()),
        Plan::Join(join) => deep_join(join.get()),
        Plan::Memo(_, _, part) => deep(part.get()),
    }
}

#[cycle(deep)]
fn deep_join(join: &Join) -> u32
    ensures { result ≡ min (binders (join_view join.now)) (2 ^ 32 - 1) }
{
    let outside = deep(&join.outer);
    let tests = deep_all(join.conds.slice())
        .max(deep_key(&join.key))
        .saturating_add(1);
    let inside = deep(&join.body).saturating_add(2);
    outside.max(tests.max(inside))
}

#[cycle(deep)]
fn deep_key(key: &Option<JoinKey>) -> u32
    ensures { result ≡ min (binders_of_key (keys_view key.now)) (2 ^ 32 - 1) }
{
    match key {
        Some(key) => deep(&key.value),
        None => 0,
    }
}

#[cycle(deep)]
fn deep_other(other: &Option<Box<Plan>>) -> u32
    ensures { result ≡ min (binders_of_branches (other_node other.now)) (2 ^ 32 - 1) }
{
    match other {
        Some(other) => deep(other.get()),
        None => 0,
    }
}

#[cycle(deep)]
fn deep_all(plans: &[Plan]) -> u32
    ensures { result ≡ min (binders_of_nodes (nodes_view plans.now)) (2 ^ 32 - 1) }
{
    let mut depth = 0u32;
    'plans: for plan in plans {
        depth = depth.max(deep(plan));
    }
    depth
}

#[cycle(deep)]
fn deep_labelled(parts: &[(Label, Plan)]) -> u32
    ensures { result ≡ min (binders_of_fields (fields_view parts.now)) (2 ^ 32 - 1) }
{
    let mut depth = 0u32;
    'parts: for part in parts {
        depth = depth.max(deep(&part.1));
    }
    depth
}
