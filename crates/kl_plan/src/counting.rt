//! How many scans stand in a plan. Takes no memory.
ghost use Rattle.std.specs.Prelude.{◌≡◌, ◌<◌, ◌-◌, ◌^◌, length, min};
ghost use Rattle.kl_plan.specs.Joins.{join_view, keys_view};
ghost use Rattle.kl_plan.specs.Nodes.{view, nodes_view, fields_view};
ghost use Rattle.kl_plan.specs.Numbers.{scans_in, scans_of_nodes, scans_of_fields, scans_of_branches, scans_of_key};
ghost use Rattle.kl_plan.specs.Joins.{other_node};

use crate::plan::{Join, JoinKey, Plan};
use kl_base::{Box, Label};

/// How many scans stand in a plan, those of joins among them.
pub fn count_scans(plan: &Plan) -> u32
    requires { length (scans_in (view plan.now)) < 2 ^ 32 }
    ensures { result ≡ length (scans_in (view plan.now)) }
{
    counted(plan)
}

// The same, where a count past u32 is answered as the greatest u32.
#[cycle(counted)]
#[tactic(auto, using(crate::proofs::Amounts::count_rules))]
fn counted(plan: &Plan) -> u32
    ensures { result ≡ min (length (scans_in (view plan.now))) (2 ^ 32 - 1) }
{
    match plan {
        Plan::Plain(_) | Plan::Var(_) => 0,
        Plan::Rec(fields) => counted_labelled(fields.slice()),
        Plan::Proj(_, a) => counted(a.get()),
        Plan::Inj(_, a) => counted(a.get()),
        Plan::Case(a, branches, other) => {
            let subject = counted(a.get());
            let branches = counted_labelled(branches.slice());
            subject
                .saturating_add(branches)
                .saturating_add(counted_other(other))
        }
        Plan::Make(_, plans) => counted_all(plans.slice()),
        Plan::Union(a, b) => counted(a.get()).saturating_add(counted(b.get())),
        Plan::Ext(_, body, source) => counted(source.get()).saturating_add(counted(body.get())),
        Plan::If(a, b, c) => {
            let condition = counted(a.get());
            condition
                .saturating_add(counted(b.get()))
                .saturating_add(counted(c.get()))
        }
        Plan::Let(a, b) => counted(a.get()).saturating_add(counted(b.get())),
        Plan::Prim(_, plans) => counted_all(plans.slice()),
        Plan::Scan(_) => 1,
        Plan::Join(join) => counted_join(join.get()),
        Plan::Memo(_, _, part) => counted(part.get()),
    }
}

#[cycle(counted)]
fn counted_join(join: &Join) -> u32
    ensures { result ≡ min (length (scans_in (join_view join.now))) (2 ^ 32 - 1) }
{
    let outside = counted(&join.outer).saturating_add(counted_all(join.conds.slice()));
    let inside = counted_key(&join.key).saturating_add(counted(&join.body));
    outside.saturating_add(inside).saturating_add(1)
}

#[cycle(counted)]
fn counted_key(key: &Option<JoinKey>) -> u32
    ensures { result ≡ min (length (scans_of_key (keys_view key.now))) (2 ^ 32 - 1) }
{
    match key {
        Some(key) => counted(&key.value),
        None => 0,
    }
}

#[cycle(counted)]
fn counted_other(other: &Option<Box<Plan>>) -> u32
    ensures { result ≡ min (length (scans_of_branches (other_node other.now))) (2 ^ 32 - 1) }
{
    match other {
        Some(other) => counted(other.get()),
        None => 0,
    }
}

#[cycle(counted)]
fn counted_all(plans: &[Plan]) -> u32
    ensures { result ≡ min (length (scans_of_nodes (nodes_view plans.now))) (2 ^ 32 - 1) }
{
    let mut count = 0u32;
    'plans: for plan in plans {
        count = count.saturating_add(counted(plan));
    }
    count
}

#[cycle(counted)]
fn counted_labelled(parts: &[(Label, Plan)]) -> u32
    ensures { result ≡ min (length (scans_of_fields (fields_view parts.now))) (2 ^ 32 - 1) }
{
    let mut count = 0u32;
    'parts: for part in parts {
        count = count.saturating_add(counted(&part.1));
    }
    count
}
