//! Which plans do not overflow. None of it takes memory.
ghost use Rattle.std.specs.Prelude.{◌≡◌};
ghost use Rattle.kl_core.specs.Counts.{total_in, total_trees, total_parts};
ghost use Rattle.kl_plan.specs.Erased.{erased, erased_nodes, erased_fields};
ghost use Rattle.kl_plan.specs.Joins.{join_view, keys_view};
ghost use Rattle.kl_plan.specs.Nodes.{view, nodes_view, fields_view};
ghost use Rattle.kl_plan.specs.Totals.{total_key};

use crate::plan::{Join, JoinKey, Plan};
use kl_base::Label;

/// Whether no primitive in the plan may overflow.
#[cycle(is_total)]
pub fn is_total(plan: &Plan) -> bool
    ensures { result ≡ total_in (erased (view plan.now)) }
{
    match plan {
        Plan::Plain(term) => kl_core::is_total(term),
        Plan::Var(_) | Plan::Scan(_) => true,
        Plan::Rec(fields) => are_total_labelled(fields.slice()),
        Plan::Proj(_, a) => is_total(a.get()),
        Plan::Inj(_, a) => is_total(a.get()),
        Plan::Case(a, branches, other) => {
            if !is_total(a.get()) {
                return false;
            }
            if !are_total_labelled(branches.slice()) {
                return false;
            }
            match other {
                Some(other) => is_total(other.get()),
                None => true,
            }
        }
        Plan::Make(_, plans) => are_total(plans.slice()),
        Plan::Union(a, b) => is_total(a.get()) && is_total(b.get()),
        Plan::Ext(_, body, source) => is_total(body.get()) && is_total(source.get()),
        Plan::If(a, b, c) => is_total(a.get()) && is_total(b.get()) && is_total(c.get()),
        Plan::Let(a, b) => is_total(a.get()) && is_total(b.get()),
        Plan::Prim(code, plans) => kl_core::is_total_code(*code) && are_total(plans.slice()),
        Plan::Join(join) => is_total_join(join.get()),
        Plan::Memo(_, _, part) => is_total(part.get()),
    }
}

#[cycle(is_total)]
fn are_total(plans: &[Plan]) -> bool
    ensures { result ≡ total_trees (erased_nodes (nodes_view plans.now)) }
{
    for plan in plans {
        if !is_total(plan) {
            return false;
        }
    }
    true
}

#[cycle(is_total)]
fn are_total_labelled(parts: &[(Label, Plan)]) -> bool
    ensures { result ≡ total_parts (erased_fields (fields_view parts.now)) }
{
    for part in parts {
        if !is_total(&part.1) {
            return false;
        }
    }
    true
}

#[cycle(is_total)]
fn is_total_join(join: &Join) -> bool
    ensures { result ≡ total_in (erased (join_view join.now)) }
{
    if !are_total(join.conds.slice()) {
        return false;
    }
    if !is_total_key(&join.key) {
        return false;
    }
    if !is_total(&join.body) {
        return false;
    }
    is_total(&join.outer)
}

#[cycle(is_total)]
fn is_total_key(key: &Option<JoinKey>) -> bool
    ensures { result ≡ total_key (keys_view key.now) }
{
    match key {
        Some(key) => is_total(&key.value),
        None => true,
    }
}
