//! Which free positions stand in a plan, and whether it reads.
ghost use Rattle.std.specs.Prelude.{◌≡◌, ◌+◌, ◌-◌, ◌^◌, ◌||◌, ◌↔◌, ℕ, [], false, min, IfOk};
ghost use Rattle.kl_plan.specs.Joins.{join_view, keys_view, other_node};
ghost use Rattle.kl_plan.specs.Nodes.{view, nodes_view, fields_view};
ghost use Rattle.kl_plan.specs.Numbers.{scans_in, scans_of_nodes, scans_of_fields, scans_of_branches};
ghost use Rattle.kl_plan.specs.Occurs.{occurs, occurs_nodes, occurs_fields, occurs_branches, occurs_key, frees_in};
ghost use Rattle.kl_joins.specs.Reading.{some};

use crate::positions::stands_in;
use kl_base::{Box, Label, NoMemory, Seq};
use kl_plan::{Frees, Join, JoinKey, Plan};
use std::alloc::Global;

/// Whether the free position `at` stands in a plan.
pub fn occurs(plan: &Plan, at: u32) -> bool
    ensures { result ≡ occurs at (view plan.now) }
{
    stands(plan, u64::from(at))
}

// Under binders the position may pass 64 bits, and the count stays at its greatest value: it stands nowhere then.
#[cycle(stands)]
fn stands(plan: &Plan, at: u64) -> bool
    ensures { (n : ℕ) → min n (2 ^ 64 - 1) ≡ at → result ≡ occurs n (view plan.now) }
{
    match plan {
        Plan::Plain(term) => stands_in(term, at),
        Plan::Var(x) => u64::from(*x) == at,
        Plan::Scan(_) => false,
        Plan::Rec(fields) => stands_labelled(fields.slice(), at),
        Plan::Proj(_, a) => stands(a.get(), at),
        Plan::Inj(_, a) => stands(a.get(), at),
        Plan::Case(a, branches, other) => {
            if stands(a.get(), at) {
                return true;
            }
            if stands_labelled(branches.slice(), at.saturating_add(1)) {
                return true;
            }
            stands_other(other, at)
        }
        Plan::Make(_, plans) => stands_all(plans.slice(), at),
        Plan::Union(a, b) => stands(a.get(), at) || stands(b.get(), at),
        Plan::Ext(_, body, source) => {
            stands(body.get(), at.saturating_add(1)) || stands(source.get(), at)
        }
        Plan::If(a, b, c) => stands(a.get(), at) || stands(b.get(), at) || stands(c.get(), at),
        Plan::Let(a, b) => stands(a.get(), at) || stands(b.get(), at.saturating_add(1)),
        Plan::Prim(_, plans) => stands_all(plans.slice(), at),
        Plan::Join(join) => stands_join(join.get(), at),
        Plan::Memo(_, _, part) => stands(part.get(), at),
    }
}

#[cycle(stands)]
fn stands_join(join: &Join, at: u64) -> bool
    ensures { (n : ℕ) → min n (2 ^ 64 - 1) ≡ at → result ≡ occurs n (join_view join.now) }
{
    if stands(&join.outer, at) {
        return true;
    }
    if stands_all(join.conds.slice(), at.saturating_add(1)) {
        return true;
    }
    stands_key(&join.key, at.saturating_add(1)) || stands(&join.body, at.saturating_add(2))
}

#[cycle(stands)]
fn stands_key(key: &Option<JoinKey>, at: u64) -> bool
    ensures { (n : ℕ) → min n (2 ^ 64 - 1) ≡ at → result ≡ occurs_key n (keys_view key.now) }
{
    match key {
        Some(key) => stands(&key.value, at),
        None => false,
    }
}

#[cycle(stands)]
fn stands_other(other: &Option<Box<Plan>>, at: u64) -> bool
    ensures { (n : ℕ) → min n (2 ^ 64 - 1) ≡ at → result ≡ occurs_branches n (other_node other.now) }
{
    match other {
        Some(other) => stands(other.get(), at),
        None => false,
    }
}

#[cycle(stands)]
fn stands_all(plans: &[Plan], at: u64) -> bool
    ensures { (n : ℕ) → min n (2 ^ 64 - 1) ≡ at → result ≡ occurs_nodes n (nodes_view plans.now) }
{
    for plan in plans {
        if stands(plan, at) {
            return true;
        }
    }
    false
}

#[cycle(stands)]
fn stands_labelled(parts: &[(Label, Plan)], at: u64) -> bool
    ensures { (n : ℕ) → min n (2 ^ 64 - 1) ≡ at → result ≡ occurs_fields n (fields_view parts.now) }
{
    for part in parts {
        if stands(&part.1, at) {
            return true;
        }
    }
    false
}

/// The free positions of a plan below a depth, in rising order.
///
/// # Errors
/// Want of memory.
pub fn frees_of(alloc: Global, plan: &Plan, depth: u32) -> Result<Frees, NoMemory>
    ensures { IfOk result (λ fs. fs ≡ frees_in depth (view plan.now)) }
{
    let mut frees = Vec::new(alloc);
    for at in 0..depth {
        if occurs(plan, at) {
            frees.push(at)?;
        }
    }
    Ok(Seq::of(frees))
}

/// Whether a scan stands in a plan. A join has one.
pub fn has_scan(plan: &Plan) -> bool
    ensures { (result ≡ false) ↔ (scans_in (view plan.now) ≡ []) }
{
    reads(plan)
}

#[cycle(reads)]
#[tactic(auto, using(crate::proofs::Reading::some_then))]
fn reads(plan: &Plan) -> bool
    ensures { result ≡ some (scans_in (view plan.now)) }
{
    match plan {
        Plan::Plain(_) | Plan::Var(_) => false,
        Plan::Scan(_) | Plan::Join(_) => true,
        Plan::Rec(fields) => reads_labelled(false, fields.slice()),
        Plan::Proj(_, a) => reads(a.get()),
        Plan::Inj(_, a) => reads(a.get()),
        Plan::Case(a, branches, other) => {
            let subject = reads(a.get());
            let branch = reads_labelled(subject, branches.slice());
            reads_other(branch, other)
        }
        Plan::Make(_, plans) => reads_all(plans.slice()),
        Plan::Union(a, b) => reads(a.get()) || reads(b.get()),
        Plan::Ext(_, body, source) => reads(source.get()) || reads(body.get()),
        Plan::If(a, b, c) => reads(a.get()) || reads(b.get()) || reads(c.get()),
        Plan::Let(a, b) => reads(a.get()) || reads(b.get()),
        Plan::Prim(_, plans) => reads_all(plans.slice()),
        Plan::Memo(_, _, part) => reads(part.get()),
    }
}

// Takes whether a scan stands before it.
#[cycle(reads)]
fn reads_other(before: bool, other: &Option<Box<Plan>>) -> bool
    ensures { result ≡ (before || some (scans_of_branches (other_node other.now))) }
{
    match other {
        Some(other) => before || reads(other.get()),
        None => before,
    }
}

#[cycle(reads)]
#[tactic(auto, using(crate::proofs::Reading::some_then))]
fn reads_all(plans: &[Plan]) -> bool
    ensures { result ≡ some (scans_of_nodes (nodes_view plans.now)) }
{
    'plans: for plan in plans {
        if reads(plan) {
            return true;
        }
    }
    false
}

// Takes whether a scan stands before them.
#[cycle(reads)]
#[tactic(auto, using(crate::proofs::Reading::some_then))]
fn reads_labelled(before: bool, parts: &[(Label, Plan)]) -> bool
    ensures { result ≡ (before || some (scans_of_fields (fields_view parts.now))) }
{
    if before {
        return true;
    }
    'parts: for part in parts {
        if reads(&part.1) {
            return true;
        }
    }
    false
}
