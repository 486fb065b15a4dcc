//! Subqueries whose values are kept.
ghost use Rattle.std.specs.Prelude.{◌≡◌, IfOk, IsOkAnd};
ghost use Rattle.kl_plan.specs.Joins.{join_view, keys_view, other_node};
ghost use Rattle.kl_plan.specs.Nodes as node;
ghost use Rattle.kl_plan.specs.Nodes.{view, nodes_view, fields_view};
ghost use Rattle.kl_plan.specs.Occurs.{frees_in};
ghost use Rattle.kl_joins.specs.declared.keeping.Place.TheVariants as place;
ghost use Rattle.kl_joins.specs.Keeping.{HasNoMemo, MayKeep, MayKeepEach, MayKeepFields, MayKeepBranches, MayKeepKey};
ghost use Rattle.kl_joins.specs.Keeping.{WhetherKept, WhetherLooping, HasParts};
ghost use Rattle.kl_joins.specs.MemosMade.{aside, at_source, IsLooping, IsNotKept, MemosMade, EachKept, FieldsKept, BranchesKept, KeyKept};

use crate::depths::is_shallow;
use crate::frees::{frees_of, has_scan};
use kl_base::{Box, NoMemory};
use kl_plan::{Frees, Join, JoinKey, Plan, PlanFields, Plans};
use std::alloc::Global;
use std::mem;

/// Where a part stands.
#[derive(Clone, Copy, PartialEq, Eq)]
pub enum Place {
    /// In no loop.
    Outside,
    /// On the spine of the body of the loop in which it stands.
    Spine,
    /// In the body, a condition or the key of a loop, and not on its spine.
    Aside,
}

/// Wraps the parts of a plan whose values are to be kept. Their numbers are 0.
///
/// # Errors
/// Want of memory; the plan is not to be used then.
pub fn keep(alloc: Global, plan: &mut Plan) -> Result<(), NoMemory>
    requires bare { HasNoMemo (view plan.old) }
    ensures { IfOk result (λ _. MemosMade place.Outside 0 (view plan.old) (view plan.new)) }
{
    // Positions are counted in 32 bits, and memory cannot hold a plan that binds more.
    if !is_shallow(plan) {
        return Err(NoMemory);
    }
    keep_parts(alloc, plan, Place::Outside, 0)
}

// So many positions are bound around the plan.
#[cycle(keep)]
fn keep_parts(alloc: Global, plan: &mut Plan, place: Place, depth: u32) -> Result<(), NoMemory>
    requires ready { MayKeep depth (view plan.old) }
    ensures { IfOk result (λ _. MemosMade place depth (view plan.old) (view plan.new)) }
{
    if is_kept(place, plan) {
        wrap(alloc, plan, depth)
    } else {
        keep_inside(alloc, plan, place, depth)
    }
}

fn aside(place: Place) -> Place
    ensures { result ≡ aside place }
{
    match place {
        Place::Outside => Place::Outside,
        Place::Spine | Place::Aside => Place::Aside,
    }
}

// A loop's source is on the spine where the loop is and it is a scan.
fn at_source(place: Place, source: &Plan) -> Place
    ensures { result ≡ at_source place (view source.now) }
{
    match source {
        Plan::Scan(_) => place,
        _ => aside(place),
    }
}

fn is_kept(place: Place, plan: &Plan) -> bool
    ensures { WhetherKept result place (view plan.now) }
{
    match place {
        Place::Outside | Place::Spine => false,
        Place::Aside => is_looping(plan) && has_scan(plan),
    }
}

// Whether a plan is a loop, a join or a scan.
fn is_looping(plan: &Plan) -> bool
    ensures { WhetherLooping result (view plan.now) }
{
    match plan {
        Plan::Ext(_, _, _) | Plan::Join(_) | Plan::Scan(_) => true,
        _ => false,
    }
}

// The plan becomes a memo of it.
fn wrap(alloc: Global, plan: &mut Plan, depth: u32) -> Result<(), NoMemory>
    ensures { IfOk result (λ _. view plan.new ≡ node.Memo 0 (frees_in depth (view plan.old)) (view plan.old)) }
{
    let frees = frees_of(alloc, plan, depth);
    let part = take(plan);
    let memo = memo(alloc, frees, part);
    put(plan, memo)
}

// The plan; another stands there then.
fn take(plan: &mut Plan) -> Plan
    ensures { result ≡ plan.old }
{
    mem::replace(plan, Plan::Var(0))
}

fn memo(alloc: Global, frees: Result<Frees, NoMemory>, part: Plan) -> Result<Plan, NoMemory>
    ensures { IfOk result (λ p. IsOkAnd frees (λ fs. view p ≡ node.Memo 0 fs (view part))) }
{
    let part = Box::new(alloc, part)?;
    Ok(Plan::Memo(0, frees?, part))
}

fn put(plan: &mut Plan, made: Result<Plan, NoMemory>) -> Result<(), NoMemory>
    ensures { IfOk result (λ _. IsOkAnd made (λ p. plan.new ≡ p)) }
{
    drop(mem::replace(plan, made?));
    Ok(())
}

// The plan itself is not kept.
#[cycle(keep)]
fn keep_inside(alloc: Global, plan: &mut Plan, place: Place, depth: u32) -> Result<(), NoMemory>
    requires passed { IsLooping (view plan.old) → IsNotKept place (view plan.old) }
    requires ready { MayKeep depth (view plan.old) }
    ensures { IfOk result (λ _. MemosMade place depth (view plan.old) (view plan.new)) }
{
    let beside = aside(place);
    match plan {
        Plan::Plain(_) | Plan::Var(_) | Plan::Memo(_, _, _) | Plan::Scan(_) => Ok(()),
        Plan::Rec(fields) => keep_labelled(Ok(()), alloc, fields, beside, depth),
        Plan::Proj(_, a) => keep_part(alloc, a, beside, depth),
        Plan::Inj(_, a) => keep_part(alloc, a, beside, depth),
        Plan::Make(_, plans) => keep_all(alloc, plans, beside, depth),
        Plan::Prim(_, plans) => keep_all(alloc, plans, beside, depth),
        Plan::Join(join) => keep_join(alloc, join.get_mut(), place, depth),
        _ => keep_several(alloc, plan, place, depth),
    }
}

#[cycle(keep)]
fn keep_several(alloc: Global, plan: &mut Plan, place: Place, depth: u32) -> Result<(), NoMemory>
    requires several { HasParts (view plan.old) }
    requires passed { IsLooping (view plan.old) → IsNotKept place (view plan.old) }
    requires ready { MayKeep depth (view plan.old) }
    ensures { IfOk result (λ _. MemosMade place depth (view plan.old) (view plan.new)) }
{
    let beside = aside(place);
    match plan {
        Plan::Case(a, branches, other) => {
            let subject = keep_part(alloc, a, beside, depth);
            let branch = keep_labelled(subject, alloc, branches, place, depth + 1);
            keep_other(branch, alloc, other, place, depth)
        }
        Plan::Union(a, b) => {
            let first = keep_part(alloc, a, place, depth);
            keep_next(first, alloc, b, place, depth)
        }
        Plan::Ext(_, body, source) => {
            let drawn = keep_source(alloc, source, place, depth);
            keep_next(drawn, alloc, body, Place::Spine, depth + 1)
        }
        Plan::If(a, b, c) => {
            let tested = keep_part(alloc, a, beside, depth);
            let chosen = keep_next(tested, alloc, b, place, depth);
            keep_next(chosen, alloc, c, place, depth)
        }
        Plan::Let(a, b) => {
            let bound = keep_part(alloc, a, beside, depth);
            keep_next(bound, alloc, b, place, depth + 1)
        }
        _ => Ok(()),
    }
}

#[cycle(keep)]
fn keep_part(alloc: Global, part: &mut Box<Plan>, place: Place, depth: u32) -> Result<(), NoMemory>
    requires ready { MayKeep depth (view part.old) }
    ensures { IfOk result (λ _. MemosMade place depth (view part.old) (view part.new)) }
{
    keep_parts(alloc, part.get_mut(), place, depth)
}

#[cycle(keep)]
fn keep_source(
    alloc: Global,
    source: &mut Box<Plan>,
    place: Place,
    depth: u32,
) -> Result<(), NoMemory>
    requires ready { MayKeep depth (view source.old) }
    ensures { IfOk result (λ _. MemosMade (at_source place (view source.old)) depth (view source.old) (view source.new)) }
{
    let at = at_source(place, source.get());
    keep_parts(alloc, source.get_mut(), at, depth)
}

// These take what came of the part before theirs, so that the walk of a plan ends in one place for each form.
#[cycle(keep)]
fn keep_next(
    before: Result<(), NoMemory>,
    alloc: Global,
    part: &mut Box<Plan>,
    place: Place,
    depth: u32,
) -> Result<(), NoMemory>
    requires ready { MayKeep depth (view part.old) }
    ensures { IfOk result (λ _. IsOkAnd before (λ _. MemosMade place depth (view part.old) (view part.new))) }
{
    before?;
    keep_parts(alloc, part.get_mut(), place, depth)
}

#[cycle(keep)]
fn keep_other(
    before: Result<(), NoMemory>,
    alloc: Global,
    other: &mut Option<Box<Plan>>,
    place: Place,
    depth: u32,
) -> Result<(), NoMemory>
    requires ready { MayKeepBranches depth (other_node other.old) }
    ensures { IfOk result (λ _. IsOkAnd before (λ _. BranchesKept place depth (other_node other.old) (other_node other.new))) }
{
    before?;
    match other {
        Some(part) => keep_parts(alloc, part.get_mut(), place, depth),
        None => Ok(()),
    }
}

#[cycle(keep)]
fn keep_labelled(
    before: Result<(), NoMemory>,
    alloc: Global,
    parts: &mut PlanFields,
    place: Place,
    depth: u32,
) -> Result<(), NoMemory>
    requires ready { MayKeepFields depth (fields_view parts.old) }
    ensures { IfOk result (λ _. IsOkAnd before (λ _. FieldsKept place depth (fields_view parts.old) (fields_view parts.new))) }
{
    before?;
    let parts = parts.slice_mut();
    'parts: for i in 0..parts.len() {
        keep_parts(alloc, &mut parts[i].1, place, depth)?;
    }
    Ok(())
}

#[cycle(keep)]
fn keep_all(alloc: Global, plans: &mut Plans, place: Place, depth: u32) -> Result<(), NoMemory>
    requires ready { MayKeepEach depth (nodes_view plans.old) }
    ensures { IfOk result (λ _. EachKept place depth (nodes_view plans.old) (nodes_view plans.new)) }
{
    let plans = plans.slice_mut();
    'plans: for i in 0..plans.len() {
        keep_parts(alloc, &mut plans[i], place, depth)?;
    }
    Ok(())
}

// The join itself is not kept.
#[cycle(keep)]
fn keep_join(alloc: Global, join: &mut Join, place: Place, depth: u32) -> Result<(), NoMemory>
    requires passed { IsNotKept place (join_view join.old) }
    requires ready { MayKeep depth (join_view join.old) }
    ensures { IfOk result (λ _. MemosMade place depth (join_view join.old) (join_view join.new)) }
{
    let Join {
        outer,
        conds,
        key,
        body,
        ..
    } = join;
    keep_parts(alloc, outer, aside(place), depth)?;
    keep_all(alloc, conds, Place::Aside, depth + 1)?;
    keep_key(alloc, key, depth + 1)?;
    keep_parts(alloc, body, Place::Spine, depth + 2)
}

#[cycle(keep)]
fn keep_key(alloc: Global, key: &mut Option<JoinKey>, depth: u32) -> Result<(), NoMemory>
    requires ready { MayKeepKey depth (keys_view key.old) }
    ensures { IfOk result (λ _. KeyKept depth (keys_view key.old) (keys_view key.new)) }
{
    match key {
        Some(key) => keep_parts(alloc, &mut key.value, Place::Aside, depth),
        None => Ok(()),
    }
}
