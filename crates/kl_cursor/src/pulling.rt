//! Whether the next step of a cursor may read on at a source.
ghost use Rattle.std.specs.Prelude.{◌≡◌, ◌||◌, drop};
ghost use Rattle.kl_plan.specs.Joins.{keys_view};
ghost use Rattle.kl_plan.specs.Nodes.{fields_view, nodes_view, view};
ghost use Rattle.kl_cursor.specs.Joining.{join_parts};
ghost use Rattle.kl_cursor.specs.Left.{snap};
ghost use Rattle.kl_cursor.specs.Pulling.{has_scan, has_scan_key, has_scan_nodes, has_scan_fields, gives, reads_for_row, reads_on};
ghost use Rattle.kl_cursor.specs.Pulling.{loop_reads_on, pulls};

use crate::state::{FiledRows, State};
use kl_base::{Box, Label};
use kl_plan::{Join, JoinKey, Plan};

/// Whether a scan stands in a plan. In a join and in a subquery one does.
#[cycle(scan)]
pub fn has_scan(plan: &Plan) -> bool
    ensures { result ≡ has_scan (view plan.now) }
{
    match plan {
        Plan::Plain(_) | Plan::Var(_) => false,
        Plan::Scan(_) | Plan::Join(_) | Plan::Memo(_, _, _) => true,
        Plan::Rec(fields) => has_scan_labelled(fields.slice()),
        Plan::Proj(_, a) => has_scan(a.get()),
        Plan::Inj(_, a) => has_scan(a.get()),
        Plan::Case(a, branches, other) => {
            if has_scan(a.get()) {
                return true;
            }
            if has_scan_labelled(branches.slice()) {
                return true;
            }
            match other {
                Some(other) => has_scan(other.get()),
                None => false,
            }
        }
        Plan::Make(_, parts) => has_scan_all(parts.slice()),
        Plan::Union(a, b) => has_scan(a.get()) || has_scan(b.get()),
        Plan::Ext(_, body, source) => has_scan(source.get()) || has_scan(body.get()),
        Plan::If(a, b, c) => has_scan(a.get()) || has_scan(b.get()) || has_scan(c.get()),
        Plan::Let(a, b) => has_scan(a.get()) || has_scan(b.get()),
        Plan::Prim(_, args) => has_scan_all(args.slice()),
    }
}

#[cycle(scan)]
fn has_scan_all(plans: &[Plan]) -> bool
    ensures { result ≡ has_scan_nodes (nodes_view plans.now) }
{
    'plans: for plan in plans {
        if has_scan(plan) {
            return true;
        }
    }
    false
}

#[cycle(scan)]
fn has_scan_labelled(parts: &[(Label, Plan)]) -> bool
    ensures { result ≡ has_scan_fields (fields_view parts.now) }
{
    'parts: for part in parts {
        if has_scan(&part.1) {
            return true;
        }
    }
    false
}

// Whether a scan stands in one of the plans from a place on.
fn has_scan_from(plans: &[Plan], place: usize) -> bool
    ensures { result ≡ has_scan_nodes (nodes_view (drop place plans.now)) }
{
    if place < plans.len() {
        has_scan_all(&plans[place..])
    } else {
        false
    }
}

// Whether a plan of a collection gives an item whatever its tests come to.
fn gives(plan: &Plan) -> bool
    ensures { result ≡ gives (view plan.now) }
{
    match plan {
        Plan::Make(_, parts) => parts.len() > 0,
        Plan::If(_, then, other) => gives(then.get()) && gives(other.get()),
        Plan::Let(_, body) => gives(body.get()),
        _ => false,
    }
}

// Whether a cursor reads on at a source, in this step or in a later one.
fn reads_on(at: &State) -> bool
    ensures { result ≡ reads_on (snap at.now) }
{
    match at {
        State::Fresh(plan) => has_scan(plan),
        State::Have(_, _) | State::Done => false,
        State::Scan(_, _, _) => true,
        State::Union(first, second) => reads_on(first.get()) || has_scan(second),
        State::Bound(_, body) => reads_on(body.get()),
        State::Outside(body, source, _) => has_scan(body) || reads_on(source.get()),
        State::Inside(body, source, _, inner) => {
            reads_on(inner.get()) || has_scan(body) || reads_on(source.get())
        }
        State::Make(parts, place) => has_scan_from(parts.slice(), *place),
        State::Keyed(_, _, _) | State::Found(_, _, _, _, _) => true,
    }
}

// Whether a loop reads on, of whose source an item is at hand: it does in its body, or where the body may give no item.
fn loop_reads_on(body: &Plan, source: &State) -> bool
    ensures { result ≡ loop_reads_on (view body.now) (snap source.now) }
{
    has_scan(body) || (reads_on(source) && !gives(body))
}

// Whether a scan stands in the key of a join.
fn has_scan_key(key: &Option<JoinKey>) -> bool
    ensures { result ≡ has_scan_key (keys_view key.now) }
{
    match key {
        Some(key) => has_scan(&key.value),
        None => false,
    }
}

// Whether a join by an index reads on for an outer row.
fn reads_for_row(join: &Join, filed: &Option<Box<FiledRows>>) -> bool
    ensures { result ≡ reads_for_row (join_parts join.now) filed.now }
{
    match filed {
        Some(_) => has_scan_all(join.conds.slice())
            || has_scan_key(&join.key)
            || has_scan(&join.body),
        None => true,
    }
}

/// Whether a join by an index between two outer rows may read on at a source for the next one and its pairs.
pub fn row_pulls(join: &Join, outer: &State, filed: &Option<Box<FiledRows>>) -> bool
    ensures { result ≡ (pulls (snap outer.now) || reads_for_row (join_parts join.now) filed.now) }
{
    may_pull(outer) || reads_for_row(join, filed)
}

/// Whether the next step of a cursor may read on at a source. It does not where an item is at hand.
pub fn may_pull(at: &State) -> bool
    ensures { result ≡ pulls (snap at.now) }
{
    match at {
        State::Fresh(plan) => has_scan(plan),
        State::Have(_, _) | State::Done => false,
        State::Scan(_, _, ahead) => ahead.is_empty(),
        State::Union(first, second) => may_pull(first.get()) || has_scan(second),
        State::Bound(_, body) => may_pull(body.get()),
        State::Outside(body, source, _) => {
            may_pull(source.get()) || loop_reads_on(body, source.get())
        }
        State::Inside(body, source, _, inner) => {
            may_pull(inner.get()) || may_pull(source.get()) || loop_reads_on(body, source.get())
        }
        State::Make(parts, place) => has_scan_from(parts.slice(), *place),
        State::Keyed(_, _, _) | State::Found(_, _, _, _, _) => true,
    }
}
