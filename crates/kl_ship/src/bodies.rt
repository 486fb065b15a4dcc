//! The bodies of loops, those of joins among them. None of it takes memory.
ghost use Rattle.std.specs.Prelude.{◌≡◌, ◌==◌, length};
ghost use Rattle.kl_core.specs.Trees.{Tree, Ext};
ghost use Rattle.kl_plan.specs.Erased.{erased, erased_around};
ghost use Rattle.kl_plan.specs.Joins.{join_view};
ghost use Rattle.kl_plan.specs.Nodes.{view, nodes_view};
ghost use Rattle.kl_ship.specs.Bodies.{outer_body, inner_body, body_view};
ghost use Rattle.kl_ship.specs.Delegation.{taken, whole_use, column_use};
ghost use Rattle.kl_ship.specs.Whether.{is_scan_by, is_loop_by};

use crate::erased;
use crate::erased::{is_constant, is_test, uses_column_outer, uses_whole_outer};
use kl_base::Label;
use kl_joins::is_same;
use kl_plan::{Join, JoinKey, Plan, is_total};
use kl_value::Kind;

/// The body of a loop: a plan, or that of the outer or of the inner loop of a join.
#[derive(Drop)]
pub enum Body<'a> {
    Own(&'a Plan),
    Outer(&'a Join),
    Inner(&'a Join),
}

/// Whether no test of the row alone stands in the front of a body of a kind.
pub fn takes_none(kind: Kind, body: &Body) -> bool
    ensures { result ≡ (length (taken kind 1 (erased (body_view body.now))) == 0) }
{
    match body {
        Body::Own(plan) => erased::takes_none(kind, 1, plan),
        Body::Outer(join) => outer_takes_none(kind, join),
        Body::Inner(join) => inner_takes_none(kind, join),
    }
}

fn outer_takes_none(kind: Kind, join: &Join) -> bool
    ensures { result ≡ (length (taken kind 1 (erased (outer_body (join_view join.now)))) == 0) }
{
    if !is_same(join.kind, kind) {
        return true;
    }
    conditions_take_none(kind, join.conds.slice())
}

fn conditions_take_none(kind: Kind, conditions: &[Plan]) -> bool
    ensures { (b s : Tree) → result ≡ (length (taken kind 1 (erased_around kind (nodes_view conditions.now) (Ext kind b s))) == 0) }
{
    for condition in conditions {
        if !is_total(condition) {
            return true;
        }
        if is_test(1, condition) {
            return false;
        }
    }
    true
}

fn inner_takes_none(kind: Kind, join: &Join) -> bool
    ensures { result ≡ (length (taken kind 1 (erased (inner_body (join_view join.now)))) == 0) }
{
    match &join.key {
        Some(key) => {
            if !is_same(join.kind, kind) {
                return true;
            }
            if !is_total(&key.value) {
                return true;
            }
            if is_constant(&key.value) {
                return false;
            }
            erased::takes_none(kind, 1, &join.body)
        }
        None => erased::takes_none(kind, 1, &join.body),
    }
}

/// Whether the row of a loop is used in its body otherwise than by columns of it.
pub fn whole_use(body: &Body) -> bool
    ensures { result ≡ whole_use 0 (erased (body_view body.now)) }
{
    match body {
        Body::Own(plan) => erased::whole_use(plan),
        Body::Outer(join) => uses_whole_outer(0, join),
        Body::Inner(join) => inner_whole_use(join),
    }
}

// The value of the key is above the inner row.
fn inner_whole_use(join: &Join) -> bool
    ensures { result ≡ whole_use 0 (erased (inner_body (join_view join.now))) }
{
    erased::whole_use(&join.body)
}

/// Whether the column with a label is taken of the row of a loop in its body.
pub fn column_use(label: &Label, body: &Body) -> bool
    ensures { result ≡ column_use 0 label.now (erased (body_view body.now)) }
{
    match body {
        Body::Own(plan) => erased::column_use(label, plan),
        Body::Outer(join) => uses_column_outer(0, label, join),
        Body::Inner(join) => inner_column_use(label, join),
    }
}

fn inner_column_use(label: &Label, join: &Join) -> bool
    ensures { result ≡ column_use 0 label.now (erased (inner_body (join_view join.now))) }
{
    match &join.key {
        Some(key) => {
            if key.label == *label {
                return true;
            }
            erased::column_use(label, &join.body)
        }
        None => erased::column_use(label, &join.body),
    }
}

/// Whether a body is directly a loop of a kind over a scan of that kind by the driver.
pub fn is_loop_by(driver: u32, kind: Kind, body: &Body) -> bool
    ensures { result ≡ is_loop_by driver kind (body_view body.now) }
{
    match body {
        Body::Own(plan) => plan_is_loop_by(driver, kind, plan),
        Body::Outer(join) => outer_is_loop_by(driver, kind, join),
        Body::Inner(join) => inner_is_loop_by(driver, kind, join),
    }
}

fn outer_is_loop_by(driver: u32, kind: Kind, join: &Join) -> bool
    ensures { result ≡ is_loop_by driver kind (outer_body (join_view join.now)) }
{
    match join.conds.slice() {
        [] => {
            is_same(join.kind, kind)
                && (join.inner.driver == driver && is_same(join.inner.kind, kind))
        }
        _ => false,
    }
}

fn inner_is_loop_by(driver: u32, kind: Kind, join: &Join) -> bool
    ensures { result ≡ is_loop_by driver kind (inner_body (join_view join.now)) }
{
    match &join.key {
        Some(_) => false,
        None => plan_is_loop_by(driver, kind, &join.body),
    }
}

fn plan_is_loop_by(driver: u32, kind: Kind, plan: &Plan) -> bool
    ensures { result ≡ is_loop_by driver kind (view plan.now) }
{
    match plan {
        Plan::Ext(own, _, source) => is_same(*own, kind) && is_scan_by(driver, kind, source.get()),
        Plan::Join(join) => join_is_loop_by(driver, kind, join.get()),
        Plan::Memo(_, _, part) => plan_is_loop_by(driver, kind, part.get()),
        _ => false,
    }
}

fn join_is_loop_by(driver: u32, kind: Kind, join: &Join) -> bool
    ensures { result ≡ is_loop_by driver kind (join_view join.now) }
{
    is_same(join.kind, kind) && is_scan_by(driver, kind, &join.outer)
}

fn is_scan_by(driver: u32, kind: Kind, plan: &Plan) -> bool
    ensures { result ≡ is_scan_by driver kind (view plan.now) }
{
    match plan {
        Plan::Scan(scan) => scan.driver == driver && is_same(scan.kind, kind),
        Plan::Memo(_, _, part) => is_scan_by(driver, kind, part.get()),
        _ => false,
    }
}
