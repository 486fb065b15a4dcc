//! What holds of a plan as a term, where a scan is a source and a join is its loops. None of it takes memory.
ghost use Rattle.std.specs.Prelude.{◌≡◌, ◌==◌, ◌-◌, ◌^◌, ℕ, length, min, Some, is_some};
ghost use Rattle.kl_sqltext.specs.declared.ast.SqlOp.{SqlOp};
ghost use Rattle.kl_ship.specs.Delegation.{variable, column_of, constant, test_by, test_of, is_empty, is_front, taken};
ghost use Rattle.kl_ship.specs.Delegation.{whole_use, whole_use_trees, whole_use_parts, is_at};
ghost use Rattle.kl_ship.specs.Delegation.{column_use, column_use_trees, column_use_parts};
ghost use Rattle.kl_plan.specs.Erased.{erased, erased_nodes, erased_fields};
ghost use Rattle.kl_plan.specs.Joins.{join_view, keys_view};
ghost use Rattle.kl_plan.specs.Nodes.{view, nodes_view, fields_view};
ghost use Rattle.kl_ship.specs.Bodies.{outer_body, whole_key, column_key};

use crate::conditions;
use crate::conditions::{comparison, constant};
use kl_base::Label;
use kl_joins::is_same;
use kl_plan::{Join, JoinKey, Plan, is_total};
use kl_value::Kind;

fn variable(plan: &Plan) -> Option<u32>
    ensures { result ≡ variable (erased (view plan.now)) }
{
    match plan {
        Plan::Plain(term) => conditions::variable(term),
        Plan::Var(x) => Some(*x),
        Plan::Memo(_, _, part) => variable(part.get()),
        _ => None,
    }
}

/// Whether a plan is a constant.
pub fn is_constant(plan: &Plan) -> bool
    ensures { result ≡ is_some (constant (erased (view plan.now))) }
{
    match plan {
        Plan::Plain(term) => constant(term).is_some(),
        Plan::Memo(_, _, part) => is_constant(part.get()),
        _ => false,
    }
}

fn is_column(rows: u32, plan: &Plan) -> bool
    ensures { result ≡ is_some (column_of rows (erased (view plan.now))) }
{
    match plan {
        Plan::Plain(term) => conditions::column_of(rows, term).is_some(),
        Plan::Proj(_, row) => match variable(row.get()) {
            Some(x) => x < rows,
            None => false,
        },
        Plan::Memo(_, _, part) => is_column(rows, part.get()),
        _ => false,
    }
}

/// Whether a condition is a test of the rows at the positions below `rows`.
pub fn is_test(rows: u32, condition: &Plan) -> bool
    ensures { result ≡ is_some (test_of rows (erased (view condition.now))) }
{
    match condition {
        Plan::Plain(term) => conditions::is_test(rows, term),
        Plan::Prim(code, plans) => match comparison(*code) {
            Some(_) => compares(rows, plans.slice()),
            None => false,
        },
        Plan::Memo(_, _, part) => is_test(rows, part.get()),
        _ => false,
    }
}

fn compares(rows: u32, plans: &[Plan]) -> bool
    ensures { (o : SqlOp) → result ≡ is_some (test_by rows (Some o) (erased_nodes (nodes_view plans.now))) }
{
    match plans {
        [a, b] => {
            let left = is_column(rows, a);
            let right = is_column(rows, b);
            (left && (right || is_constant(b))) || (right && is_constant(a))
        }
        _ => false,
    }
}

fn is_empty(kind: Kind, plan: &Plan) -> bool
    ensures { result ≡ is_empty kind (erased (view plan.now)) }
{
    match plan {
        Plan::Plain(term) => conditions::is_empty(kind, term),
        Plan::Make(k, plans) => match plans.slice() {
            [] => is_same(*k, kind),
            _ => false,
        },
        Plan::Memo(_, _, part) => is_empty(kind, part.get()),
        _ => false,
    }
}

fn is_front(kind: Kind, condition: &Plan, other: &Plan) -> bool
    ensures { result ≡ is_front kind (erased (view condition.now)) (erased (view other.now)) }
{
    is_total(condition) && is_empty(kind, other)
}

/// Whether no test of the rows at the positions below `rows` stands in the front of a body of a kind.
pub fn takes_none(kind: Kind, rows: u32, body: &Plan) -> bool
    ensures { result ≡ (length (taken kind rows (erased (view body.now))) == 0) }
{
    match body {
        Plan::Plain(term) => conditions::takes_none(kind, rows, term),
        Plan::If(condition, yes, no) => {
            if is_front(kind, condition.get(), no.get()) {
                !is_test(rows, condition.get()) && takes_none(kind, rows, yes.get())
            } else {
                true
            }
        }
        Plan::Memo(_, _, part) => takes_none(kind, rows, part.get()),
        _ => true,
    }
}

/// Whether the nearest position is used otherwise than as a row of which a column is taken.
pub fn whole_use(body: &Plan) -> bool
    ensures { result ≡ whole_use 0 (erased (view body.now)) }
{
    uses_whole(0, body)
}

// Under binders the position may pass 64 bits, and the count stays at its greatest value: it stands nowhere then.
#[cycle(uses_whole)]
fn uses_whole(at: u64, plan: &Plan) -> bool
    ensures { (n : ℕ) → min n (2 ^ 64 - 1) ≡ at → result ≡ whole_use n (erased (view plan.now)) }
{
    match plan {
        Plan::Plain(term) => conditions::uses_whole(at, term),
        Plan::Var(x) => u64::from(*x) == at,
        Plan::Scan(_) => false,
        Plan::Rec(fields) => uses_whole_labelled(at, fields.slice()),
        Plan::Proj(_, a) => variable(a.get()).is_none() && uses_whole(at, a.get()),
        Plan::Inj(_, a) => uses_whole(at, a.get()),
        Plan::Case(a, branches, other) => {
            if uses_whole(at, a.get()) {
                return true;
            }
            if uses_whole_labelled(at.saturating_add(1), branches.slice()) {
                return true;
            }
            match other {
                Some(other) => uses_whole(at, other.get()),
                None => false,
            }
        }
        Plan::Make(_, plans) => uses_whole_all(at, plans.slice()),
        Plan::Union(a, b) => uses_whole(at, a.get()) || uses_whole(at, b.get()),
        Plan::Ext(_, body, source) => {
            uses_whole(at.saturating_add(1), body.get()) || uses_whole(at, source.get())
        }
        Plan::If(a, b, c) => {
            uses_whole(at, a.get()) || uses_whole(at, b.get()) || uses_whole(at, c.get())
        }
        Plan::Let(a, b) => uses_whole(at, a.get()) || uses_whole(at.saturating_add(1), b.get()),
        Plan::Prim(_, plans) => uses_whole_all(at, plans.slice()),
        Plan::Join(join) => {
            if uses_whole_outer(at.saturating_add(1), join.get()) {
                return true;
            }
            uses_whole(at, &join.outer)
        }
        Plan::Memo(_, _, part) => uses_whole(at, part.get()),
    }
}

#[cycle(uses_whole)]
fn uses_whole_all(at: u64, plans: &[Plan]) -> bool
    ensures { (n : ℕ) → min n (2 ^ 64 - 1) ≡ at → result ≡ whole_use_trees n (erased_nodes (nodes_view plans.now)) }
{
    for plan in plans {
        if uses_whole(at, plan) {
            return true;
        }
    }
    false
}

#[cycle(uses_whole)]
fn uses_whole_labelled(at: u64, parts: &[(Label, Plan)]) -> bool
    ensures { (n : ℕ) → min n (2 ^ 64 - 1) ≡ at → result ≡ whole_use_parts n (erased_fields (fields_view parts.now)) }
{
    for part in parts {
        if uses_whole(at, &part.1) {
            return true;
        }
    }
    false
}

/// The same of the body of the outer loop of a join.
#[cycle(uses_whole)]
pub fn uses_whole_outer(at: u64, join: &Join) -> bool
    ensures { (n : ℕ) → min n (2 ^ 64 - 1) ≡ at → result ≡ whole_use n (erased (outer_body (join_view join.now))) }
{
    if uses_whole_all(at, join.conds.slice()) {
        return true;
    }
    if uses_whole_key(at, &join.key) {
        return true;
    }
    uses_whole(at.saturating_add(1), &join.body)
}

#[cycle(uses_whole)]
fn uses_whole_key(at: u64, key: &Option<JoinKey>) -> bool
    ensures { (n : ℕ) → min n (2 ^ 64 - 1) ≡ at → result ≡ whole_key n (keys_view key.now) }
{
    match key {
        Some(key) => uses_whole(at, &key.value),
        None => false,
    }
}

fn is_at(at: u64, plan: &Plan) -> bool
    ensures { (n : ℕ) → min n (2 ^ 64 - 1) ≡ at → result ≡ is_at n (variable (erased (view plan.now))) }
{
    match variable(plan) {
        Some(x) => u64::from(x) == at,
        None => false,
    }
}

/// Whether the column with a label is taken of the row at the nearest position.
pub fn column_use(label: &Label, body: &Plan) -> bool
    ensures { result ≡ column_use 0 label.now (erased (view body.now)) }
{
    uses_column(0, label, body)
}

#[cycle(uses_column)]
fn uses_column(at: u64, label: &Label, plan: &Plan) -> bool
    ensures { (n : ℕ) → min n (2 ^ 64 - 1) ≡ at → result ≡ column_use n label.now (erased (view plan.now)) }
{
    match plan {
        Plan::Plain(term) => conditions::uses_column(at, label, term),
        Plan::Var(_) | Plan::Scan(_) => false,
        Plan::Rec(fields) => uses_column_labelled(at, label, fields.slice()),
        Plan::Proj(own, a) => {
            if is_at(at, a.get()) && own == label {
                return true;
            }
            uses_column(at, label, a.get())
        }
        Plan::Inj(_, a) => uses_column(at, label, a.get()),
        Plan::Case(a, branches, other) => {
            if uses_column(at, label, a.get()) {
                return true;
            }
            if uses_column_labelled(at.saturating_add(1), label, branches.slice()) {
                return true;
            }
            match other {
                Some(other) => uses_column(at, label, other.get()),
                None => false,
            }
        }
        Plan::Make(_, plans) => uses_column_all(at, label, plans.slice()),
        Plan::Union(a, b) => uses_column(at, label, a.get()) || uses_column(at, label, b.get()),
        Plan::Ext(_, body, source) => {
            uses_column(at.saturating_add(1), label, body.get())
                || uses_column(at, label, source.get())
        }
        Plan::If(a, b, c) => {
            uses_column(at, label, a.get())
                || uses_column(at, label, b.get())
                || uses_column(at, label, c.get())
        }
        Plan::Let(a, b) => {
            uses_column(at, label, a.get()) || uses_column(at.saturating_add(1), label, b.get())
        }
        Plan::Prim(_, plans) => uses_column_all(at, label, plans.slice()),
        Plan::Join(join) => {
            if uses_column_outer(at.saturating_add(1), label, join.get()) {
                return true;
            }
            uses_column(at, label, &join.outer)
        }
        Plan::Memo(_, _, part) => uses_column(at, label, part.get()),
    }
}

#[cycle(uses_column)]
fn uses_column_all(at: u64, label: &Label, plans: &[Plan]) -> bool
    ensures { (n : ℕ) → min n (2 ^ 64 - 1) ≡ at → result ≡ column_use_trees n label.now (erased_nodes (nodes_view plans.now)) }
{
    for plan in plans {
        if uses_column(at, label, plan) {
            return true;
        }
    }
    false
}

#[cycle(uses_column)]
fn uses_column_labelled(at: u64, label: &Label, parts: &[(Label, Plan)]) -> bool
    ensures { (n : ℕ) → min n (2 ^ 64 - 1) ≡ at → result ≡ column_use_parts n label.now (erased_fields (fields_view parts.now)) }
{
    for part in parts {
        if uses_column(at, label, &part.1) {
            return true;
        }
    }
    false
}

/// The same of the body of the outer loop of a join.
#[cycle(uses_column)]
pub fn uses_column_outer(at: u64, label: &Label, join: &Join) -> bool
    ensures { (n : ℕ) → min n (2 ^ 64 - 1) ≡ at → result ≡ column_use n label.now (erased (outer_body (join_view join.now))) }
{
    if uses_column_all(at, label, join.conds.slice()) {
        return true;
    }
    if uses_column_key(at, label, &join.key) {
        return true;
    }
    uses_column(at.saturating_add(1), label, &join.body)
}

#[cycle(uses_column)]
fn uses_column_key(at: u64, label: &Label, key: &Option<JoinKey>) -> bool
    ensures { (n : ℕ) → min n (2 ^ 64 - 1) ≡ at → result ≡ column_key n label.now (keys_view key.now) }
{
    match key {
        Some(key) => uses_column(at, label, &key.value),
        None => false,
    }
}
