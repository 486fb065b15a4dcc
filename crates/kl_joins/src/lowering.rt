//! Free positions lowered in place. None of it takes memory.
ghost use Rattle.std.specs.Prelude.{◌≡◌, ◌+◌, ◌-◌, ◌^◌, ℕ, min};
ghost use Rattle.std.specs.Option.{option_map};
ghost use Rattle.kl_core.specs.Trees.{view as term_view, rest_of, trees_view, parts_view};
ghost use Rattle.kl_plan.specs.Joins.{other_node};
ghost use Rattle.kl_plan.specs.Nodes.{view, nodes_view, fields_view};
ghost use Rattle.kl_joins.specs.Lowering.{lowered_at, lowered_tree, lowered_trees, lowered_parts, lowered_arms};
ghost use Rattle.kl_joins.specs.Lowering.{lowered, lowered_nodes, lowered_fields, lowered_branches};

use kl_base::{Box, Label, Seq};
use kl_core::{Term, Terms};
use kl_plan::{Plan, Plans};

/// Lowers each free position above `at` by one. Joins and memos stay as they are.
// Under binders the position may pass 64 bits, and the count stays at its greatest value: no position is above it then.
#[cycle(lower)]
pub fn lower(at: u64, plan: &mut Plan)
    ensures { (n : ℕ) → min n (2 ^ 64 - 1) ≡ at → view plan.new ≡ lowered n (view plan.old) }
{
    match plan {
        Plan::Plain(term) => lower_term(at, term),
        Plan::Var(x) => lower_position(at, x),
        Plan::Scan(_) | Plan::Join(_) | Plan::Memo(_, _, _) => {}
        Plan::Rec(fields) => lower_labelled(at, fields),
        Plan::Proj(_, a) => lower_box(at, a),
        Plan::Inj(_, a) => lower_box(at, a),
        Plan::Case(a, branches, other) => {
            lower_box(at, a);
            lower_labelled(at.saturating_add(1), branches);
            lower_other(at, other);
        }
        Plan::Make(_, plans) => lower_all(at, plans),
        Plan::Union(a, b) => {
            lower_box(at, a);
            lower_box(at, b);
        }
        Plan::Ext(_, body, source) => {
            lower_under(at, body);
            lower_box(at, source);
        }
        Plan::If(a, b, c) => {
            lower_box(at, a);
            lower_box(at, b);
            lower_box(at, c);
        }
        Plan::Let(a, b) => {
            lower_box(at, a);
            lower_under(at, b);
        }
        Plan::Prim(_, plans) => lower_all(at, plans),
    }
}

fn lower_position(at: u64, x: &mut u32)
    ensures { (n : ℕ) → min n (2 ^ 64 - 1) ≡ at → x.new ≡ lowered_at n x.old }
{
    if u64::from(*x) > at {
        *x -= 1;
    }
}

#[cycle(lower)]
fn lower_box(at: u64, part: &mut Box<Plan>)
    ensures { (n : ℕ) → min n (2 ^ 64 - 1) ≡ at → view part.new ≡ lowered n (view part.old) }
{
    lower(at, part.get_mut());
}

// Under one more binder.
#[cycle(lower)]
fn lower_under(at: u64, part: &mut Box<Plan>)
    ensures { (n : ℕ) → min n (2 ^ 64 - 1) ≡ at → view part.new ≡ lowered (n + 1) (view part.old) }
{
    lower(at.saturating_add(1), part.get_mut());
}

#[cycle(lower)]
fn lower_other(at: u64, other: &mut Option<Box<Plan>>)
    ensures { (n : ℕ) → min n (2 ^ 64 - 1) ≡ at → other_node other.new ≡ lowered_branches n (other_node other.old) }
{
    match other {
        Some(other) => lower(at, other.get_mut()),
        None => {}
    }
}

#[cycle(lower)]
fn lower_all(at: u64, plans: &mut Plans)
    ensures { (n : ℕ) → min n (2 ^ 64 - 1) ≡ at → nodes_view plans.new ≡ lowered_nodes n (nodes_view plans.old) }
{
    let plans = plans.slice_mut();
    'plans: for i in 0..plans.len() {
        lower(at, &mut plans[i]);
    }
}

#[cycle(lower)]
fn lower_labelled(at: u64, parts: &mut Seq<(Label, Plan)>)
    ensures { (n : ℕ) → min n (2 ^ 64 - 1) ≡ at → fields_view parts.new ≡ lowered_fields n (fields_view parts.old) }
{
    let parts = parts.slice_mut();
    'parts: for i in 0..parts.len() {
        lower(at, &mut parts[i].1);
    }
}

/// The same in a term.
#[cycle(lower_term)]
pub fn lower_term(at: u64, term: &mut Term)
    ensures { (n : ℕ) → min n (2 ^ 64 - 1) ≡ at → term_view term.new ≡ lowered_tree n (term_view term.old) }
{
    match term {
        Term::Var(x) => lower_position(at, x),
        Term::Const(_) | Term::Source(_) => {}
        Term::Rec(fields) => lower_parts(at, fields),
        Term::Proj(_, a) => lower_term_box(at, a),
        Term::Inj(_, a) => lower_term_box(at, a),
        Term::Case(a, branches, other) => {
            lower_term_box(at, a);
            lower_parts(at.saturating_add(1), branches);
            lower_last(at, other);
        }
        Term::Make(_, terms) => lower_terms(at, terms),
        Term::Union(a, b) => {
            lower_term_box(at, a);
            lower_term_box(at, b);
        }
        Term::Ext(_, body, source) => {
            lower_term_under(at, body);
            lower_term_box(at, source);
        }
        Term::If(a, b, c) => {
            lower_term_box(at, a);
            lower_term_box(at, b);
            lower_term_box(at, c);
        }
        Term::Let(a, b) => {
            lower_term_box(at, a);
            lower_term_under(at, b);
        }
        Term::Prim(_, terms) => lower_terms(at, terms),
    }
}

#[cycle(lower_term)]
fn lower_term_box(at: u64, part: &mut Box<Term>)
    ensures { (n : ℕ) → min n (2 ^ 64 - 1) ≡ at → term_view part.new ≡ lowered_tree n (term_view part.old) }
{
    lower_term(at, part.get_mut());
}

// Under one more binder.
#[cycle(lower_term)]
fn lower_term_under(at: u64, part: &mut Box<Term>)
    ensures { (n : ℕ) → min n (2 ^ 64 - 1) ≡ at → term_view part.new ≡ lowered_tree (n + 1) (term_view part.old) }
{
    lower_term(at.saturating_add(1), part.get_mut());
}

#[cycle(lower_term)]
fn lower_last(at: u64, other: &mut Option<Box<Term>>)
    ensures { (n : ℕ) → min n (2 ^ 64 - 1) ≡ at
        → rest_of (option_map term_view other.new) ≡ lowered_arms n (rest_of (option_map term_view other.old)) }
{
    match other {
        Some(other) => lower_term(at, other.get_mut()),
        None => {}
    }
}

#[cycle(lower_term)]
fn lower_terms(at: u64, terms: &mut Terms)
    ensures { (n : ℕ) → min n (2 ^ 64 - 1) ≡ at → trees_view terms.new ≡ lowered_trees n (trees_view terms.old) }
{
    let terms = terms.slice_mut();
    'terms: for i in 0..terms.len() {
        lower_term(at, &mut terms[i]);
    }
}

#[cycle(lower_term)]
fn lower_parts(at: u64, parts: &mut Seq<(Label, Term)>)
    ensures { (n : ℕ) → min n (2 ^ 64 - 1) ≡ at → parts_view parts.new ≡ lowered_parts n (parts_view parts.old) }
{
    let parts = parts.slice_mut();
    'parts: for i in 0..parts.len() {
        lower_term(at, &mut parts[i].1);
    }
}
