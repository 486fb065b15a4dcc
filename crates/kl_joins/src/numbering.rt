//! The numbers of scans, joins and memos.
ghost use Rattle.std.specs.Prelude.{◌≡◌, ◌+◌, ◌^◌, ◌<◌, length};
ghost use Rattle.kl_plan.specs.Joins.{join_view, keys_view, other_node};
ghost use Rattle.kl_plan.specs.Nodes.{view, nodes_view, fields_view};
ghost use Rattle.kl_plan.specs.Numbers.{scans_in, joins_in, memos_in};
ghost use Rattle.kl_joins.specs.Numbered.{SameScan, SamePlan, AreNumbered};
ghost use Rattle.kl_joins.specs.Numbering.{HasSeveral, HasChoice, HasRoom, in_plan, in_nodes, in_fields, in_branches, in_key};
ghost use Rattle.kl_joins.specs.Numbering.{PlanNumbered, EachNumbered, FieldsNumbered, BranchesNumbered, KeyNumbered};

use kl_base::{Box, Label, Seq};
use kl_plan::{Join, JoinKey, Plan, Plans, Scan};

/// The next number of each.
#[derive(Clone, Copy)]
struct Numbers {
    scans: u32,
    joins: u32,
    memos: u32,
}

/// Numbers the scans, the joins and the memos of a plan, each from 0 on, in the order of a walk that visits a source or an outer
/// part before conditions, key, inner scan and body, and other parts from left to right; a join before the joins in its parts.
pub fn number(plan: &mut Plan)
    requires scans { length (scans_in (view plan.old)) < 2 ^ 32 }
    requires joins { length (joins_in (view plan.old)) < 2 ^ 32 }
    requires memos { length (memos_in (view plan.old)) < 2 ^ 32 }
    ensures same { SamePlan (view plan.old) (view plan.new) }
    ensures numbered { AreNumbered (view plan.new) }
{
    let mut numbers = Numbers {
        scans: 0,
        joins: 0,
        memos: 0,
    };
    number_plan(plan, &mut numbers);
}

// Takes the next number.
fn take(next: &mut u32) -> u32
    requires { next.old + 1 < 2 ^ 32 }
    ensures number { result ≡ next.old }
    ensures next { next.new ≡ next.old + 1 }
{
    let number = *next;
    *next += 1;
    number
}

fn number_scan(scan: &mut Scan, numbers: &mut Numbers)
    requires { numbers.old.scans + 1 < 2 ^ 32 }
    ensures same { SameScan scan.old scan.new }
    ensures number { scan.new.number ≡ numbers.old.scans }
    ensures numbers { numbers.new ≡ record numbers.old { scans = numbers.old.scans + 1 } }
{
    scan.number = take(&mut numbers.scans);
}

#[cycle(numbered)]
fn number_plan(plan: &mut Plan, numbers: &mut Numbers)
    requires { HasRoom numbers.old (in_plan (view plan.old)) }
    ensures { PlanNumbered numbers.old numbers.new (view plan.old) (view plan.new) }
{
    match plan {
        Plan::Plain(_) => {}
        Plan::Var(_) => {}
        Plan::Rec(fields) => number_labelled(fields, numbers),
        Plan::Proj(_, a) => number_boxed(a, numbers),
        Plan::Inj(_, a) => number_boxed(a, numbers),
        Plan::Make(_, plans) => number_all(plans, numbers),
        Plan::Prim(_, plans) => number_all(plans, numbers),
        Plan::Scan(scan) => number_scan(scan, numbers),
        Plan::Join(join) => number_join(join, numbers),
        Plan::Memo(number, _, part) => number_memo(number, part, numbers),
        _ => number_several(plan, numbers),
    }
}

// The plans that have several parts of their own.
#[cycle(numbered)]
fn number_several(plan: &mut Plan, numbers: &mut Numbers)
    requires several { HasSeveral plan.old }
    requires room { HasRoom numbers.old (in_plan (view plan.old)) }
    ensures { PlanNumbered numbers.old numbers.new (view plan.old) (view plan.new) }
{
    match plan {
        Plan::Union(a, b) => {
            number_boxed(a, numbers);
            number_boxed(b, numbers);
        }
        Plan::Ext(_, body, source) => {
            number_boxed(source, numbers);
            number_boxed(body, numbers);
        }
        Plan::Let(a, b) => {
            number_boxed(a, numbers);
            number_boxed(b, numbers);
        }
        _ => number_choice(plan, numbers),
    }
}

// The plans that choose one of their parts.
#[cycle(numbered)]
fn number_choice(plan: &mut Plan, numbers: &mut Numbers)
    requires choice { HasChoice plan.old }
    requires room { HasRoom numbers.old (in_plan (view plan.old)) }
    ensures { PlanNumbered numbers.old numbers.new (view plan.old) (view plan.new) }
{
    match plan {
        Plan::Case(a, branches, other) => {
            number_boxed(a, numbers);
            number_labelled(branches, numbers);
            number_other(other, numbers);
        }
        Plan::If(a, b, c) => {
            number_boxed(a, numbers);
            number_boxed(b, numbers);
            number_boxed(c, numbers);
        }
        _ => unreachable!(),
    }
}

#[cycle(numbered)]
fn number_boxed(plan: &mut Box<Plan>, numbers: &mut Numbers)
    requires { HasRoom numbers.old (in_plan (view plan.old)) }
    ensures { PlanNumbered numbers.old numbers.new (view plan.old) (view plan.new) }
{
    number_plan(plan.get_mut(), numbers)
}

#[cycle(numbered)]
fn number_memo(number: &mut u32, part: &mut Box<Plan>, numbers: &mut Numbers)
    requires { HasRoom (record numbers.old { memos = numbers.old.memos + 1 }) (in_plan (view part.old)) }
    ensures number { number.new ≡ numbers.old.memos }
    ensures part { PlanNumbered (record numbers.old { memos = numbers.old.memos + 1 }) numbers.new (view part.old) (view part.new) }
{
    *number = take(&mut numbers.memos);
    number_boxed(part, numbers);
}

#[cycle(numbered)]
fn number_join(join: &mut Box<Join>, numbers: &mut Numbers)
    requires { HasRoom numbers.old (in_plan (join_view join.old)) }
    ensures { PlanNumbered numbers.old numbers.new (join_view join.old) (join_view join.new) }
{
    let join = join.get_mut();
    let own = take(&mut numbers.joins);
    number_plan(&mut join.outer, numbers);
    number_all(&mut join.conds, numbers);
    number_key(&mut join.key, numbers);
    number_scan(&mut join.inner, numbers);
    number_plan(&mut join.body, numbers);
    join.number = own;
}

#[cycle(numbered)]
fn number_key(key: &mut Option<JoinKey>, numbers: &mut Numbers)
    requires { HasRoom numbers.old (in_key (keys_view key.old)) }
    ensures { KeyNumbered numbers.old numbers.new (keys_view key.old) (keys_view key.new) }
{
    match key {
        Some(key) => number_plan(&mut key.value, numbers),
        None => {}
    }
}

#[cycle(numbered)]
fn number_other(other: &mut Option<Box<Plan>>, numbers: &mut Numbers)
    requires { HasRoom numbers.old (in_branches (other_node other.old)) }
    ensures { BranchesNumbered numbers.old numbers.new (other_node other.old) (other_node other.new) }
{
    match other {
        Some(other) => number_plan(other.get_mut(), numbers),
        None => {}
    }
}

#[cycle(numbered)]
fn number_all(plans: &mut Plans, numbers: &mut Numbers)
    requires { HasRoom numbers.old (in_nodes (nodes_view plans.old)) }
    ensures { EachNumbered numbers.old numbers.new (nodes_view plans.old) (nodes_view plans.new) }
{
    let plans = plans.slice_mut();
    'plans: for i in 0..plans.len() {
        number_plan(&mut plans[i], numbers);
    }
}

#[cycle(numbered)]
fn number_labelled(parts: &mut Seq<(Label, Plan)>, numbers: &mut Numbers)
    requires { HasRoom numbers.old (in_fields (fields_view parts.old)) }
    ensures { FieldsNumbered numbers.old numbers.new (fields_view parts.old) (fields_view parts.new) }
{
    let parts = parts.slice_mut();
    'parts: for i in 0..parts.len() {
        number_plan(&mut parts[i].1, numbers);
    }
}
