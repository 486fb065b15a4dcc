//! Which parts a loop draws as they come.
ghost use Rattle.std.specs.Prelude.{◌≡◌, map, IfSome, true};
ghost use Rattle.kl_plan.specs.declared.plan.Plan.TheVariants as plans;
ghost use Rattle.kl_plan.specs.Nodes.{branches_of, no_branches, view, view_branch};
ghost use Rattle.kl_plan.specs.Kinds.{first_kind, kind_of_branches, kind_of_items};
ghost use Rattle.kl_cursor.specs.Drawing.{draws};

use kl_base::Label;
use kl_core::fits;
use kl_plan::{Plan, Scan};
use kl_value::Kind;

/// The kind of a plan of a collection, where its form tells it.
#[cycle(kind)]
pub fn kind_of_items(plan: &Plan) -> Option<Kind>
    ensures { result ≡ kind_of_items (view plan.now) }
{
    match plan {
        Plan::Make(kind, _) => Some(*kind),
        Plan::Ext(kind, _, _) => Some(*kind),
        Plan::Scan(scan) => Some(scan.kind),
        Plan::Join(join) => Some(join.get().kind),
        Plan::Union(a, b) => match kind_of_items(a.get()) {
            Some(kind) => Some(kind),
            None => kind_of_items(b.get()),
        },
        Plan::If(_, b, c) => match kind_of_items(b.get()) {
            Some(kind) => Some(kind),
            None => kind_of_items(c.get()),
        },
        Plan::Let(_, body) => kind_of_items(body.get()),
        Plan::Memo(_, _, part) => kind_of_items(part.get()),
        Plan::Case(_, branches, other) => match kind_of_branches(branches.slice()) {
            Some(kind) => Some(kind),
            None => match other {
                Some(other) => kind_of_items(other.get()),
                None => None,
            },
        },
        Plan::Plain(_) | Plan::Var(_) | Plan::Rec(_) => None,
        Plan::Proj(_, _) | Plan::Inj(_, _) | Plan::Prim(_, _) => None,
    }
}

// The kind of the first branch that has one.
#[cycle(kind)]
fn kind_of_branches(branches: &[(Label, Plan)]) -> Option<Kind>
    ensures { result ≡ kind_of_branches (branches_of (map view_branch branches.now) no_branches) }
{
    'branches: for branch in branches {
        match kind_of_items(&branch.1) {
            Some(kind) => return Some(kind),
            None => {}
        }
    }
    None
}

/// Whether a loop of a kind draws the items of a plan as they come. A plan whose form does not tell its kind may be a set.
pub fn draws(into: Kind, plan: &Plan) -> bool
    ensures { result ≡ draws into (view plan.now) }
{
    match kind_of_items(plan) {
        Some(kind) => fits(kind, into),
        None => fits(Kind::Set, into),
    }
}

/// The scan that a loop of a kind draws as it comes, where a plan is one.
pub fn scan_drawn<'p>(into: Kind, plan: &'p Plan) -> Option<&'p Scan>
    ensures { IfSome result (λ c. (plan.now ≡ plans.Scan c.now) × (draws into (view plan.now) ≡ true)) }
{
    match plan {
        Plan::Scan(scan) => {
            if fits(scan.kind, into) {
                Some(scan)
            } else {
                None
            }
        }
        _ => None,
    }
}
