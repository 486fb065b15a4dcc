//! The nearest free position. None of it takes memory.
ghost use Rattle.std.specs.Prelude.{◌≡◌, ◌↔◌, ◌-◌, ◌^◌, ℕ, min, true};
ghost use Rattle.std.specs.Option.{option_map};
ghost use Rattle.kl_core.specs.Trees.{view, trees_view, parts_view, rest_of};
ghost use Rattle.kl_rules.specs.Guards.{IsFarther};
ghost use Rattle.kl_rules.specs.Nearness.{IsNearest, least, nearest_in, nearest_trees, nearest_parts, nearest_arms};

use kl_base::{Box, Label};
use kl_core::Term;

/// Whether the nearest variable of the first term is farther out than that of the second. A term without free variables is
/// farther out than every variable.
pub fn is_farther(far: &Term, near: &Term) -> bool
    ensures { (result ≡ true) ↔ IsFarther (view far.now) (view near.now) }
{
    match nearest(near) {
        Some(n) => match nearest(far) {
            Some(m) => n < m,
            None => true,
        },
        None => false,
    }
}

fn nearest(term: &Term) -> Option<u64>
    ensures { IsNearest (view term.now) result }
{
    nearest_from(term, 0)
}

fn first(a: Option<u64>, b: Option<u64>) -> Option<u64>
    ensures { result ≡ least a b }
{
    match a {
        Some(x) => match b {
            Some(y) => Some(x.min(y)),
            None => Some(x),
        },
        None => b,
    }
}

// The nearest at or above `from`, less `from`. Under binders `from` may pass 32 bits, and the count stays at its greatest
// value: no position is there then.
#[cycle(nearest_from)]
fn nearest_from(term: &Term, from: u64) -> Option<u64>
    ensures { (n : ℕ) → min n (2 ^ 64 - 1) ≡ from → result ≡ nearest_in n (view term.now) }
{
    match term {
        Term::Var(x) => {
            let x = u64::from(*x);
            if x < from { None } else { Some(x - from) }
        }
        Term::Const(_) | Term::Source(_) => None,
        Term::Rec(fields) => nearest_labelled(fields.slice(), from),
        Term::Proj(_, a) => nearest_from(a.get(), from),
        Term::Inj(_, a) => nearest_from(a.get(), from),
        Term::Case(a, branches, other) => first(
            nearest_from(a.get(), from),
            first(
                nearest_labelled(branches.slice(), from.saturating_add(1)),
                nearest_other(other, from),
            ),
        ),
        Term::Make(_, terms) => nearest_of(terms.slice(), from),
        Term::Union(a, b) => first(nearest_from(a.get(), from), nearest_from(b.get(), from)),
        Term::Ext(_, body, source) => first(
            nearest_from(body.get(), from.saturating_add(1)),
            nearest_from(source.get(), from),
        ),
        Term::If(a, b, c) => first(
            nearest_from(a.get(), from),
            first(nearest_from(b.get(), from), nearest_from(c.get(), from)),
        ),
        Term::Let(a, b) => first(
            nearest_from(a.get(), from),
            nearest_from(b.get(), from.saturating_add(1)),
        ),
        Term::Prim(_, terms) => nearest_of(terms.slice(), from),
    }
}

#[cycle(nearest_from)]
fn nearest_of(terms: &[Term], from: u64) -> Option<u64>
    ensures { (n : ℕ) → min n (2 ^ 64 - 1) ≡ from → result ≡ nearest_trees n (trees_view terms.now) }
{
    let mut near = None;
    for term in terms {
        near = first(near, nearest_from(term, from));
    }
    near
}

#[cycle(nearest_from)]
fn nearest_labelled(parts: &[(Label, Term)], from: u64) -> Option<u64>
    ensures { (n : ℕ) → min n (2 ^ 64 - 1) ≡ from → result ≡ nearest_parts n (parts_view parts.now) }
{
    let mut near = None;
    for part in parts {
        near = first(near, nearest_from(&part.1, from));
    }
    near
}

#[cycle(nearest_from)]
fn nearest_other(other: &Option<Box<Term>>, from: u64) -> Option<u64>
    ensures { (n : ℕ) → min n (2 ^ 64 - 1) ≡ from → result ≡ nearest_arms n (rest_of (option_map view other.now)) }
{
    match other {
        Some(other) => nearest_from(other.get(), from),
        None => None,
    }
}
