//! How often a position is used. None of it takes memory.
ghost use Rattle.std.specs.Prelude.{◌≡◌, ◌+◌, ◌-◌, ◌^◌, ℕ, min};
ghost use Rattle.kl_core.specs.Trees.{view, trees_view, parts_view, rest_of};
ghost use Rattle.std.specs.Option.{option_map};
ghost use Rattle.kl_rules.specs.Guards.{uses_in, uses_trees, uses_parts, uses_arms};

use kl_base::{Box, Label};
use kl_core::Term;

/// How often the position is used, as far as two. A use in the body of a loop counts twice.
pub fn uses(term: &Term, at: u32) -> u8
    ensures { result ≡ min (uses_in at (view term.now)) 2 }
{
    uses_at(term, u64::from(at))
}

fn sum(a: u8, b: u8) -> u8
    ensures { result ≡ min (a + b) 2 }
{
    a.saturating_add(b).min(2)
}

// Under binders the position may pass 32 bits, and the count stays at its greatest value: it stands nowhere then.
#[cycle(uses_at)]
fn uses_at(term: &Term, at: u64) -> u8
    ensures { (n : ℕ) → min n (2 ^ 64 - 1) ≡ at → result ≡ min (uses_in n (view term.now)) 2 }
{
    match term {
        Term::Var(x) => { if u64::from(*x) == at { 1 } else { 0 } }
        Term::Const(_) | Term::Source(_) => 0,
        Term::Rec(fields) => uses_labelled(fields.slice(), at),
        Term::Proj(_, a) => uses_at(a.get(), at),
        Term::Inj(_, a) => uses_at(a.get(), at),
        Term::Case(a, branches, other) => sum(
            uses_at(a.get(), at),
            sum(
                uses_labelled(branches.slice(), at.saturating_add(1)),
                uses_other(other, at),
            ),
        ),
        Term::Make(_, terms) => uses_all(terms.slice(), at),
        Term::Union(a, b) => sum(uses_at(a.get(), at), uses_at(b.get(), at)),
        Term::Ext(_, body, source) => {
            let inside = uses_at(body.get(), at.saturating_add(1));
            sum(sum(inside, inside), uses_at(source.get(), at))
        }
        Term::If(a, b, c) => sum(
            uses_at(a.get(), at),
            sum(uses_at(b.get(), at), uses_at(c.get(), at)),
        ),
        Term::Let(a, b) => sum(uses_at(a.get(), at), uses_at(b.get(), at.saturating_add(1))),
        Term::Prim(_, terms) => uses_all(terms.slice(), at),
    }
}

#[cycle(uses_at)]
fn uses_all(terms: &[Term], at: u64) -> u8
    ensures { (n : ℕ) → min n (2 ^ 64 - 1) ≡ at → result ≡ min (uses_trees n (trees_view terms.now)) 2 }
{
    let mut count = 0;
    for term in terms {
        count = sum(count, uses_at(term, at));
    }
    count
}

#[cycle(uses_at)]
fn uses_labelled(parts: &[(Label, Term)], at: u64) -> u8
    ensures { (n : ℕ) → min n (2 ^ 64 - 1) ≡ at → result ≡ min (uses_parts n (parts_view parts.now)) 2 }
{
    let mut count = 0;
    for part in parts {
        count = sum(count, uses_at(&part.1, at));
    }
    count
}

#[cycle(uses_at)]
fn uses_other(other: &Option<Box<Term>>, at: u64) -> u8
    ensures { (n : ℕ) → min n (2 ^ 64 - 1) ≡ at → result ≡ min (uses_arms n (rest_of (option_map view other.now))) 2 }
{
    match other {
        Some(other) => uses_at(other.get(), at),
        None => 0,
    }
}
