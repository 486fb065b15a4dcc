//! Whether a position stands in a term, under any binders. Takes no memory.
ghost use Rattle.std.specs.Prelude.{◌≡◌, ◌-◌, ◌^◌, ℕ, min};
ghost use Rattle.kl_core.specs.Trees.{view, trees_view, parts_view};
ghost use Rattle.kl_core.specs.Positions.{occurs_in, occurs_trees, occurs_parts};

use kl_base::Label;
use kl_core::Term;

/// Whether the free position `at` stands in the term. It may pass 64 bits, and the count stays at its greatest value: it stands
/// nowhere then.
#[cycle(stands_in)]
pub fn stands_in(term: &Term, at: u64) -> bool
    ensures { (n : ℕ) → min n (2 ^ 64 - 1) ≡ at → result ≡ occurs_in n (view term.now) }
{
    match term {
        Term::Var(x) => u64::from(*x) == at,
        Term::Const(_) | Term::Source(_) => false,
        Term::Rec(fields) => stands_labelled(fields.slice(), at),
        Term::Proj(_, a) => stands_in(a.get(), at),
        Term::Inj(_, a) => stands_in(a.get(), at),
        Term::Case(a, branches, other) => {
            stands_in(a.get(), at)
                || stands_labelled(branches.slice(), at.saturating_add(1))
                || match other {
                    Some(other) => stands_in(other.get(), at),
                    None => false,
                }
        }
        Term::Make(_, terms) => stands_all(terms.slice(), at),
        Term::Union(a, b) => stands_in(a.get(), at) || stands_in(b.get(), at),
        Term::Ext(_, body, source) => {
            stands_in(body.get(), at.saturating_add(1)) || stands_in(source.get(), at)
        }
        Term::If(a, b, c) => {
            stands_in(a.get(), at) || stands_in(b.get(), at) || stands_in(c.get(), at)
        }
        Term::Let(a, b) => { stands_in(a.get(), at) || stands_in(b.get(), at.saturating_add(1)) }
        Term::Prim(_, terms) => stands_all(terms.slice(), at),
    }
}

#[cycle(stands_in)]
fn stands_all(terms: &[Term], at: u64) -> bool
    ensures { (n : ℕ) → min n (2 ^ 64 - 1) ≡ at → result ≡ occurs_trees n (trees_view terms.now) }
{
    for term in terms {
        if stands_in(term, at) {
            return true;
        }
    }
    false
}

#[cycle(stands_in)]
fn stands_labelled(parts: &[(Label, Term)], at: u64) -> bool
    ensures { (n : ℕ) → min n (2 ^ 64 - 1) ≡ at → result ≡ occurs_parts n (parts_view parts.now) }
{
    for part in parts {
        if stands_in(&part.1, at) {
            return true;
        }
    }
    false
}
