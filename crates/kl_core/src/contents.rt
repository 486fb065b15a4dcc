//! What stands in a term. None of it takes memory.
ghost use Rattle.std.specs.Prelude.{◌≡◌, ◌-◌, ◌^◌, ℕ, min};
ghost use Rattle.kl_core.specs.Trees.{view, trees_view, parts_view};
ghost use Rattle.kl_core.specs.Positions.{occurs_in, occurs_trees, occurs_parts};
ghost use Rattle.kl_core.specs.Counts.{total_in, total_trees, total_parts, total_code, fits_in};

use crate::term::Term;
use kl_base::Label;
use kl_prim::row_of;
use kl_value::Kind;

/// Whether the free position `at` stands in the term.
pub fn occurs(t: &Term, at: u32) -> bool
    ensures { result ≡ occurs_in at (view t.now) }
{
    stands(t, u64::from(at))
}

// Under binders the position may pass 32 bits, and the count stays at its greatest value: it stands nowhere then.
#[cycle(stands)]
fn stands(term: &Term, at: u64) -> bool
    ensures { (n : ℕ) → min n (2 ^ 64 - 1) ≡ at → result ≡ occurs_in n (view term.now) }
{
    match term {
        Term::Var(x) => u64::from(*x) == at,
        Term::Const(_) | Term::Source(_) => false,
        Term::Rec(fields) => stands_labelled(fields.slice(), at),
        Term::Proj(_, a) => stands(a.get(), at),
        Term::Inj(_, a) => stands(a.get(), at),
        Term::Case(a, branches, other) => {
            stands(a.get(), at)
                || stands_labelled(branches.slice(), at.saturating_add(1))
                || match other {
                    Some(other) => stands(other.get(), at),
                    None => false,
                }
        }
        Term::Make(_, terms) => stands_all(terms.slice(), at),
        Term::Union(a, b) => stands(a.get(), at) || stands(b.get(), at),
        Term::Ext(_, body, source) => {
            stands(body.get(), at.saturating_add(1)) || stands(source.get(), at)
        }
        Term::If(a, b, c) => { stands(a.get(), at) || stands(b.get(), at) || stands(c.get(), at) }
        Term::Let(a, b) => stands(a.get(), at) || stands(b.get(), at.saturating_add(1)),
        Term::Prim(_, terms) => stands_all(terms.slice(), at),
    }
}

#[cycle(stands)]
fn stands_all(terms: &[Term], at: u64) -> bool
    ensures { (n : ℕ) → min n (2 ^ 64 - 1) ≡ at → result ≡ occurs_trees n (trees_view terms.now) }
{
    for term in terms {
        if stands(term, at) {
            return true;
        }
    }
    false
}

#[cycle(stands)]
fn stands_labelled(parts: &[(Label, Term)], at: u64) -> bool
    ensures { (n : ℕ) → min n (2 ^ 64 - 1) ≡ at → result ≡ occurs_parts n (parts_view parts.now) }
{
    for part in parts {
        if stands(&part.1, at) {
            return true;
        }
    }
    false
}

/// Whether no primitive in the term may overflow.
#[cycle(is_total)]
pub fn is_total(t: &Term) -> bool
    ensures { result ≡ total_in (view t.now) }
{
    match t {
        Term::Var(_) | Term::Const(_) | Term::Source(_) => true,
        Term::Rec(fields) => are_total_labelled(fields.slice()),
        Term::Proj(_, a) => is_total(a.get()),
        Term::Inj(_, a) => is_total(a.get()),
        Term::Case(a, branches, other) => {
            is_total(a.get())
                && are_total_labelled(branches.slice())
                && match other {
                    Some(other) => is_total(other.get()),
                    None => true,
                }
        }
        Term::Make(_, terms) => are_total(terms.slice()),
        Term::Union(a, b) => is_total(a.get()) && is_total(b.get()),
        Term::Ext(_, body, source) => is_total(body.get()) && is_total(source.get()),
        Term::If(a, b, c) => is_total(a.get()) && is_total(b.get()) && is_total(c.get()),
        Term::Let(a, b) => is_total(a.get()) && is_total(b.get()),
        Term::Prim(code, terms) => is_total_code(*code) && are_total(terms.slice()),
    }
}

#[cycle(is_total)]
fn are_total(terms: &[Term]) -> bool
    ensures { result ≡ total_trees (trees_view terms.now) }
{
    for term in terms {
        if !is_total(term) {
            return false;
        }
    }
    true
}

#[cycle(is_total)]
fn are_total_labelled(parts: &[(Label, Term)]) -> bool
    ensures { result ≡ total_parts (parts_view parts.now) }
{
    for part in parts {
        if !is_total(&part.1) {
            return false;
        }
    }
    true
}

/// Whether the primitive of a code answers for all arguments that fit it. A code of none counts as total, since no typed
/// term has one.
pub fn is_total_code(code: u8) -> bool
    ensures { result ≡ total_code code }
{
    match row_of(code) {
        Some(row) => row.total,
        None => true,
    }
}

/// Whether items of a source of the kind `from` may be drawn as they come for a result of the kind `into`, without
/// first making the source's canonical form. A bag takes a set's items so only where repeats are gone already, so the
/// answer is no there.
pub fn fits(from: Kind, into: Kind) -> bool
    ensures { result ≡ fits_in from into }
{
    match into {
        Kind::Set => true,
        Kind::Bag => matches!(from, Kind::Bag | Kind::List),
        Kind::List => matches!(from, Kind::List),
    }
}
