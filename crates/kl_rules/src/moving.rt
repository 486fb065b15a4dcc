//! The rules that permute or promote conditions, where a term stands: they move its parts. Only a condition that comes out of a loop
//! is copied, with its positions lowered.
ghost use Rattle.std.specs.Prelude.{◌≡◌, ◌≤◌, IfOk, OnErr};
ghost use Rattle.kl_core.specs.Trees.{view};
ghost use Rattle.kl_core.specs.Counts.{depth_of};
ghost use Rattle.kl_rules.specs.Rules.{FilterPromotion, ConditionOrder};
ghost use Rattle.kl_rules.specs.Rewriting.{IsShiftable};
ghost use Rattle.kl_rules.specs.Moving.{MovesWithin, IsUnordered, exchanged, IsPromoted, promoted};

use crate::conditions::empty_kinds;
use crate::guards::lowered;
use crate::nearness::is_farther;
use crate::pieces::empty_kind;
use kl_base::NoMemory;
use kl_core::{Term, depth, is_total};
use std::alloc::Global;
use std::mem;

/// Rule 3 where the term stands: it becomes what the rule makes of it where that nests within so many levels, which is told by
/// `true`, and stays as it is else.
///
/// # Errors
/// Want of memory. The term stays as it is.
pub fn promote(alloc: Global, term: &mut Term, most: u64) -> Result<bool, NoMemory>
    requires small { IsShiftable (view term.old) }
    requires within { depth_of (view term.old) ≤ most }
    ensures moves { IfOk result (λ b. MovesWithin FilterPromotion most term.old term.new b) }
    ensures kept { OnErr result (term.new ≡ term.old) }
{
    match outside(alloc, term, most)? {
        Some(test) => {
            let whole = mem::replace(term, Term::Var(0));
            put(term, before_loop(whole, test));
            Ok(true)
        }
        None => Ok(false),
    }
}

/// Rule 17 where the term stands: it becomes what the rule makes of it where that nests within so many levels, which is told by
/// `true`, and stays as it is else.
pub fn exchange(term: &mut Term, most: u64) -> bool
    requires within { depth_of (view term.old) ≤ most }
    ensures { MovesWithin ConditionOrder most term.old term.new result }
{
    if !is_unordered(term, most) {
        return false;
    }
    let whole = mem::replace(term, Term::Var(0));
    put(term, second_first(whole));
    true
}

// Whether rule 17 fits, and the first condition may stand one level deeper.
fn is_unordered(term: &Term, most: u64) -> bool
    requires within { depth_of (view term.now) ≤ most }
    ensures { IsUnordered most (view term.now) result }
{
    let Term::If(c, inside, e) = term else {
        return false;
    };
    let Term::If(d, _, f) = inside.get() else {
        return false;
    };
    if empty_kinds(e.get(), f.get()).is_none() {
        return false;
    }
    if !is_farther(d.get(), c.get()) {
        return false;
    }
    if !is_total(c.get()) || !is_total(d.get()) {
        return false;
    }
    depth(c.get()) <= most - 2
}

// The second condition before the first.
fn second_first(whole: Term) -> Term
    ensures { view result ≡ exchanged (view whole) }
{
    match whole {
        Term::If(c, inside, e) => {
            let mut inside = inside;
            match mem::replace(inside.get_mut(), Term::Var(0)) {
                Term::If(d, s, f) => {
                    put(inside.get_mut(), Term::If(c, s, f));
                    Term::If(d, inside, e)
                }
                other => {
                    put(inside.get_mut(), other);
                    Term::If(c, inside, e)
                }
            }
        }
        other => other,
    }
}

// The condition in the body of a loop as it stands outside, where rule 3 fits and the source may stand one level deeper.
fn outside(alloc: Global, term: &Term, most: u64) -> Result<Option<Term>, NoMemory>
    requires small { IsShiftable (view term.now) }
    requires within { depth_of (view term.now) ≤ most }
    ensures { IfOk result (λ o. IsPromoted most (view term.now) o) }
{
    let Term::Ext(_, body, s) = term else {
        return Ok(None);
    };
    let Term::If(c, _, e) = body.get() else {
        return Ok(None);
    };
    if empty_kind(e.get()).is_none() {
        return Ok(None);
    }
    if !is_total(s.get()) {
        return Ok(None);
    }
    if !is_total(c.get()) {
        return Ok(None);
    }
    if depth(s.get()) > most - 2 {
        return Ok(None);
    }
    lowered(alloc, c.get())
}

// The loop inside the condition of its body, which is given as it stands outside.
fn before_loop(whole: Term, test: Term) -> Term
    ensures { view result ≡ promoted (view test) (view whole) }
{
    match whole {
        Term::Ext(k, body, s) => {
            let mut body = body;
            match mem::replace(body.get_mut(), Term::Var(0)) {
                Term::If(c, a, e) => {
                    let mut c = c;
                    put(c.get_mut(), test);
                    put(body.get_mut(), Term::Ext(k, a, s));
                    Term::If(c, body, e)
                }
                other => {
                    put(body.get_mut(), other);
                    Term::Ext(k, body, s)
                }
            }
        }
        other => other,
    }
}

// Puts a term in place of another, which is dropped.
fn put(slot: &mut Term, term: Term)
    ensures { slot.new ≡ term }
{
    drop(mem::replace(slot, term));
}
