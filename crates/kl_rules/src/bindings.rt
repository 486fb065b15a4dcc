//! What is bound: rules 8, 9, 10 and 12.
ghost use Rattle.kl_core.specs.Trees.{view};
ghost use Rattle.kl_rules.specs.Rules.{DeadLet, CopyPropagation, InlinedOnce, LetOfLet};
ghost use Rattle.kl_rules.specs.Rewriting.{IsShiftable, RewritesBy};

use crate::counting::uses;
use crate::guards::{is_cheap, lowered};
use crate::pieces::bound;
use kl_base::NoMemory;
use kl_core::{Term, is_total, shift, subst};
use std::alloc::Global;

/// Rule 8, the removal of dead code: what is bound and not used is dropped, where it cannot overflow.
///
/// # Errors
/// Want of memory.
pub fn rule_8(alloc: Global, term: &Term) -> Result<Option<Term>, NoMemory>
    requires small { IsShiftable (view term.now) }
    ensures { RewritesBy DeadLet (view term.now) result }
{
    let Term::Let(unused, a) = term else {
        return Ok(None);
    };
    if !is_total(unused.get()) {
        return Ok(None);
    }
    match lowered(alloc, a.get())? {
        Some(a) => Ok(Some(a)),
        None => Ok(None),
    }
}

/// Rule 9, copy propagation: a path, a constant or a source is put in place of what is bound.
///
/// # Errors
/// Want of memory.
pub fn rule_9(alloc: Global, term: &Term) -> Result<Option<Term>, NoMemory>
    requires small { IsShiftable (view term.now) }
    ensures { RewritesBy CopyPropagation (view term.now) result }
{
    let Term::Let(s, a) = term else {
        return Ok(None);
    };
    if !is_cheap(s.get()) {
        return Ok(None);
    }
    Ok(Some(subst(alloc, a.get(), 0, s.get())?))
}

/// Rule 10, inlining of what is used once (Peyton Jones and Marlow, JFP 12(4), 2002): what is bound and cannot overflow is
/// put in its only place, where that is in no body of a loop.
///
/// # Errors
/// Want of memory.
pub fn rule_10(alloc: Global, term: &Term) -> Result<Option<Term>, NoMemory>
    requires small { IsShiftable (view term.now) }
    ensures { RewritesBy InlinedOnce (view term.now) result }
{
    let Term::Let(s, a) = term else {
        return Ok(None);
    };
    if !is_total(s.get()) {
        return Ok(None);
    }
    if uses(a.get(), 0) != 1 {
        return Ok(None);
    }
    Ok(Some(subst(alloc, a.get(), 0, s.get())?))
}

/// Rule 12: what is bound in what is bound is bound before it.
///
/// # Errors
/// Want of memory.
pub fn rule_12(alloc: Global, term: &Term) -> Result<Option<Term>, NoMemory>
    requires small { IsShiftable (view term.now) }
    ensures { RewritesBy LetOfLet (view term.now) result }
{
    let Term::Let(first, a) = term else {
        return Ok(None);
    };
    let Term::Let(s, b) = first.get() else {
        return Ok(None);
    };
    let body = shift(alloc, a.get(), 1, 1)?;
    let inner = bound(alloc, b.get().dup(alloc)?, body)?;
    Ok(Some(bound(alloc, s.get().dup(alloc)?, inner)?))
}
