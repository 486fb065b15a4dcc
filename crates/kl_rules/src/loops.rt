//! Loops: rules 1 to 7. Those that have names are the rules of the comprehension calculus by Wong (JFP 10(1), 2000).
ghost use Rattle.std.specs.Option.{option_copied};
ghost use Rattle.kl_core.specs.Trees.{view};
ghost use Rattle.kl_rules.specs.Rules.{VerticalFusion, HorizontalFusion, FilterPromotion, EmptySource, SingletonSource};
ghost use Rattle.kl_rules.specs.Rules.{ConditionalSource, LetSource};
ghost use Rattle.kl_rules.specs.Rewriting.{IsShiftable, RewritesBy, IsOnlyItem};

use crate::moving::promote;
use crate::pieces::{bound, empty_kind, looped, nothing, tested, united};
use crate::plainness::is_plain;
use crate::sameness::is_same;
use kl_base::NoMemory;
use kl_core::{Term, fits, shift};
use kl_value::Kind;
use std::alloc::Global;

/// Rule 1, vertical fusion: a loop over what a loop gives is a loop in a loop, where its items may be drawn as they come.
///
/// # Errors
/// Want of memory.
pub fn rule_1(alloc: Global, term: &Term) -> Result<Option<Term>, NoMemory>
    requires small { IsShiftable (view term.now) }
    ensures { RewritesBy VerticalFusion (view term.now) result }
{
    let Term::Ext(k, a, outer) = term else {
        return Ok(None);
    };
    let Term::Ext(j, b, s) = outer.get() else {
        return Ok(None);
    };
    if !fits(*j, *k) {
        return Ok(None);
    }
    let body = shift(alloc, a.get(), 1, 1)?;
    let inner = looped(alloc, *k, body, b.get().dup(alloc)?)?;
    Ok(Some(looped(alloc, *k, inner, s.get().dup(alloc)?)?))
}

/// Rule 2, horizontal fusion: two loops over one source are one loop, where no order is kept and the source has one type.
///
/// # Errors
/// Want of memory.
pub fn rule_2(alloc: Global, term: &Term) -> Result<Option<Term>, NoMemory>
    requires small { IsShiftable (view term.now) }
    ensures { RewritesBy HorizontalFusion (view term.now) result }
{
    let Term::Union(first, second) = term else {
        return Ok(None);
    };
    let Term::Ext(k, a, s) = first.get() else {
        return Ok(None);
    };
    let Term::Ext(j, b, r) = second.get() else {
        return Ok(None);
    };
    if *k != *j {
        return Ok(None);
    }
    if matches!(*k, Kind::List) {
        return Ok(None);
    }
    if !is_plain(s.get()) {
        return Ok(None);
    }
    if !is_same(s.get(), r.get()) {
        return Ok(None);
    }
    let body = united(alloc, a.get().dup(alloc)?, b.get().dup(alloc)?)?;
    Ok(Some(looped(alloc, *k, body, s.get().dup(alloc)?)?))
}

/// Rule 3, filter promotion: a condition that does not mention the item is tested before the loop, where neither it nor the
/// source can overflow.
///
/// # Errors
/// Want of memory.
pub fn rule_3(alloc: Global, term: &Term) -> Result<Option<Term>, NoMemory>
    requires small { IsShiftable (view term.now) }
    ensures { RewritesBy FilterPromotion (view term.now) result }
{
    let mut moved = term.dup(alloc)?;
    if promote(alloc, &mut moved, u64::MAX)? {
        return Ok(Some(moved));
    }
    Ok(None)
}

/// Rule 4: a loop over no item gives none.
///
/// # Errors
/// Want of memory.
pub fn rule_4(alloc: Global, term: &Term) -> Result<Option<Term>, NoMemory>
    requires small { IsShiftable (view term.now) }
    ensures { RewritesBy EmptySource (view term.now) result }
{
    let Term::Ext(k, _, s) = term else {
        return Ok(None);
    };
    match empty_kind(s.get()) {
        Some(_) => Ok(Some(nothing(alloc, *k))),
        None => Ok(None),
    }
}

/// Rule 5: a loop over one item is its body over that.
///
/// # Errors
/// Want of memory.
pub fn rule_5(alloc: Global, term: &Term) -> Result<Option<Term>, NoMemory>
    requires small { IsShiftable (view term.now) }
    ensures { RewritesBy SingletonSource (view term.now) result }
{
    let Term::Ext(_, a, source) = term else {
        return Ok(None);
    };
    match only_item(source.get()) {
        Some(s) => Ok(Some(bound(alloc, s.dup(alloc)?, a.get().dup(alloc)?)?)),
        None => Ok(None),
    }
}

// The item of a collection of one.
fn only_item(term: &Term) -> Option<&Term>
    ensures { IsOnlyItem (view term.now) (option_copied result) }
{
    let Term::Make(_, items) = term else {
        return None;
    };
    if items.len() == 1 {
        return Some(&items.slice()[0]);
    }
    None
}

/// Rule 6: a loop over what stands under a condition is under it itself.
///
/// # Errors
/// Want of memory.
pub fn rule_6(alloc: Global, term: &Term) -> Result<Option<Term>, NoMemory>
    requires small { IsShiftable (view term.now) }
    ensures { RewritesBy ConditionalSource (view term.now) result }
{
    let Term::Ext(k, a, source) = term else {
        return Ok(None);
    };
    let Term::If(c, s, e) = source.get() else {
        return Ok(None);
    };
    match empty_kind(e.get()) {
        Some(_) => {
            let inner = looped(alloc, *k, a.get().dup(alloc)?, s.get().dup(alloc)?)?;
            let c = c.get().dup(alloc)?;
            Ok(Some(tested(alloc, c, inner, nothing(alloc, *k))?))
        }
        None => Ok(None),
    }
}

/// Rule 7: a loop over what stands in a `Let` is in it itself.
///
/// # Errors
/// Want of memory.
pub fn rule_7(alloc: Global, term: &Term) -> Result<Option<Term>, NoMemory>
    requires small { IsShiftable (view term.now) }
    ensures { RewritesBy LetSource (view term.now) result }
{
    let Term::Ext(k, a, source) = term else {
        return Ok(None);
    };
    let Term::Let(b, s) = source.get() else {
        return Ok(None);
    };
    let a = shift(alloc, a.get(), 1, 1)?;
    let inner = looped(alloc, *k, a, s.get().dup(alloc)?)?;
    Ok(Some(bound(alloc, b.get().dup(alloc)?, inner)?))
}
