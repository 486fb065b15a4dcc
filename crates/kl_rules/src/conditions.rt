//! Conditions: rules 15 to 17.
ghost use Rattle.kl_core.specs.Trees.{view};
ghost use Rattle.kl_rules.specs.Rules.{KnownCondition, NestedCondition, ConditionOrder};
ghost use Rattle.kl_rules.specs.Rewriting.{IsShiftable, RewritesBy, AreEmptyCollections};

use crate::moving::exchange;
use crate::pieces::{empty_kind, nothing, tested};
use kl_base::NoMemory;
use kl_core::Term;
use kl_value::{Kind, Value};
use std::alloc::Global;

/// Rule 15, the folding of constants: a condition that is known.
///
/// # Errors
/// Want of memory.
pub fn rule_15(alloc: Global, term: &Term) -> Result<Option<Term>, NoMemory>
    requires small { IsShiftable (view term.now) }
    ensures { RewritesBy KnownCondition (view term.now) result }
{
    let Term::If(c, p, q) = term else {
        return Ok(None);
    };
    match c.get() {
        Term::Const(Value::Bool(true)) => Ok(Some(p.get().dup(alloc)?)),
        Term::Const(Value::Bool(false)) => Ok(Some(q.get().dup(alloc)?)),
        _ => Ok(None),
    }
}

/// Rule 16: a condition of two is one after the other.
///
/// # Errors
/// Want of memory.
pub fn rule_16(alloc: Global, term: &Term) -> Result<Option<Term>, NoMemory>
    requires small { IsShiftable (view term.now) }
    ensures { RewritesBy NestedCondition (view term.now) result }
{
    let Term::If(test, c, e) = term else {
        return Ok(None);
    };
    let Term::If(a, b, no) = test.get() else {
        return Ok(None);
    };
    let Term::Const(Value::Bool(false)) = no.get() else {
        return Ok(None);
    };
    match empty_kind(e.get()) {
        Some(k) => {
            let inner = tested(
                alloc,
                b.get().dup(alloc)?,
                c.get().dup(alloc)?,
                nothing(alloc, k),
            )?;
            Ok(Some(tested(alloc, a.get().dup(alloc)?, inner, nothing(alloc, k))?))
        }
        None => Ok(None),
    }
}

/// Rule 17: of two conditions that cannot overflow the one whose nearest variable is farther out is tested first, so that it
/// can be promoted farther.
///
/// # Errors
/// Want of memory.
pub fn rule_17(alloc: Global, term: &Term) -> Result<Option<Term>, NoMemory>
    requires small { IsShiftable (view term.now) }
    ensures { RewritesBy ConditionOrder (view term.now) result }
{
    let mut moved = term.dup(alloc)?;
    if exchange(&mut moved, u64::MAX) {
        return Ok(Some(moved));
    }
    Ok(None)
}

/// The kind of two empty collections of one kind.
pub fn empty_kinds(first: &Term, second: &Term) -> Option<Kind>
    ensures { AreEmptyCollections (view first.now) (view second.now) result }
{
    match empty_kind(first) {
        Some(k) => match empty_kind(second) {
            Some(j) => { if k == j { Some(k) } else { None } }
            None => None,
        },
        None => None,
    }
}
