//! Records and variants of a known shape: rules 13 and 14.
ghost use Rattle.std.specs.Prelude.{◌≡◌, IfOk, map};
ghost use Rattle.std.specs.Option.{option_map};
ghost use Rattle.kl_core.specs.Trees.{view, view_part, arms_of, rest_of};
ghost use Rattle.kl_core.specs.Positions.{ArmsInRange, shift_arms};
ghost use Rattle.kl_rules.specs.Rules.{KnownField, KnownVariant, branch_of};
ghost use Rattle.kl_rules.specs.Rewriting.{IsShiftable, RewritesBy};

use crate::pieces::bound;
use kl_base::{Box, Label, NoMemory};
use kl_core::{Term, TermBranches, is_total, shift};
use std::alloc::Global;

/// Rule 13: a field of a record whose fields are known, where none of them may overflow.
///
/// # Errors
/// Want of memory.
pub fn rule_13(alloc: Global, term: &Term) -> Result<Option<Term>, NoMemory>
    requires small { IsShiftable (view term.now) }
    ensures { RewritesBy KnownField (view term.now) result }
{
    let Term::Proj(label, record) = term else {
        return Ok(None);
    };
    let Term::Rec(fields) = record.get() else {
        return Ok(None);
    };
    if !is_total(record.get()) {
        return Ok(None);
    }
    match fields.get(label) {
        Some(field) => Ok(Some(field.dup(alloc)?)),
        None => Ok(None),
    }
}

/// Rule 14, the case of a known constructor (Peyton Jones and Santos, Science of Computer Programming 32, 1998): the branch
/// for a variant whose label is known, over what it carries.
///
/// # Errors
/// Want of memory.
pub fn rule_14(alloc: Global, term: &Term) -> Result<Option<Term>, NoMemory>
    requires small { IsShiftable (view term.now) }
    ensures { RewritesBy KnownVariant (view term.now) result }
{
    let Term::Case(subject, branches, other) = term else {
        return Ok(None);
    };
    let Term::Inj(label, s) = subject.get() else {
        return Ok(None);
    };
    match chosen(alloc, label, branches, other)? {
        Some(a) => Ok(Some(bound(alloc, s.get().dup(alloc)?, a)?)),
        None => Ok(None),
    }
}

// The branch of a label, or what stands behind `otherwise`, under the binder that a branch has.
fn chosen(
    alloc: Global,
    label: &Label,
    branches: &TermBranches,
    other: &Option<Box<Term>>,
) -> Result<Option<Term>, NoMemory>
    requires fits { ArmsInRange (shift_arms (rest_of (option_map view other.now)) 0 1) }
    ensures { IfOk result (λ o. option_map view o
        ≡ branch_of label.now (arms_of (map view_part branches.now) (rest_of (option_map view other.now)))) }
{
    match branches.get(label) {
        Some(found) => Ok(Some(found.dup(alloc)?)),
        None => match other {
            Some(other) => Ok(Some(shift(alloc, other.get(), 0, 1)?)),
            None => Ok(None),
        },
    }
}
