//! Moving the positions of a term.
ghost use Rattle.std.specs.Prelude.{◌≡◌, ◌+◌, IfOk, All, map};
ghost use Rattle.std.specs.Option.{option_map};
ghost use Rattle.kl_core.specs.Trees.{view, view_part, rest_of};
ghost use Rattle.kl_core.specs.Positions.{InRange, ArmsInRange, shift_of, shift_arms};
ghost use Rattle.kl_core.specs.Keeping.{MeansShifted, TypedShifted};

use crate::building::{
    binding, case, collection, constant, extension, injection, primitive, projection, record, test,
    union,
};
use crate::copy::copy;
use crate::term::{Term, TermBranches, TermFields, Terms};
use kl_base::{Box, Label, NoMemory, Seq};
use std::alloc::Global;

/// Raises each free position at or above `from` by `by`. The term that it answers means the same whatever `by` values
/// are put in at `from`.
///
/// # Errors
/// Want of memory.
pub fn shift(alloc: Global, t: &Term, from: u32, by: u32) -> Result<Term, NoMemory>
    requires fits { InRange (shift_of (view t.now) from by) }
    ensures shifted { IfOk result (λ u. view u ≡ shift_of (view t.now) from by) }
    ensures means { IfOk result (λ u. MeansShifted (view t.now) from by (view u)) }
    ensures typed { IfOk result (λ u. TypedShifted (view t.now) from by (view u)) }
{
    raise(alloc, t, from, by)
}

/// Each free position at or above `from` raised by `by`.
#[cycle(raise)]
pub fn raise(alloc: Global, term: &Term, from: u32, by: u32) -> Result<Term, NoMemory>
    requires fits { InRange (shift_of (view term.now) from by) }
    ensures { IfOk result (λ t. view t ≡ shift_of (view term.now) from by) }
{
    match term {
        Term::Var(x) => Ok(Term::Var(if *x < from { *x } else { *x + by })),
        Term::Const(v) => constant(alloc, v),
        Term::Source(i) => Ok(Term::Source(*i)),
        Term::Rec(fields) => record(raise_fields(alloc, fields.slice(), from, by)),
        Term::Proj(label, a) => projection(label, raise_box(alloc, a, from, by)),
        Term::Inj(label, a) => injection(label, raise_box(alloc, a, from, by)),
        Term::Case(a, branches, other) => case(
            raise_box(alloc, a, from, by),
            raise_branches(alloc, branches.slice(), from, by),
            raise_other(alloc, other, from, by),
        ),
        Term::Make(kind, terms) => collection(*kind, raise_all(alloc, terms.slice(), from, by)),
        Term::Union(a, b) => union(raise_box(alloc, a, from, by), raise_box(alloc, b, from, by)),
        Term::Ext(kind, body, source) => extension(
            *kind,
            raise_body(alloc, body, from, by),
            raise_box(alloc, source, from, by),
        ),
        Term::If(a, b, c) => test(
            raise_box(alloc, a, from, by),
            raise_box(alloc, b, from, by),
            raise_box(alloc, c, from, by),
        ),
        Term::Let(a, b) => binding(
            raise_box(alloc, a, from, by),
            raise_body(alloc, b, from, by),
        ),
        Term::Prim(code, terms) => primitive(*code, raise_all(alloc, terms.slice(), from, by)),
    }
}

#[cycle(raise)]
fn raise_box(alloc: Global, term: &Box<Term>, from: u32, by: u32) -> Result<Box<Term>, NoMemory>
    requires fits { InRange (shift_of (view term.now) from by) }
    ensures { IfOk result (λ t. view t ≡ shift_of (view term.now) from by) }
{
    Box::new(alloc, raise(alloc, term.get(), from, by)?)
}

#[cycle(raise)]
fn raise_other(
    alloc: Global,
    other: &Option<Box<Term>>,
    from: u32,
    by: u32,
) -> Result<Option<Box<Term>>, NoMemory>
    requires fits { ArmsInRange (shift_arms (rest_of (option_map view other.now)) from by) }
    ensures { IfOk result (λ o. rest_of (option_map view o) ≡ shift_arms (rest_of (option_map view other.now)) from by) }
{
    match other {
        Some(other) => {
            let other = raise(alloc, other.get(), from, by)?;
            Ok(Some(Box::new(alloc, other)?))
        }
        None => Ok(None),
    }
}

// Under one more binder. Where that is past the greatest position, no position is raised.
#[cycle(raise)]
fn raise_under(alloc: Global, term: &Term, from: u32, by: u32) -> Result<Term, NoMemory>
    requires fits { InRange (shift_of (view term.now) (from + 1) by) }
    ensures { IfOk result (λ t. view t ≡ shift_of (view term.now) (from + 1) by) }
{
    match from.checked_add(1) {
        Some(from) => raise(alloc, term, from, by),
        None => copy(alloc, term),
    }
}

#[cycle(raise)]
fn raise_body(alloc: Global, term: &Box<Term>, from: u32, by: u32) -> Result<Box<Term>, NoMemory>
    requires fits { InRange (shift_of (view term.now) (from + 1) by) }
    ensures { IfOk result (λ t. view t ≡ shift_of (view term.now) (from + 1) by) }
{
    Box::new(alloc, raise_under(alloc, term.get(), from, by)?)
}

#[cycle(raise)]
fn raise_all(alloc: Global, terms: &[Term], from: u32, by: u32) -> Result<Terms, NoMemory>
    requires fits { All (λ t. InRange (shift_of (view t) from by)) terms.now }
    ensures { IfOk result (λ ts. map view ts ≡ map (λ t. shift_of (view t) from by) terms.now) }
{
    let mut raised = Vec::with_capacity(alloc, terms.len())?;
    for term in terms {
        raised.push(raise(alloc, term, from, by)?)?;
    }
    Ok(Seq::of(raised))
}

#[cycle(raise)]
fn raise_fields(
    alloc: Global,
    fields: &[(Label, Term)],
    from: u32,
    by: u32,
) -> Result<TermFields, NoMemory>
    requires fits { All (λ f. InRange (shift_of (view f.1) from by)) fields.now }
    ensures { IfOk result (λ fs. map view_part fs ≡ map (λ f. (f.0, shift_of (view f.1) from by)) fields.now) }
{
    let mut raised = Vec::with_capacity(alloc, fields.len())?;
    for field in fields {
        let label = field.0.dup()?;
        raised.push((label, raise(alloc, &field.1, from, by)?))?;
    }
    Ok(Seq::of(raised))
}

#[cycle(raise)]
fn raise_branches(
    alloc: Global,
    branches: &[(Label, Term)],
    from: u32,
    by: u32,
) -> Result<TermBranches, NoMemory>
    requires fits { All (λ b. InRange (shift_of (view b.1) (from + 1) by)) branches.now }
    ensures { IfOk result (λ bs. map view_part bs ≡ map (λ b. (b.0, shift_of (view b.1) (from + 1) by)) branches.now) }
{
    let mut raised = Vec::with_capacity(alloc, branches.len())?;
    for branch in branches {
        let label = branch.0.dup()?;
        raised.push((label, raise_under(alloc, &branch.1, from, by)?))?;
    }
    Ok(Seq::of(raised))
}
