//! Putting a term for a position.
ghost use Rattle.std.specs.Prelude.{◌≡◌, ◌+◌, ◌≤◌, IfOk, All, map};
ghost use Rattle.std.specs.Option.{option_map};
ghost use Rattle.kl_core.specs.Trees.{view, view_part, rest_of};
ghost use Rattle.kl_core.specs.Positions.{shift_of, subst_of, subst_arms};
ghost use Rattle.kl_core.specs.Keeping.{MeansPut, TypedPut, Room};
ghost use Rattle.kl_core.specs.Inside.{RoomIn, RoomUnder, RoomArms};

use crate::building::{
    binding, case, collection, constant, extension, injection, primitive, projection, record, test,
    union,
};
use crate::moving::raise;
use crate::term::{Term, TermBranches, TermFields, Terms};
use kl_base::{Box, Label, NoMemory, Seq};
use std::alloc::Global;

/// Puts `with` for the position `at` and lowers the positions above it. Where `with` has a value, the term that it
/// answers means what `t` means with that value at the position.
///
/// # Errors
/// Want of memory.
pub fn subst(alloc: Global, t: &Term, at: u32, with: &Term) -> Result<Term, NoMemory>
    requires room { Room (view t.now) at (view with.now) }
    ensures replaced { IfOk result (λ u. view u ≡ subst_of (view t.now) at (view with.now)) }
    ensures means { IfOk result (λ u. MeansPut (view t.now) at (view with.now) (view u)) }
    ensures typed { IfOk result (λ u. TypedPut (view t.now) at (view with.now) (view u)) }
{
    put(alloc, t, at, with, 0)
}

// Puts `with`, which stands under so many binders of the whole term here. It is raised only where it is put.
#[cycle(put)]
fn put(alloc: Global, term: &Term, at: u32, with: &Term, under: u32) -> Result<Term, NoMemory>
    requires room { RoomIn (view term.now) at under (view with.now) }
    requires inside { under ≤ at }
    ensures { IfOk result (λ t. view t ≡ subst_of (view term.now) at (shift_of (view with.now) 0 under)) }
{
    match term {
        Term::Var(x) => {
            if *x == at {
                raise(alloc, with, 0, under)
            } else if *x < at {
                Ok(Term::Var(*x))
            } else {
                Ok(Term::Var(*x - 1))
            }
        }
        Term::Const(v) => constant(alloc, v),
        Term::Source(i) => Ok(Term::Source(*i)),
        Term::Rec(fields) => record(put_fields(alloc, fields.slice(), at, with, under)),
        Term::Proj(label, a) => projection(label, put_box(alloc, a, at, with, under)),
        Term::Inj(label, a) => injection(label, put_box(alloc, a, at, with, under)),
        Term::Case(a, branches, other) => case(
            put_box(alloc, a, at, with, under),
            put_branches(alloc, branches.slice(), at, with, under),
            put_other(alloc, other, at, with, under),
        ),
        Term::Make(kind, terms) => {
            collection(*kind, put_all(alloc, terms.slice(), at, with, under))
        }
        Term::Union(a, b) => union(
            put_box(alloc, a, at, with, under),
            put_box(alloc, b, at, with, under),
        ),
        Term::Ext(kind, body, source) => extension(
            *kind,
            put_body(alloc, body, at, with, under),
            put_box(alloc, source, at, with, under),
        ),
        Term::If(a, b, c) => test(
            put_box(alloc, a, at, with, under),
            put_box(alloc, b, at, with, under),
            put_box(alloc, c, at, with, under),
        ),
        Term::Let(a, b) => binding(
            put_box(alloc, a, at, with, under),
            put_body(alloc, b, at, with, under),
        ),
        Term::Prim(code, terms) => {
            primitive(*code, put_all(alloc, terms.slice(), at, with, under))
        }
    }
}

#[cycle(put)]
fn put_box(
    alloc: Global,
    term: &Box<Term>,
    at: u32,
    with: &Term,
    under: u32,
) -> Result<Box<Term>, NoMemory>
    requires room { RoomIn (view term.now) at under (view with.now) }
    requires inside { under ≤ at }
    ensures { IfOk result (λ t. view t ≡ subst_of (view term.now) at (shift_of (view with.now) 0 under)) }
{
    Box::new(alloc, put(alloc, term.get(), at, with, under)?)
}

#[cycle(put)]
fn put_other(
    alloc: Global,
    other: &Option<Box<Term>>,
    at: u32,
    with: &Term,
    under: u32,
) -> Result<Option<Box<Term>>, NoMemory>
    requires room { RoomArms (rest_of (option_map view other.now)) at under (view with.now) }
    requires inside { under ≤ at }
    ensures { IfOk result (λ o. rest_of (option_map view o)
        ≡ subst_arms (rest_of (option_map view other.now)) at (shift_of (view with.now) 0 under)) }
{
    match other {
        Some(other) => {
            let other = put(alloc, other.get(), at, with, under)?;
            Ok(Some(Box::new(alloc, other)?))
        }
        None => Ok(None),
    }
}

#[cycle(put)]
fn put_under(alloc: Global, term: &Term, at: u32, with: &Term, under: u32) -> Result<Term, NoMemory>
    requires room { RoomUnder (view term.now) at under (view with.now) }
    requires inside { under ≤ at }
    ensures { IfOk result (λ t. view t ≡ subst_of (view term.now) (at + 1) (shift_of (shift_of (view with.now) 0 under) 0 1)) }
{
    put(alloc, term, at + 1, with, under + 1)
}

#[cycle(put)]
fn put_body(
    alloc: Global,
    term: &Box<Term>,
    at: u32,
    with: &Term,
    under: u32,
) -> Result<Box<Term>, NoMemory>
    requires room { RoomUnder (view term.now) at under (view with.now) }
    requires inside { under ≤ at }
    ensures { IfOk result (λ t. view t ≡ subst_of (view term.now) (at + 1) (shift_of (shift_of (view with.now) 0 under) 0 1)) }
{
    Box::new(alloc, put_under(alloc, term.get(), at, with, under)?)
}

#[cycle(put)]
fn put_all(
    alloc: Global,
    terms: &[Term],
    at: u32,
    with: &Term,
    under: u32,
) -> Result<Terms, NoMemory>
    requires room { All (λ t. RoomIn (view t) at under (view with.now)) terms.now }
    requires inside { under ≤ at }
    ensures { IfOk result (λ ts. map view ts ≡ map (λ t. subst_of (view t) at (shift_of (view with.now) 0 under)) terms.now) }
{
    let mut made = Vec::with_capacity(alloc, terms.len())?;
    for term in terms {
        made.push(put(alloc, term, at, with, under)?)?;
    }
    Ok(Seq::of(made))
}

#[cycle(put)]
fn put_fields(
    alloc: Global,
    fields: &[(Label, Term)],
    at: u32,
    with: &Term,
    under: u32,
) -> Result<TermFields, NoMemory>
    requires room { All (λ f. RoomIn (view f.1) at under (view with.now)) fields.now }
    requires inside { under ≤ at }
    ensures { IfOk result (λ fs. map view_part fs
        ≡ map (λ f. (f.0, subst_of (view f.1) at (shift_of (view with.now) 0 under))) fields.now) }
{
    let mut made = Vec::with_capacity(alloc, fields.len())?;
    for field in fields {
        let label = field.0.dup()?;
        made.push((label, put(alloc, &field.1, at, with, under)?))?;
    }
    Ok(Seq::of(made))
}

#[cycle(put)]
fn put_branches(
    alloc: Global,
    branches: &[(Label, Term)],
    at: u32,
    with: &Term,
    under: u32,
) -> Result<TermBranches, NoMemory>
    requires room { All (λ b. RoomUnder (view b.1) at under (view with.now)) branches.now }
    requires inside { under ≤ at }
    ensures { IfOk result (λ bs.
        map view_part bs ≡ map (λ b. (b.0, subst_of (view b.1) (at + 1) (shift_of (shift_of (view with.now) 0 under) 0 1))) branches.now) }
{
    let mut made = Vec::with_capacity(alloc, branches.len())?;
    for branch in branches {
        let label = branch.0.dup()?;
        made.push((label, put_under(alloc, &branch.1, at, with, under)?))?;
    }
    Ok(Seq::of(made))
}
