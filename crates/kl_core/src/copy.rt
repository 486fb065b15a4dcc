//! Copies of terms.
ghost use Rattle.std.specs.Prelude.{◌≡◌, IfOk};

use crate::building::{
    binding, case, collection, constant, extension, injection, primitive, projection, record, test,
    union,
};
use crate::term::{Term, TermFields, Terms};
use kl_base::{Box, Label, NoMemory, Seq};
use std::alloc::Global;

impl Term {
    /// An equal term. Its labels share the bytes of the first one's.
    ///
    /// # Errors
    /// Want of memory.
    pub fn dup(&self, alloc: Global) -> Result<Term, NoMemory>
        ensures { IfOk result (λ t. t ≡ self.now) }
    {
        copy(alloc, self)
    }
}

/// An equal term.
#[cycle(copy)]
pub fn copy(alloc: Global, term: &Term) -> Result<Term, NoMemory>
    ensures { IfOk result (λ t. t ≡ term.now) }
{
    match term {
        Term::Var(x) => Ok(Term::Var(*x)),
        Term::Const(v) => constant(alloc, v),
        Term::Source(i) => Ok(Term::Source(*i)),
        Term::Rec(fields) => record(copy_fields(alloc, fields.slice())),
        Term::Proj(label, a) => projection(label, copy_box(alloc, a)),
        Term::Inj(label, a) => injection(label, copy_box(alloc, a)),
        Term::Case(a, branches, other) => case(
            copy_box(alloc, a),
            copy_fields(alloc, branches.slice()),
            copy_other(alloc, other),
        ),
        Term::Make(kind, terms) => collection(*kind, copy_all(alloc, terms.slice())),
        Term::Union(a, b) => union(copy_box(alloc, a), copy_box(alloc, b)),
        Term::Ext(kind, body, source) => extension(
            *kind,
            copy_box(alloc, body),
            copy_box(alloc, source),
        ),
        Term::If(a, b, c) => test(copy_box(alloc, a), copy_box(alloc, b), copy_box(alloc, c)),
        Term::Let(a, b) => binding(copy_box(alloc, a), copy_box(alloc, b)),
        Term::Prim(code, terms) => primitive(*code, copy_all(alloc, terms.slice())),
    }
}

#[cycle(copy)]
fn copy_box(alloc: Global, term: &Box<Term>) -> Result<Box<Term>, NoMemory>
    ensures { IfOk result (λ t. t ≡ term.now) }
{
    Box::new(alloc, copy(alloc, term.get())?)
}

#[cycle(copy)]
fn copy_other(alloc: Global, other: &Option<Box<Term>>) -> Result<Option<Box<Term>>, NoMemory>
    ensures { IfOk result (λ o. o ≡ other.now) }
{
    match other {
        Some(other) => {
            let other = copy(alloc, other.get())?;
            Ok(Some(Box::new(alloc, other)?))
        }
        None => Ok(None),
    }
}

#[cycle(copy)]
fn copy_all(alloc: Global, terms: &[Term]) -> Result<Terms, NoMemory>
    ensures { IfOk result (λ copies. copies ≡ terms.now) }
{
    let mut copies = Vec::with_capacity(alloc, terms.len())?;
    for term in terms {
        copies.push(copy(alloc, term)?)?;
    }
    Ok(Seq::of(copies))
}

#[cycle(copy)]
fn copy_fields(alloc: Global, fields: &[(Label, Term)]) -> Result<TermFields, NoMemory>
    ensures { IfOk result (λ copies. copies ≡ fields.now) }
{
    let mut copies = Vec::with_capacity(alloc, fields.len())?;
    for field in fields {
        let label = field.0.dup()?;
        copies.push((label, copy(alloc, &field.1)?))?;
    }
    Ok(Seq::of(copies))
}
