//! The columns in use of a row.
ghost use Rattle.std.specs.Prelude.{◌≡◌, ◌-◌, ◌^◌, ℕ, min, IfOk, OnOk};
ghost use Rattle.kl_outcome.specs.Outcome.{Name};
ghost use Rattle.kl_core.specs.Trees.{view, trees_view, parts_view};
ghost use Rattle.kl_ship.specs.Delegation.{whole_use, column_use, column_use_trees, column_use_parts, left, body_left, in_use};
ghost use Rattle.kl_ship.specs.Marking.{has, Marks};

use crate::conditions::{is_front, is_test, whole_use};
use kl_base::{Label, NoMemory};
use kl_core::Term;
use kl_value::Kind;
use std::alloc::Global;
use std::collections::HashSet;

/// The columns in use of the row at a position in what is left of a body, among all its columns: all where it is used
/// otherwise. Each use is looked at once, however many columns there are.
///
/// # Errors
/// Want of memory.
pub fn in_use(
    alloc: Global,
    select: bool,
    kind: Kind,
    rows: u32,
    body: &Term,
    at: u32,
    all: Vec<Label>,
) -> Result<Vec<Label>, NoMemory>
    ensures { IfOk result (λ used. used.items ≡ in_use at (body_left select kind rows (view body.now)) all.items) }
{
    if is_used_whole(select, kind, rows, body, at) {
        return Ok(all);
    }
    let columns = columns_used(alloc, select, kind, rows, body, at)?;
    let mut used = all;
    used.retain(|label| columns.contains(label));
    Ok(used)
}

fn is_used_whole(select: bool, kind: Kind, rows: u32, body: &Term, at: u32) -> bool
    ensures { result ≡ whole_use at (body_left select kind rows (view body.now)) }
{
    if select {
        return whole_left(kind, rows, body, at);
    }
    whole_use(at, body)
}

fn columns_used(
    alloc: Global,
    select: bool,
    kind: Kind,
    rows: u32,
    body: &Term,
    at: u32,
) -> Result<HashSet<Label>, NoMemory>
    ensures { IfOk result (λ columns. (l : Name) → has columns l ≡ column_use at l (body_left select kind rows (view body.now))) }
{
    let mut columns = HashSet::new(alloc);
    if select {
        mark_left(kind, rows, body, u64::from(at), &mut columns)?;
        return Ok(columns);
    }
    mark(body, u64::from(at), &mut columns)?;
    Ok(columns)
}

fn whole_left(kind: Kind, rows: u32, body: &Term, at: u32) -> bool
    ensures { result ≡ whole_use at (left kind rows (view body.now)) }
{
    if let Term::If(condition, then, other) = body {
        if is_front(kind, condition.get(), other.get()) {
            if is_test(rows, condition.get()) {
                return whole_left(kind, rows, then.get(), at);
            }
            if whole_use(at, condition.get()) {
                return true;
            }
            if whole_left(kind, rows, then.get(), at) {
                return true;
            }
            return whole_use(at, other.get());
        }
    }
    whole_use(at, body)
}

// Adds the columns that are taken in what is left of a body.
fn mark_left(
    kind: Kind,
    rows: u32,
    body: &Term,
    at: u64,
    columns: &mut HashSet<Label>,
) -> Result<(), NoMemory>
    ensures { (n : ℕ) → min n (2 ^ 64 - 1) ≡ at → OnOk result
        (Marks (λ l. column_use n l (left kind rows (view body.now))) columns.old columns.new) }
{
    if let Term::If(condition, then, other) = body {
        if is_front(kind, condition.get(), other.get()) {
            if is_test(rows, condition.get()) {
                return mark_left(kind, rows, then.get(), at, columns);
            }
            mark(condition.get(), at, columns)?;
            mark_left(kind, rows, then.get(), at, columns)?;
            return mark(other.get(), at, columns);
        }
    }
    mark(body, at, columns)
}

// Adds the columns that are taken of the row at a position. Under binders the position may pass 32 bits, and the count
// stays at its greatest value: it stands nowhere then.
#[cycle(mark)]
fn mark(term: &Term, at: u64, columns: &mut HashSet<Label>) -> Result<(), NoMemory>
    ensures { (n : ℕ) → min n (2 ^ 64 - 1) ≡ at → OnOk result (Marks (λ l. column_use n l (view term.now)) columns.old columns.new) }
{
    match term {
        Term::Var(_) | Term::Const(_) | Term::Source(_) => Ok(()),
        Term::Rec(fields) => mark_labelled(fields.slice(), at, columns),
        Term::Proj(label, a) => match a.get() {
            Term::Var(x) => {
                if u64::from(*x) == at {
                    columns.insert(label.dup()?)?;
                }
                Ok(())
            }
            other => mark(other, at, columns),
        },
        Term::Inj(_, a) => mark(a.get(), at, columns),
        Term::Case(a, branches, other) => {
            mark(a.get(), at, columns)?;
            mark_labelled(branches.slice(), at.saturating_add(1), columns)?;
            match other {
                Some(other) => mark(other.get(), at, columns),
                None => Ok(()),
            }
        }
        Term::Make(_, terms) => mark_all(terms.slice(), at, columns),
        Term::Union(a, b) => {
            mark(a.get(), at, columns)?;
            mark(b.get(), at, columns)
        }
        Term::Ext(_, body, source) => {
            mark(body.get(), at.saturating_add(1), columns)?;
            mark(source.get(), at, columns)
        }
        Term::If(a, b, c) => {
            mark(a.get(), at, columns)?;
            mark(b.get(), at, columns)?;
            mark(c.get(), at, columns)
        }
        Term::Let(a, b) => {
            mark(a.get(), at, columns)?;
            mark(b.get(), at.saturating_add(1), columns)
        }
        Term::Prim(_, terms) => mark_all(terms.slice(), at, columns),
    }
}

#[cycle(mark)]
fn mark_all(terms: &[Term], at: u64, columns: &mut HashSet<Label>) -> Result<(), NoMemory>
    ensures { (n : ℕ) → min n (2 ^ 64 - 1) ≡ at → OnOk result
        (Marks (λ l. column_use_trees n l (trees_view terms.now)) columns.old columns.new) }
{
    for term in terms {
        mark(term, at, columns)?;
    }
    Ok(())
}

#[cycle(mark)]
fn mark_labelled(
    parts: &[(Label, Term)],
    at: u64,
    columns: &mut HashSet<Label>,
) -> Result<(), NoMemory>
    ensures { (n : ℕ) → min n (2 ^ 64 - 1) ≡ at → OnOk result
        (Marks (λ l. column_use_parts n l (parts_view parts.now)) columns.old columns.new) }
{
    for part in parts {
        mark(&part.1, at, columns)?;
    }
    Ok(())
}
