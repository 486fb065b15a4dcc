//! A body over the rows of several tables, as one over the row that a statement shows of them.
ghost use Rattle.std.specs.Prelude.{◌≡◌, ◌-◌, ◌<◌, ◌^◌, ℕ, IfOk, min, map, length};
ghost use Rattle.std.specs.Option.{option_map};
ghost use Rattle.kl_core.specs.Trees.{Var, Rec, Proj, view, view_part, rest_of};
ghost use Rattle.kl_ship.specs.Delegation.{left, body_left};
ghost use Rattle.kl_ship.specs.Joined.{label_in, row_parts};
ghost use Rattle.kl_ship.specs.Packed.{columns_listed, over_rows, arms_over_rows, variable_over_rows, column_over_rows};

use crate::conditions::{is_front, is_test, variable};
use kl_base::{Box, Label, NoMemory, Seq};
use kl_core::building::{
    binding, case, collection, constant, extension, injection, primitive, projection, record, test,
    union,
};
use kl_core::{Term, TermFields, Terms};
use kl_value::Kind;
use std::alloc::Global;

/// The rows of a statement: the columns of its tables as they are shown, and all columns of each table.
#[derive(Drop)]
pub struct Shown {
    pub columns: Vec<(u32, Label, Label)>,
    pub all: Vec<Seq<Label>>,
}

fn label_in<'a>(columns: &'a [(u32, Label, Label)], table: usize, label: &'a Label) -> &'a Label
    ensures { result.now ≡ label_in columns.now table label.now }
{
    for column in columns {
        if column.0 as usize == table && column.1 == *label {
            return &column.2;
        }
    }
    label
}

// A column of a table, of the row at a position.
fn shown_column(
    alloc: Global,
    columns: &[(u32, Label, Label)],
    table: usize,
    label: &Label,
    at: u32,
) -> Result<Term, NoMemory>
    ensures { IfOk result (λ t. view t ≡ Proj (label_in columns.now table label.now) (Var at)) }
{
    projection(
        label_in(columns, table, label),
        Box::new(alloc, Term::Var(at)),
    )
}

fn row_fields(
    alloc: Global,
    columns: &[(u32, Label, Label)],
    table: usize,
    labels: &[Label],
    at: u32,
) -> Result<TermFields, NoMemory>
    ensures { IfOk result (λ fs. map view_part fs ≡ map (λ l. (l, Proj (label_in columns.now table l) (Var at))) labels.now) }
{
    let mut fields = Vec::with_capacity(alloc, labels.len())?;
    for label in labels {
        let own = label.dup()?;
        fields.push((own, shown_column(alloc, columns, table, label, at)?))?;
    }
    Ok(Seq::of(fields))
}

// The whole row of a table.
fn whole_row(alloc: Global, shown: &Shown, table: usize, at: u32) -> Result<Term, NoMemory>
    requires there { table < length shown.now.all.items }
    ensures { IfOk result (λ t. view t
        ≡ Rec (row_parts (label_in shown.now.columns.items table) at (columns_listed shown.now.all.items table))) }
{
    let labels = shown.all[table].slice();
    record(row_fields(alloc, &shown.columns, table, labels, at))
}

fn packed_variable(alloc: Global, x: u32, shown: &Shown, at: u64) -> Result<Term, NoMemory>
    requires some { 0 < length shown.now.all.items }
    ensures { IfOk result (λ t. view t ≡ variable_over_rows shown.now.columns.items shown.now.all.items at x) }
{
    let position = u64::from(x);
    if position < at {
        return Ok(Term::Var(x));
    }
    let last = shown.all.len() - 1;
    let row = (position - at) as usize;
    if row <= last {
        whole_row(alloc, shown, last - row, at as u32)
    } else {
        Ok(Term::Var((position - last as u64) as u32))
    }
}

fn packed_column(
    alloc: Global,
    label: &Label,
    x: u32,
    shown: &Shown,
    at: u64,
) -> Result<Term, NoMemory>
    requires some { 0 < length shown.now.all.items }
    ensures { IfOk result (λ t. view t ≡ column_over_rows shown.now.columns.items shown.now.all.items at label.now x) }
{
    let position = u64::from(x);
    let last = shown.all.len() - 1;
    if at <= position && (position - at) as usize <= last {
        let table = last - (position - at) as usize;
        shown_column(alloc, &shown.columns, table, label, at as u32)
    } else {
        let whole = packed_variable(alloc, x, shown, at)?;
        projection(label, Box::new(alloc, whole))
    }
}

// The body over the shown row, which stands at the position `at`. Under binders the position may pass 32 bits, and the count stays at
// its greatest value: no row stands there then.
#[cycle(packed)]
fn packed(alloc: Global, term: &Term, shown: &Shown, at: u64) -> Result<Term, NoMemory>
    requires some { 0 < length shown.now.all.items }
    ensures { (n : ℕ) → min n (2 ^ 64 - 1) ≡ at
        → IfOk result (λ t. view t ≡ over_rows shown.now.columns.items shown.now.all.items n (view term.now)) }
{
    match term {
        Term::Var(x) => packed_variable(alloc, *x, shown, at),
        Term::Const(v) => constant(alloc, v),
        Term::Source(i) => Ok(Term::Source(*i)),
        Term::Rec(fields) => record(packed_labelled(alloc, fields.slice(), shown, at)),
        Term::Proj(label, a) => match variable(a.get()) {
            Some(x) => packed_column(alloc, label, x, shown, at),
            None => projection(label, packed_box(alloc, a, shown, at)),
        },
        Term::Inj(label, a) => injection(label, packed_box(alloc, a, shown, at)),
        Term::Case(a, branches, other) => case(
            packed_box(alloc, a, shown, at),
            packed_labelled(alloc, branches.slice(), shown, at.saturating_add(1)),
            packed_other(alloc, other, shown, at),
        ),
        Term::Make(kind, terms) => collection(*kind, packed_all(alloc, terms.slice(), shown, at)),
        Term::Union(a, b) => union(
            packed_box(alloc, a, shown, at),
            packed_box(alloc, b, shown, at),
        ),
        Term::Ext(kind, body, source) => extension(
            *kind,
            packed_box(alloc, body, shown, at.saturating_add(1)),
            packed_box(alloc, source, shown, at),
        ),
        Term::If(a, b, c) => test(
            packed_box(alloc, a, shown, at),
            packed_box(alloc, b, shown, at),
            packed_box(alloc, c, shown, at),
        ),
        Term::Let(a, b) => binding(
            packed_box(alloc, a, shown, at),
            packed_box(alloc, b, shown, at.saturating_add(1)),
        ),
        Term::Prim(code, terms) => primitive(*code, packed_all(alloc, terms.slice(), shown, at)),
    }
}

#[cycle(packed)]
fn packed_box(
    alloc: Global,
    term: &Box<Term>,
    shown: &Shown,
    at: u64,
) -> Result<Box<Term>, NoMemory>
    requires some { 0 < length shown.now.all.items }
    ensures { (n : ℕ) → min n (2 ^ 64 - 1) ≡ at
        → IfOk result (λ t. view t ≡ over_rows shown.now.columns.items shown.now.all.items n (view term.now)) }
{
    Box::new(alloc, packed(alloc, term.get(), shown, at)?)
}

#[cycle(packed)]
fn packed_other(
    alloc: Global,
    other: &Option<Box<Term>>,
    shown: &Shown,
    at: u64,
) -> Result<Option<Box<Term>>, NoMemory>
    requires some { 0 < length shown.now.all.items }
    ensures { (n : ℕ) → min n (2 ^ 64 - 1) ≡ at → IfOk result (λ o. rest_of (option_map view o)
        ≡ arms_over_rows shown.now.columns.items shown.now.all.items n (rest_of (option_map view other.now))) }
{
    match other {
        Some(other) => {
            let other = packed(alloc, other.get(), shown, at)?;
            Ok(Some(Box::new(alloc, other)?))
        }
        None => Ok(None),
    }
}

#[cycle(packed)]
fn packed_all(alloc: Global, terms: &[Term], shown: &Shown, at: u64) -> Result<Terms, NoMemory>
    requires some { 0 < length shown.now.all.items }
    ensures { (n : ℕ) → min n (2 ^ 64 - 1) ≡ at → IfOk result (λ ts. map view ts
        ≡ map (λ t. over_rows shown.now.columns.items shown.now.all.items n (view t)) terms.now) }
{
    let mut made = Vec::with_capacity(alloc, terms.len())?;
    for term in terms {
        made.push(packed(alloc, term, shown, at)?)?;
    }
    Ok(Seq::of(made))
}

#[cycle(packed)]
fn packed_labelled(
    alloc: Global,
    parts: &[(Label, Term)],
    shown: &Shown,
    at: u64,
) -> Result<Seq<(Label, Term)>, NoMemory>
    requires some { 0 < length shown.now.all.items }
    ensures { (n : ℕ) → min n (2 ^ 64 - 1) ≡ at → IfOk result (λ ps. map view_part ps
        ≡ map (λ p. (p.0, over_rows shown.now.columns.items shown.now.all.items n (view p.1))) parts.now) }
{
    let mut made = Vec::with_capacity(alloc, parts.len())?;
    for part in parts {
        let label = part.0.dup()?;
        made.push((label, packed(alloc, &part.1, shown, at)?))?;
    }
    Ok(Seq::of(made))
}

// A body over the shown row, which stands at position 0.
fn packed_body(alloc: Global, body: &Term, shown: &Shown) -> Result<Term, NoMemory>
    requires some { 0 < length shown.now.all.items }
    ensures { IfOk result (λ t. view t ≡ over_rows shown.now.columns.items shown.now.all.items 0 (view body.now)) }
{
    packed(alloc, body, shown, 0)
}

// The body without the tests of its front, over the shown row.
#[cycle(left)]
fn left(alloc: Global, kind: Kind, rows: u32, body: &Term, shown: &Shown) -> Result<Term, NoMemory>
    requires some { 0 < length shown.now.all.items }
    ensures { IfOk result (λ t. view t ≡ over_rows shown.now.columns.items shown.now.all.items 0 (left kind rows (view body.now))) }
{
    match body {
        Term::If(condition, yes, no) => {
            if !is_front(kind, condition.get(), no.get()) {
                return packed_body(alloc, body, shown);
            }
            if is_test(rows, condition.get()) {
                return left(alloc, kind, rows, yes.get(), shown);
            }
            test(
                packed_box(alloc, condition, shown, 0),
                left_box(alloc, kind, rows, yes, shown),
                packed_box(alloc, no, shown, 0),
            )
        }
        _ => packed_body(alloc, body, shown),
    }
}

#[cycle(left)]
fn left_box(
    alloc: Global,
    kind: Kind,
    rows: u32,
    body: &Box<Term>,
    shown: &Shown,
) -> Result<Box<Term>, NoMemory>
    requires some { 0 < length shown.now.all.items }
    ensures { IfOk result (λ t. view t ≡ over_rows shown.now.columns.items shown.now.all.items 0 (left kind rows (view body.now))) }
{
    Box::new(alloc, left(alloc, kind, rows, body.get(), shown)?)
}

/// What is left of a body over the rows of tables, as over the row that is shown of them.
///
/// # Errors
/// Want of memory.
pub fn packed_left(
    alloc: Global,
    select: bool,
    kind: Kind,
    body: &Term,
    shown: &Shown,
) -> Result<Term, NoMemory>
    requires some { 0 < length shown.now.all.items }
    requires few { length shown.now.all.items < 2 ^ 32 }
    ensures { IfOk result (λ t. view t ≡ over_rows shown.now.columns.items shown.now.all.items 0
        (body_left select kind (length shown.now.all.items) (view body.now))) }
{
    if select {
        left(alloc, kind, shown.all.len() as u32, body, shown)
    } else {
        packed_body(alloc, body, shown)
    }
}
