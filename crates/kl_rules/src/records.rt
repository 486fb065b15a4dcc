//! A record that is bound and used by its fields alone: rule 11.
ghost use Rattle.std.specs.Prelude.{◌≡◌, ◌+◌, ◌-◌, ◌<◌, ◌^◌, ℕ, min, length, map, suc, All, IfOk};
ghost use Rattle.std.specs.Option.{option_map};
ghost use Rattle.kl_base.specs.Fields.{labels_of, rises};
ghost use Rattle.kl_core.specs.Leaves.{Leaves};
ghost use Rattle.kl_core.specs.Positions.{AnySource};
ghost use Rattle.kl_core.specs.Trees.{Var, view, view_part, trees_view, parts_view, rest_of};
ghost use Rattle.kl_rules.specs.Rules.{ScalarReplacement};
ghost use Rattle.kl_rules.specs.Unpacking.{bound_round};
ghost use Rattle.kl_rules.specs.Rewriting.{IsLowPosition, IsShiftable, RewritesBy};
ghost use Rattle.kl_rules.specs.Unpacked.{place_in, is_at, alone_in, alone_trees, alone_parts, alone_arms, unpacked};
ghost use Rattle.kl_rules.specs.Unpacked.{unpacked_arms, HasRoom, HasRoomArms};

use kl_base::{Box, Label, NoMemory, Seq};
use kl_core::building::{
    binding, case, collection, constant, extension, injection, primitive, projection, record, test,
    union,
};
use kl_core::{Term, TermFields, Terms, shift};
use std::alloc::Global;

/// Rule 11, scalar replacement of aggregates (Muchnick, Advanced Compiler Design and Implementation, 1997, 12.2): a record
/// that is bound and used by its fields alone is bound field by field.
///
/// # Errors
/// Want of memory.
pub fn rule_11(alloc: Global, term: &Term) -> Result<Option<Term>, NoMemory>
    requires small { IsShiftable (view term.now) }
    ensures { RewritesBy ScalarReplacement (view term.now) result }
{
    let Term::Let(record, a) = term else {
        return Ok(None);
    };
    let Term::Rec(fields) = record.get() else {
        return Ok(None);
    };
    let fields = fields.slice();
    if !labels_rise(fields) {
        return Ok(None);
    }
    if !is_alone(a.get(), fields, 0) {
        return Ok(None);
    }
    let body = unpack_box(alloc, a, fields, 0)?;
    Ok(Some(bind_fields(alloc, fields, body)?.into_inner()))
}

fn labels_rise(fields: &[(Label, Term)]) -> bool
    ensures { result ≡ rises (labels_of fields.now) }
{
    for i in 1..fields.len() {
        if !fields[i - 1].0.cmp(&fields[i].0).is_lt() {
            return false;
        }
    }
    true
}

// The number of the first field with the label, or how many fields there are.
fn place(fields: &[(Label, Term)], label: &Label) -> usize
    ensures { result ≡ place_in label.now (labels_of fields.now) }
{
    for i in 0..fields.len() {
        if *label == fields[i].0 {
            return i;
        }
    }
    fields.len()
}

fn stands_at(term: &Term, at: u64) -> bool
    ensures { (n : ℕ) → min n (2 ^ 64 - 1) ≡ at → result ≡ is_at n (view term.now) }
{
    match term {
        Term::Var(x) => u64::from(*x) == at,
        _ => false,
    }
}

// Whether the position stands only where one of the fields is taken from it. Under binders the position may pass 32 bits, and
// the count stays at its greatest value: it stands nowhere then.
#[cycle(is_alone)]
fn is_alone(term: &Term, fields: &[(Label, Term)], at: u64) -> bool
    ensures { (n : ℕ) → min n (2 ^ 64 - 1) ≡ at → result ≡ alone_in (labels_of fields.now) n (view term.now) }
{
    match term {
        Term::Var(x) => u64::from(*x) != at,
        Term::Const(_) | Term::Source(_) => true,
        Term::Rec(parts) => are_alone_labelled(parts.slice(), fields, at),
        Term::Proj(label, a) => {
            if stands_at(a.get(), at) {
                place(fields, label) < fields.len()
            } else {
                is_alone(a.get(), fields, at)
            }
        }
        Term::Inj(_, a) => is_alone(a.get(), fields, at),
        Term::Case(a, branches, other) => {
            is_alone(a.get(), fields, at)
                && are_alone_labelled(branches.slice(), fields, at.saturating_add(1))
                && is_alone_other(other, fields, at)
        }
        Term::Make(_, terms) => are_alone(terms.slice(), fields, at),
        Term::Union(a, b) => is_alone(a.get(), fields, at) && is_alone(b.get(), fields, at),
        Term::Ext(_, body, source) => {
            is_alone(body.get(), fields, at.saturating_add(1)) && is_alone(source.get(), fields, at)
        }
        Term::If(a, b, c) => {
            is_alone(a.get(), fields, at)
                && is_alone(b.get(), fields, at)
                && is_alone(c.get(), fields, at)
        }
        Term::Let(a, b) => {
            is_alone(a.get(), fields, at) && is_alone(b.get(), fields, at.saturating_add(1))
        }
        Term::Prim(_, terms) => are_alone(terms.slice(), fields, at),
    }
}

#[cycle(is_alone)]
fn is_alone_other(other: &Option<Box<Term>>, fields: &[(Label, Term)], at: u64) -> bool
    ensures { (n : ℕ) → min n (2 ^ 64 - 1) ≡ at → result ≡ alone_arms (labels_of fields.now) n (rest_of (option_map view other.now)) }
{
    match other {
        Some(other) => is_alone(other.get(), fields, at),
        None => true,
    }
}

#[cycle(is_alone)]
fn are_alone(terms: &[Term], fields: &[(Label, Term)], at: u64) -> bool
    ensures { (n : ℕ) → min n (2 ^ 64 - 1) ≡ at → result ≡ alone_trees (labels_of fields.now) n (trees_view terms.now) }
{
    for term in terms {
        if !is_alone(term, fields, at) {
            return false;
        }
    }
    true
}

#[cycle(is_alone)]
fn are_alone_labelled(parts: &[(Label, Term)], fields: &[(Label, Term)], at: u64) -> bool
    ensures { (n : ℕ) → min n (2 ^ 64 - 1) ≡ at → result ≡ alone_parts (labels_of fields.now) n (parts_view parts.now) }
{
    for part in parts {
        if !is_alone(&part.1, fields, at) {
            return false;
        }
    }
    true
}

// A position for each field in place of the record at `at`.
#[cycle(unpack)]
fn unpack(alloc: Global, term: &Term, fields: &[(Label, Term)], at: u64) -> Result<Term, NoMemory>
    requires few { length fields.now < 2 ^ 31 }
    requires room { HasRoom (view term.now) at }
    ensures { IfOk result (λ t. view t ≡ unpacked (labels_of fields.now) at (view term.now)) }
{
    match term {
        Term::Var(x) => Ok(Term::Var(raised(fields, *x, at))),
        Term::Const(v) => constant(alloc, v),
        Term::Source(i) => Ok(Term::Source(*i)),
        Term::Rec(parts) => record(unpack_labelled(alloc, parts.slice(), fields, at)),
        Term::Proj(label, a) => {
            if stands_at(a.get(), at) {
                Ok(Term::Var(position(fields, label, at)))
            } else {
                projection(label, unpack_box(alloc, a, fields, at))
            }
        }
        Term::Inj(label, a) => injection(label, unpack_box(alloc, a, fields, at)),
        Term::Case(a, branches, other) => case(
            unpack_box(alloc, a, fields, at),
            unpack_labelled(alloc, branches.slice(), fields, at + 1),
            unpack_other(alloc, other, fields, at),
        ),
        Term::Make(kind, terms) => collection(*kind, unpack_all(alloc, terms.slice(), fields, at)),
        Term::Union(a, b) => union(
            unpack_box(alloc, a, fields, at),
            unpack_box(alloc, b, fields, at),
        ),
        Term::Ext(kind, body, source) => extension(
            *kind,
            unpack_box(alloc, body, fields, at + 1),
            unpack_box(alloc, source, fields, at),
        ),
        Term::If(a, b, c) => test(
            unpack_box(alloc, a, fields, at),
            unpack_box(alloc, b, fields, at),
            unpack_box(alloc, c, fields, at),
        ),
        Term::Let(a, b) => binding(
            unpack_box(alloc, a, fields, at),
            unpack_box(alloc, b, fields, at + 1),
        ),
        Term::Prim(code, terms) => primitive(*code, unpack_all(alloc, terms.slice(), fields, at)),
    }
}

// A position above the record's is raised by the number of fields, less the record's own.
fn raised(fields: &[(Label, Term)], x: u32, at: u64) -> u32
    requires few { length fields.now < 2 ^ 31 }
    requires low { x < 2 ^ 31 }
    ensures { Var result ≡ unpacked (labels_of fields.now) at (Var x) }
{
    if at < u64::from(x) {
        x - 1 + fields.len() as u32
    } else {
        x
    }
}

// The position of the field with the label, where the last field is the nearest.
fn position(fields: &[(Label, Term)], label: &Label, at: u64) -> u32
    requires few { length fields.now < 2 ^ 31 }
    requires low { at < 2 ^ 31 }
    ensures { result ≡ at + (length fields.now - suc (place_in label.now (labels_of fields.now))) }
{
    let behind = fields
        .len()
        .saturating_sub(place(fields, label))
        .saturating_sub(1);
    at as u32 + behind as u32
}

#[cycle(unpack)]
fn unpack_box(
    alloc: Global,
    term: &Box<Term>,
    fields: &[(Label, Term)],
    at: u64,
) -> Result<Box<Term>, NoMemory>
    requires few { length fields.now < 2 ^ 31 }
    requires room { HasRoom (view term.now) at }
    ensures { IfOk result (λ t. view t ≡ unpacked (labels_of fields.now) at (view term.now)) }
{
    Box::new(alloc, unpack(alloc, term.get(), fields, at)?)
}

#[cycle(unpack)]
fn unpack_other(
    alloc: Global,
    other: &Option<Box<Term>>,
    fields: &[(Label, Term)],
    at: u64,
) -> Result<Option<Box<Term>>, NoMemory>
    requires few { length fields.now < 2 ^ 31 }
    requires room { HasRoomArms (rest_of (option_map view other.now)) at }
    ensures { IfOk result (λ o. rest_of (option_map view o)
        ≡ unpacked_arms (labels_of fields.now) at (rest_of (option_map view other.now))) }
{
    match other {
        Some(other) => {
            let other = unpack(alloc, other.get(), fields, at)?;
            Ok(Some(Box::new(alloc, other)?))
        }
        None => Ok(None),
    }
}

#[cycle(unpack)]
fn unpack_all(
    alloc: Global,
    terms: &[Term],
    fields: &[(Label, Term)],
    at: u64,
) -> Result<Terms, NoMemory>
    requires few { length fields.now < 2 ^ 31 }
    requires room { All (λ t. HasRoom (view t) at) terms.now }
    ensures { IfOk result (λ ts. map view ts ≡ map (λ t. unpacked (labels_of fields.now) at (view t)) terms.now) }
{
    let mut made = Vec::with_capacity(alloc, terms.len())?;
    for term in terms {
        made.push(unpack(alloc, term, fields, at)?)?;
    }
    Ok(Seq::of(made))
}

#[cycle(unpack)]
fn unpack_labelled(
    alloc: Global,
    parts: &[(Label, Term)],
    fields: &[(Label, Term)],
    at: u64,
) -> Result<TermFields, NoMemory>
    requires few { length fields.now < 2 ^ 31 }
    requires room { All (λ p. HasRoom (view p.1) at) parts.now }
    ensures { IfOk result (λ ps. map view_part ps ≡ map (λ p. (p.0, unpacked (labels_of fields.now) at (view p.1))) parts.now) }
{
    let mut made = Vec::with_capacity(alloc, parts.len())?;
    for part in parts {
        let label = part.0.dup()?;
        made.push((label, unpack(alloc, &part.1, fields, at)?))?;
    }
    Ok(Seq::of(made))
}

// The fields bound one after the other round a body.
fn bind_fields(
    alloc: Global,
    fields: &[(Label, Term)],
    body: Box<Term>,
) -> Result<Box<Term>, NoMemory>
    requires few { length fields.now < 2 ^ 31 }
    requires low { All (λ f. Leaves IsLowPosition AnySource (view f.1)) fields.now }
    ensures { IfOk result (λ t. view t ≡ bound_round (parts_view fields.now) 0 (view body)) }
{
    let mut whole = body;
    let mut i = fields.len();
    while i > 0 {
        i -= 1;
        let part = Box::new(alloc, shift(alloc, &fields[i].1, 0, i as u32)?)?;
        whole = Box::new(alloc, Term::Let(part, whole))?;
    }
    Ok(whole)
}
