//! Scans of sources.
ghost use Rattle.std.specs.Prelude.{◌≡◌, List, [], IfOk, map};
ghost use Rattle.kl_type.specs.Ground.{ground_of};
ghost use Rattle.kl_ask.specs.Asks.{columns, item_of, kind_of};
ghost use Rattle.kl_ask.specs.declared.ask.Ask.TheVariants as asks;
ghost use Rattle.kl_core.specs.Trees.{view};
ghost use Rattle.kl_outcome.specs.Outcome.{Name};
ghost use Rattle.kl_ship.specs.declared.needs.Need.TheVariants as need;
ghost use Rattle.kl_ship.specs.Delegation.{body_left, first_of, or_first, row_test, tests_taken};
ghost use Rattle.kl_ship.specs.Shipping.{listed_first};
ghost use Rattle.kl_ship.specs.Ships.{ByRows, IsScan, columns_asked, scan_kind};
ghost use Rattle.kl_ship.specs.Sources.{fits, fits_source, ground, unrepeated};

use crate::needs::Need;
use crate::row_conditions::{row_tests, tests_in};
use crate::source::ShipSource;
use crate::used::in_use;
use kl_ask::{Ask, ColTest};
use kl_base::{Label, NoMemory, Seq, labels_of};
use kl_core::{Term, fits};
use kl_plan::Scan;
use kl_type::Ty;
use kl_value::Kind;
use std::alloc::Global;

/// The kind of a collection type.
#[tactic(auto, using(kl_plan::proofs::Grounds::kind_rules))]
pub fn kind_in(ty: &Ty) -> Kind
    ensures { result ≡ kind_of (ground_of ty.now) }
{
    match ty {
        Ty::Coll(kind, _) => *kind,
        Ty::Bool | Ty::Int | Ty::Str | Ty::Rec(_) | Ty::Var(_) => Kind::List,
    }
}

// The columns of rows, which are none where they are no records.
#[tactic(auto, using(kl_ask::proofs::Columns::column_rules))]
fn columns_in(alloc: Global, item: &Ty) -> Result<Vec<Label>, NoMemory>
    ensures { IfOk result (λ labels. labels.items ≡ columns (ground_of item.now)) }
{
    match item {
        Ty::Rec(fields) => labels_of(alloc, fields.slice()),
        Ty::Bool | Ty::Int | Ty::Str | Ty::Var(_) | Ty::Coll(_, _) => Ok(Vec::new(alloc)),
    }
}

/// The columns of the rows of a source, by its type.
///
/// # Errors
/// Want of memory.
#[tactic(auto, using(kl_ask::proofs::Columns::column_rules))]
pub fn all_columns(alloc: Global, ty: &Ty) -> Result<Vec<Label>, NoMemory>
    ensures { IfOk result (λ labels. labels.items ≡ columns (item_of (ground_of ty.now))) }
{
    match ty {
        Ty::Coll(_, item) => columns_in(alloc, item.get()),
        Ty::Bool | Ty::Int | Ty::Str | Ty::Rec(_) | Ty::Var(_) => columns_in(alloc, ty),
    }
}

/// Whether a set becomes a bag as it comes, since its driver repeats no row.
pub fn is_unrepeated(from: Kind, into: Kind, unique: bool) -> bool
    ensures { result ≡ unrepeated from into unique }
{
    match from {
        Kind::Set => match into {
            Kind::Bag => unique,
            Kind::Set | Kind::List => false,
        },
        Kind::Bag | Kind::List => false,
    }
}

// Whether a loop of a kind draws the rows of a source of another as they come.
fn draws_as_they_come(from: Kind, into: Kind, unique: bool) -> bool
    ensures { result ≡ fits_source from into unique }
{
    fits(from, into) || is_unrepeated(from, into, unique)
}

/// Whether a loop of a kind draws the rows of a source as they come.
pub fn fits_loop(kind: Kind, source: &ShipSource) -> bool
    ensures { result ≡ fits kind source.now }
{
    draws_as_they_come(kind_in(&source.ty), kind, source.abilities.unique)
}

// The kind of a scan of a source of a kind.
fn kind_for(need: Need, from: Kind, unique: bool) -> Kind
    ensures { result ≡ scan_kind need from unique }
{
    match need {
        Need::Source(into) => {
            if draws_as_they_come(from, into, unique) {
                into
            } else {
                from
            }
        }
        Need::Whole | Need::Items => from,
    }
}

/// A scan of a source by an ask.
///
/// # Errors
/// Want of memory.
pub fn scan_by(source: &ShipSource, need: Need, number: u32, ask: Ask) -> Result<Scan, NoMemory>
    ensures scan { IfOk result (λ c. IsScan source.now need number c) }
    ensures ask { IfOk result (λ c. c.ask ≡ ask) }
{
    let name = source.name.dup()?;
    let kind = kind_for(need, kind_in(&source.ty), source.abilities.unique);
    Ok(Scan {
        number,
        driver: source.driver,
        source: name,
        ask,
        kind,
    })
}

/// A scan of the whole source.
///
/// # Errors
/// Want of memory.
pub fn whole_scan(
    alloc: Global,
    source: &ShipSource,
    need: Need,
    number: u32,
) -> Result<Scan, NoMemory>
    ensures scan { IfOk result (λ c. IsScan source.now need number c) }
    ensures ask { IfOk result (λ c. c.ask ≡ asks.Rows source.now.name (columns (item_of (ground source.now))) []) }
{
    let keep = all_columns(alloc, &source.ty)?;
    let asked = source.name.dup()?;
    scan_by(
        source,
        need,
        number,
        Ask::Rows {
            source: asked,
            keep: Seq::of(keep),
            tests: Seq::of(Vec::new(alloc)),
        },
    )
}

// The first of the columns where none is in use.
fn or_first(used: Vec<Label>, first: Option<Label>) -> Result<Vec<Label>, NoMemory>
    ensures { (all : List Name) → first_of all ≡ listed_first first → IfOk result (λ ls. ls.items ≡ or_first used.items all) }
{
    let mut used = used;
    if used.is_empty() {
        if let Some(first) = first {
            used.push(first)?;
        }
    }
    Ok(used)
}

fn first_in(labels: &[Label]) -> Result<Option<Label>, NoMemory>
    ensures { IfOk result (λ first. first_of labels.now ≡ listed_first first) }
{
    match labels {
        [first, ..] => Ok(Some(first.dup()?)),
        [] => Ok(None),
    }
}

// The columns that are asked for a loop: those in use in what is left of its body, where fewer may be asked.
fn columns_for(
    alloc: Global,
    source: &ShipSource,
    kind: Kind,
    body: &Term,
) -> Result<Vec<Label>, NoMemory>
    ensures { IfOk result (λ ls. ls.items ≡ columns_asked kind source.now (body_left source.now.abilities.select kind 1 (view body.now))) }
{
    let all = all_columns(alloc, &source.ty)?;
    if fits_loop(kind, source) && source.abilities.project {
        let first = first_in(&all)?;
        let used = in_use(alloc, source.abilities.select, kind, 1, body, 0, all)?;
        or_first(used, first)
    } else {
        Ok(all)
    }
}

// The tests that the driver makes.
fn tests_for(
    alloc: Global,
    source: &ShipSource,
    kind: Kind,
    body: &Term,
) -> Result<Vec<ColTest>, NoMemory>
    ensures { IfOk result (λ qs. qs.items ≡ map row_test (tests_taken source.now.abilities.select kind 1 (view body.now))) }
{
    let mut tests = Vec::new(alloc);
    if source.abilities.select {
        tests_in(alloc, kind, 1, body, &mut tests)?;
    }
    row_tests(alloc, tests)
}

/// A scan for the rows of a loop's source, where its driver is left the tests of the body's front and the choice of columns.
///
/// # Errors
/// Want of memory.
pub fn rows_scan(
    alloc: Global,
    source: &ShipSource,
    kind: Kind,
    body: &Term,
    number: u32,
) -> Result<Scan, NoMemory>
    ensures scan { IfOk result (λ c. IsScan source.now (need.Source kind) number c) }
    ensures rows { IfOk result (λ c. ByRows source.now kind (view body.now) c
        (body_left source.now.abilities.select kind 1 (view body.now))) }
{
    let keep = columns_for(alloc, source, kind, body)?;
    let tests = tests_for(alloc, source, kind, body)?;
    let asked = source.name.dup()?;
    scan_by(
        source,
        Need::Source(kind),
        number,
        Ask::Rows {
            source: asked,
            keep: Seq::of(keep),
            tests: Seq::of(tests),
        },
    )
}
