//! Whole scans of sources.
ghost use Rattle.std.specs.Prelude.{◌≡◌, ◌<◌, [], IsSome, IfOk, length, map};
ghost use Rattle.kl_type.specs.Ground.{ground_of};
ghost use Rattle.kl_ask.specs.Asks.{columns, item_of, kind_of};
ghost use Rattle.kl_ask.specs.Driver.{CanStart};
ghost use Rattle.kl_ask.specs.Lists.{AtIndex, StepsAt};
ghost use Rattle.kl_ask.specs.declared.ask.Ask.TheVariants as asks;
ghost use Rattle.kl_eval.specs.Scans.{Drains, IsEmptyOf, Scans, ScansTo, Scanned, IsWhole};

use crate::stop::EvalStop;
use kl_ask::{Ask, Attached, Driver, DriverError, finish_boxed, pull_boxed, start_boxed};
use kl_base::{Label, NoMemory, Seq, labels_of};
use kl_type::Ty;
use kl_value::{Kind, Value, canon};
use std::alloc::Global;

// The kind of a collection type.
#[tactic(auto, using(crate::proofs::Types::type_rules))]
fn kind_in(ty: &Ty) -> Kind
    ensures { result ≡ kind_of (ground_of ty.now) }
{
    match ty {
        Ty::Coll(kind, _) => *kind,
        Ty::Bool | Ty::Int | Ty::Str | Ty::Rec(_) | Ty::Var(_) => Kind::List,
    }
}

// The columns of rows, which are none where they are no records.
#[tactic(auto, using(kl_ask::proofs::Columns::column_rules))]
fn columns_in(alloc: Global, item: &Ty) -> Result<Vec<Label>, NoMemory>
    ensures { IfOk result (λ labels. labels.items ≡ columns (ground_of item.now)) }
{
    match item {
        Ty::Rec(fields) => labels_of(alloc, fields.slice()),
        Ty::Bool | Ty::Int | Ty::Str | Ty::Var(_) | Ty::Coll(_, _) => Ok(Vec::new(alloc)),
    }
}

#[tactic(auto, using(kl_ask::proofs::Columns::column_rules))]
fn all_columns(alloc: Global, ty: &Ty) -> Result<Vec<Label>, NoMemory>
    ensures { IfOk result (λ labels. labels.items ≡ columns (item_of (ground_of ty.now))) }
{
    match ty {
        Ty::Coll(_, item) => columns_in(alloc, item.get()),
        Ty::Bool | Ty::Int | Ty::Str | Ty::Rec(_) | Ty::Var(_) => columns_in(alloc, ty),
    }
}

// The ask for all rows of a source, whole.
fn whole(alloc: Global, attached: &Attached) -> Result<Ask, NoMemory>
    ensures { IfOk result (λ ask. IsWhole attached.now ask) }
{
    let source = attached.source.dup()?;
    let keep = all_columns(alloc, &attached.ty)?;
    Ok(Ask::Rows {
        source,
        keep: Seq::of(keep),
        tests: Seq::of(Vec::new(alloc)),
    })
}

// Pulls all rows of a cursor, which is open at an `Ok` and closed at an `Err`.
fn drain(
    driver: &mut Box<dyn Driver>,
    cursor: u64,
    fetch: u32,
    into: &mut Vec<Value>,
) -> Result<(), DriverError>
    requires is_open { IsSome ((state driver.old).cursors cursor) }
    requires room { 0 < fetch }
    ensures { Drains cursor into.old.items into.new.items result (state driver.old) (state driver.new) }
{
    'pulls: loop {
        match pull_boxed(driver, cursor, fetch, into) {
            Ok(true) => {}
            Ok(false) => return Ok(()),
            Err(error) => return Err(error),
        }
    }
}

// All rows of an ask.
fn scan_box(
    alloc: Global,
    driver: &mut Box<dyn Driver>,
    ask: &Ask,
    fetch: u32,
) -> Result<Vec<Value>, DriverError>
    requires can { CanStart (state driver.old) ask.now }
    requires room { 0 < fetch }
    ensures { Scans ask.now result (state driver.old) (state driver.new) }
{
    let cursor = match start_boxed(driver, ask) {
        Ok(cursor) => cursor,
        Err(error) => return Err(error),
    };
    let mut rows = Vec::new(alloc);
    match drain(driver, cursor, fetch, &mut rows) {
        Ok(()) => {
            finish_boxed(driver, cursor);
            Ok(rows)
        }
        Err(error) => Err(error),
    }
}

// All rows of an ask of the driver at a place.
fn scan(
    alloc: Global,
    drivers: &mut Vec<Box<dyn Driver>>,
    place: usize,
    ask: &Ask,
    fetch: u32,
) -> Result<Vec<Value>, DriverError>
    requires place { place < length drivers.old.items }
    requires can { AtIndex place (λ s. CanStart s ask.now) (map (λ d. state d) drivers.old.items) }
    requires room { 0 < fetch }
    ensures { StepsAt place (λ a b. Scans ask.now result a b) (map (λ d. state d) drivers.old.items)
        (map (λ d. state d) drivers.new.items) }
{
    scan_box(alloc, &mut drivers[place], ask, fetch)
}

// The rows as a collection, or why there are none.
fn gather(
    kind: Kind,
    source: &Label,
    rows: Result<Vec<Value>, DriverError>,
) -> Result<Value, EvalStop>
    ensures { Scanned kind source.now rows result }
{
    match rows {
        Ok(rows) => match canon(kind, rows) {
            Ok(value) => Ok(value),
            Err(_) => Err(EvalStop::NoMemory),
        },
        Err(DriverError::NoMemory) => Err(EvalStop::NoMemory),
        Err(error) => match source.dup() {
            Ok(source) => Err(EvalStop::Driver { source, error }),
            Err(_) => Err(EvalStop::NoMemory),
        },
    }
}

/// The value of a source without rows.
pub fn no_rows(alloc: Global, attached: &Attached) -> Result<Value, EvalStop>
    ensures { IsEmptyOf attached.now result }
{
    gather(kind_in(&attached.ty), &attached.source, Ok(Vec::new(alloc)))
}

/// The value of an attached source, by a whole scan of the driver at a place.
pub fn scan_attached(
    alloc: Global,
    drivers: &mut Vec<Box<dyn Driver>>,
    place: usize,
    attached: &Attached,
    fetch: u32,
) -> Result<Value, EvalStop>
    requires place { place < length drivers.old.items }
    requires can { AtIndex place (λ s. CanStart s (asks.Rows attached.now.source (columns (item_of (ground_of attached.now.ty))) []))
        (map (λ d. state d) drivers.old.items) }
    requires room { 0 < fetch }
    ensures { StepsAt place (λ a b. ScansTo attached.now result a b) (map (λ d. state d) drivers.old.items)
        (map (λ d. state d) drivers.new.items) }
{
    match whole(alloc, attached) {
        Ok(ask) => {
            let rows = scan(alloc, drivers, place, &ask, fetch);
            gather(kind_in(&attached.ty), &attached.source, rows)
        }
        Err(_) => Err(EvalStop::NoMemory),
    }
}
