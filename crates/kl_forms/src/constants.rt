//! Constants.
ghost use Rattle.std.specs.Prelude.{◌≡◌, ◌↔◌, length, map, All, IsTrue, IfOk};
ghost use Rattle.std.specs.List.{AllByRecursion};
ghost use Rattle.std.specs.List.Sorted.{IsStrictlySortedBy};
ghost use Rattle.kl_base.specs.Fields.{LabelsRise};
ghost use Rattle.kl_base.specs.Sorted.{IsRising};
ghost use Rattle.kl_value.specs.Order.{compare};
ghost use Rattle.kl_outcome.specs.Typed.{Inhabits};
ghost use Rattle.kl_rows.specs.Places.{IsFine, IsType};
ghost use Rattle.kl_forms.specs.Checks.{Checks};
ghost use Rattle.kl_forms.specs.Forms.{IsOfType};
ghost use Rattle.kl_forms.specs.Constants.{TakesItems, TakesFields, EachHas, numbered};

use crate::collections::{fresh_types, items_of};
use crate::records::{is_record, variant_of};
use crate::types::is_scalar;
use kl_base::{Label, NoMemory};
use kl_rows::{Scalar, Unifier};
use kl_value::{Kind, Value, cmp};
use std::alloc::Global;

fn labels_rise(fields: &[(Label, Value)]) -> bool
    ensures { IsTrue result ↔ LabelsRise fields.now }
{
    fields.is_sorted_by(|f, g| f.0.cmp(&g.0).is_lt())
}

fn rise_strictly(items: &[Value]) -> bool
    ensures { IsTrue result ↔ IsStrictlySortedBy compare items.now }
{
    items.is_sorted_by(|v, w| cmp(v, w).is_lt())
}

fn rise(items: &[Value]) -> bool
    ensures { IsTrue result ↔ IsRising compare items.now }
{
    items.is_sorted_by(|v, w| cmp(v, w).is_le())
}

/// Whether the constant can have the type. A value that is not canonical has none.
#[cycle(value)]
pub fn value(u: &mut Unifier, v: &Value, want: u64) -> Result<bool, NoMemory>
    requires fine { IsFine u.old.cells.items }
    requires there { IsType u.old.cells.items want }
    ensures { IfOk result (λ holds. Checks holds u.old.cells.items u.new.cells.items (IsOfType v.now want)) }
{
    match v {
        Value::Bool(_) => {
            let holds = is_scalar(u, Scalar::Bool, want)?;
            Ok(holds)
        }
        Value::Int(_) => {
            let holds = is_scalar(u, Scalar::Int, want)?;
            Ok(holds)
        }
        Value::Text(_) => {
            let holds = is_scalar(u, Scalar::Str, want)?;
            Ok(holds)
        }
        Value::Rec(fields) => {
            let fields = fields.slice();
            if !labels_rise(fields) {
                return Ok(false);
            }
            let holds = record(u, fields, want)?;
            Ok(holds)
        }
        Value::Inj(label, inner) => {
            let Some(item) = variant_of(u, label, want)? else {
                return Ok(false);
            };
            let holds = value(u, inner.get(), item)?;
            Ok(holds)
        }
        Value::Set(items) => {
            let items = items.slice();
            if !rise_strictly(items) {
                return Ok(false);
            }
            let holds = items_have(u, Kind::Set, items, want)?;
            Ok(holds)
        }
        Value::Bag(items) => {
            let items = items.slice();
            if !rise(items) {
                return Ok(false);
            }
            let holds = items_have(u, Kind::Bag, items, want)?;
            Ok(holds)
        }
        Value::List(items) => {
            let holds = items_have(u, Kind::List, items.slice(), want)?;
            Ok(holds)
        }
    }
}

// Whether the type can be that of collections of the kind with these items.
#[cycle(value)]
fn items_have(u: &mut Unifier, kind: Kind, items: &[Value], want: u64) -> Result<bool, NoMemory>
    requires fine { IsFine u.old.cells.items }
    requires there { IsType u.old.cells.items want }
    ensures { IfOk result (λ holds. Checks holds u.old.cells.items u.new.cells.items (TakesItems kind items.now want)) }
{
    let Some(item) = items_of(u, kind, want)? else {
        return Ok(false);
    };
    let holds = each_has(u, items, item)?;
    Ok(holds)
}

// Whether all the constants can have the type.
#[cycle(value)]
fn each_has(u: &mut Unifier, items: &[Value], item: u64) -> Result<bool, NoMemory>
    requires fine { IsFine u.old.cells.items }
    requires item_there { IsType u.old.cells.items item }
    ensures { IfOk result (λ holds. Checks holds u.old.cells.items u.new.cells.items (λ s. All (Inhabits (s.types item)) items.now)) }
{
    'items: for v in items {
        let holds = value(u, v, item)?;
        if !holds {
            return Ok(false);
        }
    }
    Ok(true)
}

fn with_labels(
    alloc: Global,
    fields: &[(Label, Value)],
    types: &[u64],
) -> Result<Vec<(Label, u64)>, NoMemory>
    requires size { length types.now ≡ length fields.now }
    ensures { IfOk result (λ all. all.items ≡ numbered fields.now types.now) }
{
    let mut all = Vec::with_capacity(alloc, fields.len())?;
    for i in 0..fields.len() {
        let label = fields[i].0.dup()?;
        all.push((label, types[i]))?;
    }
    Ok(all)
}

// Whether the type can be that of records with these fields.
#[cycle(value)]
fn record(u: &mut Unifier, fields: &[(Label, Value)], want: u64) -> Result<bool, NoMemory>
    requires fine { IsFine u.old.cells.items }
    requires there { IsType u.old.cells.items want }
    requires rise { LabelsRise fields.now }
    ensures { IfOk result (λ holds. Checks holds u.old.cells.items u.new.cells.items (TakesFields fields.now want)) }
{
    let types = fresh_types(u, fields.len())?;
    let all = with_labels(u.alloc, fields, &types)?;
    let is_one = is_record(u, all, false, want)?;
    if !is_one {
        return Ok(false);
    }
    let holds = fields_have(u, fields, &types)?;
    Ok(holds)
}

// Whether the constants can have the types, each its own.
#[cycle(value)]
fn fields_have(u: &mut Unifier, fields: &[(Label, Value)], types: &[u64]) -> Result<bool, NoMemory>
    requires fine { IsFine u.old.cells.items }
    requires size { length types.now ≡ length fields.now }
    requires types_there { AllByRecursion (IsType u.old.cells.items) types.now }
    ensures { IfOk result (λ holds. Checks holds u.old.cells.items u.new.cells.items (λ s. EachHas (map s.types types.now) fields.now)) }
{
    for i in 0..fields.len() {
        let holds = value(u, &fields[i].1, types[i])?;
        if !holds {
            return Ok(false);
        }
    }
    Ok(true)
}
