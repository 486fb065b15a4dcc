//! How deep a value nests, and copies.
ghost use Rattle.std.specs.Prelude.{◌≡◌, ◌-◌, ◌^◌, min, IfOk};
ghost use Rattle.kl_value.specs.Shape.{depth_of, greatest};

use crate::value::Value;
use kl_base::{Box, Label, NoMemory, Seq};
use std::alloc::Global;

/// How many records, variants and collections stand in one another, a count past u64 being answered as the greatest
/// u64. Takes no memory.
#[cycle(depth)]
#[tactic(auto, using(crate::proofs::ShapeLemmas::depths))]
pub fn depth(v: &Value) -> u64
    ensures { result ≡ min (depth_of v.now) (2 ^ 64 - 1) }
{
    match v {
        Value::Bool(_) | Value::Int(_) | Value::Text(_) => 0,
        Value::Rec(fields) => depth_fields(fields.slice()).saturating_add(1),
        Value::Inj(_, inner) => depth(inner.get()).saturating_add(1),
        Value::Set(items) => depth_items(items.slice()).saturating_add(1),
        Value::Bag(items) => depth_items(items.slice()).saturating_add(1),
        Value::List(items) => depth_items(items.slice()).saturating_add(1),
    }
}

#[cycle(depth)]
fn depth_items(items: &[Value]) -> u64
    ensures { result ≡ min (greatest depth_of items.now) (2 ^ 64 - 1) }
{
    let mut most = 0;
    for item in items {
        most = most.max(depth(item));
    }
    most
}

#[cycle(depth)]
fn depth_fields(fields: &[(Label, Value)]) -> u64
    ensures { result ≡ min (greatest (λ f. depth_of f.1) fields.now) (2 ^ 64 - 1) }
{
    let mut most = 0;
    for field in fields {
        most = most.max(depth(&field.1));
    }
    most
}

/// An equal value. Its labels share the bytes of the first one's.
///
/// # Errors
/// Want of memory.
#[cycle(dup)]
pub fn dup(alloc: Global, v: &Value) -> Result<Value, NoMemory>
    ensures { IfOk result (λ w. w ≡ v.now) }
{
    match v {
        Value::Bool(b) => Ok(Value::Bool(*b)),
        Value::Int(n) => Ok(Value::Int(*n)),
        Value::Text(text) => Ok(Value::Text(text.dup(alloc)?)),
        Value::Rec(fields) => Ok(Value::Rec(Seq::of(dup_fields(alloc, fields.slice())?))),
        Value::Inj(label, inner) => {
            let label = label.dup()?;
            let inner = dup(alloc, inner.get())?;
            Ok(Value::Inj(label, Box::new(alloc, inner)?))
        }
        Value::Set(items) => Ok(Value::Set(Seq::of(dup_items(alloc, items.slice())?))),
        Value::Bag(items) => Ok(Value::Bag(Seq::of(dup_items(alloc, items.slice())?))),
        Value::List(items) => Ok(Value::List(Seq::of(dup_items(alloc, items.slice())?))),
    }
}

/// Equal values, in the same order.
///
/// # Errors
/// Want of memory; the copies made so far are dropped then.
#[cycle(dup)]
pub fn dup_items(alloc: Global, items: &[Value]) -> Result<Vec<Value>, NoMemory>
    ensures { IfOk result (λ copies. copies.items ≡ items.now) }
{
    let mut copies = Vec::with_capacity(alloc, items.len())?;
    for item in items {
        copies.push(dup(alloc, item)?)?;
    }
    Ok(copies)
}

#[cycle(dup)]
fn dup_fields(alloc: Global, fields: &[(Label, Value)]) -> Result<Vec<(Label, Value)>, NoMemory>
    ensures { IfOk result (λ copies. copies.items ≡ fields.now) }
{
    let mut copies = Vec::with_capacity(alloc, fields.len())?;
    for field in fields {
        let label = field.0.dup()?;
        copies.push((label, dup(alloc, &field.1)?))?;
    }
    Ok(copies)
}
