//! Sorting. Where values begin alike, each gets a key, a number that tells its first two fields, and values are compared
//! only where their keys tie.
ghost use Rattle.std.specs.Prelude.{◌≡◌, ◌≤◌, ◌^◌, List, ℕ, All, IfOk, map, slice_index};
ghost use Rattle.std.specs.Bool.{OnTrue};
ghost use Rattle.std.specs.List.Sorted.{IsSorted};
ghost use Rattle.std.specs.Option.{option_copied};
ghost use Rattle.kl_base.specs.Sorted.{sorted};
ghost use Rattle.kl_value.specs.Keys.{counted, first_label, second_label, front, key_of, second_key, lead_of};
ghost use Rattle.kl_value.specs.Keys.{second_layer, HasKey, BeginsWith, BeginAlike};
ghost use Rattle.kl_value.specs.Order.{compare};
ghost use Rattle.kl_value.specs.declared.value.Value.{out-Value};

use crate::value::Value;
use kl_base::{Label, NoMemory};

// How many items are compared one by one.
const FEW: usize = 16;

/// The items in rising order.
///
/// # Errors
/// Want of memory for the keys; the items are dropped then.
pub fn sort(items: Vec<Value>) -> Result<Vec<Value>, NoMemory>
    ensures { IfOk result (λ all. all.items ≡ sorted compare items.items) }
{
    if rise(&items) {
        return Ok(items);
    }
    if items.len() > FEW && begin_alike(&items) {
        return sort_by_keys(items);
    }
    let mut items = items;
    items.sort_unstable();
    Ok(items)
}

fn rise(items: &[Value]) -> bool
    ensures { OnTrue result (IsSorted compare items.now) }
{
    items.is_sorted_by(|a, b| a.cmp(b).is_le())
}

// Whether all items have the same first two labels, and a key tells the front of each.
fn begin_alike(items: &[Value]) -> bool
    ensures { OnTrue result (BeginAlike items.now) }
{
    let Some(model) = items.first() else {
        return false;
    };
    let first = first_label(model);
    let second = second_label(model);
    for item in items {
        if !begins_with(item, first, second) {
            return false;
        }
    }
    true
}

fn begins_with(v: &Value, first: Option<&Label>, second: Option<&Label>) -> bool
    ensures { OnTrue result (BeginsWith (option_copied first.entry) (option_copied second.entry) v.now) }
{
    is_same(first_label(v), first) && is_same(second_label(v), second) && has_key(lead(v))
}

fn is_same(a: Option<&Label>, b: Option<&Label>) -> bool
    ensures { OnTrue result (option_copied a.entry ≡ option_copied b.entry) }
{
    match (a, b) {
        (Some(a), Some(b)) => a.cmp(b).is_eq(),
        (None, None) => true,
        _ => false,
    }
}

fn has_key(v: &Value) -> bool
    ensures { OnTrue result (HasKey v.now) }
{
    match v {
        Value::Int(number) => {
            let _number = *number;
            true
        }
        Value::Text(_) => true,
        _ => false,
    }
}

fn first_label(v: &Value) -> Option<&Label>
    ensures { option_copied result ≡ first_label v.now }
{
    match v {
        Value::Rec(fields) => match fields.slice() {
            [(label, _), ..] => Some(label),
            [] => None,
        },
        _ => None,
    }
}

fn second_label(v: &Value) -> Option<&Label>
    ensures { option_copied result ≡ second_label v.now }
{
    match v {
        Value::Rec(fields) => match fields.slice() {
            [_, (label, _), ..] => Some(label),
            _ => None,
        },
        _ => None,
    }
}

// What stands in the first field of a record, or the value itself.
fn lead(v: &Value) -> &Value
    ensures { result.now ≡ lead_of v.now }
{
    match v {
        Value::Rec(fields) => match fields.slice() {
            [(_, value), ..] => value,
            [] => v,
        },
        _ => v,
    }
}

fn sort_by_keys(items: Vec<Value>) -> Result<Vec<Value>, NoMemory>
    requires { BeginAlike items.items }
    ensures { IfOk result (λ all. all.items ≡ sorted compare items.items) }
{
    let mut pairs = keyed(items)?;
    pairs.sort_unstable();
    let all = values_of(pairs)?;
    Ok(all)
}

fn keyed(items: Vec<Value>) -> Result<Vec<(u128, Value)>, NoMemory>
    ensures { IfOk result (λ pairs. pairs.items ≡ map (λ v. (key_of v, v)) items.items) }
{
    let alloc = *items.allocator();
    let mut pairs = Vec::with_capacity(alloc, items.len())?;
    for value in items {
        let key = key(&value);
        pairs.push((key, value))?;
    }
    Ok(pairs)
}

fn values_of(pairs: Vec<(u128, Value)>) -> Result<Vec<Value>, NoMemory>
    ensures { IfOk result (λ all. all.items ≡ map (λ p. p.1) pairs.items) }
{
    let alloc = *pairs.allocator();
    let mut all = Vec::with_capacity(alloc, pairs.len())?;
    for (_, value) in pairs {
        all.push(value)?;
    }
    Ok(all)
}

// Room for an integer of 64 bits and the number of a second field.
const FRONT_ROOM: u128 = 1 << 127;

const SECOND_ROOM: u128 = 1 << 63;

const PART_ROOM: u128 = 1 << 61;

fn key(v: &Value) -> u128
    ensures { result ≡ key_of v.now }
{
    match lead(v) {
        Value::Int(number) => counted_from_least(*number) * SECOND_ROOM + second_key(v),
        Value::Text(text) => FRONT_ROOM + front(15, text.slice()),
        _ => 0,
    }
}

fn second_key(v: &Value) -> u128
    ensures { result ≡ second_key (second_layer (out-Value v.now)) }
{
    match v {
        Value::Rec(fields) => match fields.slice() {
            [_, (_, value), ..] => part_key(value),
            _ => 0,
        },
        _ => 0,
    }
}

fn part_key(v: &Value) -> u128
    ensures { result ≡ second_key (Some (out-Value v.now)) }
{
    match v {
        Value::Bool(_) => 0,
        Value::Int(number) => PART_ROOM + counted_within_61_bits(*number),
        Value::Text(text) => 2 * PART_ROOM + front(7, text.slice()),
        _ => 3 * PART_ROOM,
    }
}

fn counted_from_least(number: i64) -> u128
    ensures { result ≡ counted (2 ^ 63) number }
{
    (i128::from(number) - i128::from(i64::MIN)) as u128
}

fn counted_within_61_bits(number: i64) -> u128
    ensures { result ≡ counted (2 ^ 60) number }
{
    (i128::from(number).clamp(-(1 << 60), (1 << 60) - 1) + (1 << 60)) as u128
}

fn front(count: usize, bytes: &[u8]) -> u128
    requires { count ≤ 15 }
    ensures { result ≡ front count bytes.now }
{
    let mut number: u128 = 0;
    for i in 0..count {
        number = number * 256 + u128::from(byte_at(bytes, i));
    }
    number
}

// The byte at a place, 0 past the end.
fn byte_at(bytes: &[u8], i: usize) -> u8
    ensures { result ≡ slice_index bytes.now i }
{
    bytes.get(i).copied().unwrap_or(0)
}
