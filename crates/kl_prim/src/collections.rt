//! What is made of collections. Items are copied only where they are part of the answer.
ghost use Rattle.std.specs.Prelude.{◌≡◌, ◌++◌, false, List, [], ℕ, take, All, Contains, IfOk, OnOk, IsSome, MatchOption};
ghost use Rattle.std.specs.List.{list_any, flat_map};
ghost use Rattle.std.specs.Option.{option_copied};
ghost use Rattle.std.specs.Ordering.{is_eq, is_ge, is_gt, is_le};
ghost use Rattle.kl_value.specs.Canon.{canonical};
ghost use Rattle.kl_value.specs.Order.{compare};
ghost use Rattle.kl_value.specs.IsCanonical.{IsCanonical};
ghost use Rattle.kl_prim.specs.Meaning.{AnswersMeaning, all_some, alone, extreme, gives, listed, with_some};
ghost use Rattle.kl_value.specs.Views.{IsCollection, as_collection, items_at, collection};
ghost use Rattle.kl_prim.specs.Arguments.{value_in};

use crate::args::Arg;
use crate::stop::PrimStop;
use kl_value::{
    Kind, NoMemory, Seq, Value, canon, cmp, dup, dup_items, into_items, into_parts, items_of,
    parts_of,
};
use std::alloc::Global;

/// Whether some item is equal to the value: looked up where the items rise, else sought from the first on.
pub fn member(v: &Value, kind: Kind, items: &[Value]) -> bool
    requires { IsCanonical (collection kind items.now) }
    ensures { result ≡ list_any (λ w. is_eq (compare w v.now)) items.now }
{
    match kind {
        Kind::Set | Kind::Bag => items.binary_search(v).is_ok(),
        Kind::List => items.contains(v),
    }
}

// The collection of items that are in its form already.
fn collected(kind: Kind, items: Vec<Value>) -> Value
    ensures { result ≡ collection kind items.items }
{
    match kind {
        Kind::Set => Value::Set(Seq::of(items)),
        Kind::Bag => Value::Bag(Seq::of(items)),
        Kind::List => Value::List(Seq::of(items)),
    }
}

// Copies of the items, after those that are there.
fn append_copies(alloc: Global, items: &[Value], into: &mut Vec<Value>) -> Result<(), NoMemory>
    ensures { OnOk result (into.new.items ≡ into.old.items ++ items.now) }
{
    into.reserve(items.len())?;
    for item in items {
        into.push(dup(alloc, item)?)?;
    }
    Ok(())
}

// An item that is at most each item.
fn least_in(items: &[Value]) -> Option<&Value>
    ensures { MatchOption result (items.now ≡ []) (λ v. Contains items.now v.now × All (λ w. is_gt (compare v.now w) ≡ false) items.now) }
{
    let mut least = items.first()?;
    for item in items {
        if cmp(item, least).is_lt() {
            least = item;
        }
    }
    Some(least)
}

// An item that is at least each item.
fn greatest_in(items: &[Value]) -> Option<&Value>
    ensures { MatchOption result (items.now ≡ []) (λ v. Contains items.now v.now × All (λ w. is_gt (compare w v.now) ≡ false) items.now) }
{
    let mut greatest = items.first()?;
    for item in items {
        if cmp(item, greatest).is_gt() {
            greatest = item;
        }
    }
    Some(greatest)
}

// Of rising items the least is the first.
fn least_of(kind: Kind, items: &[Value]) -> Option<&Value>
    requires { IsCanonical (collection kind items.now) }
    ensures { option_copied result ≡ extreme is_le items.now }
{
    match kind {
        Kind::Set | Kind::Bag => items.first(),
        Kind::List => least_in(items),
    }
}

fn greatest_of(kind: Kind, items: &[Value]) -> Option<&Value>
    requires { IsCanonical (collection kind items.now) }
    ensures { option_copied result ≡ extreme is_ge items.now }
{
    match kind {
        Kind::Set | Kind::Bag => items.last(),
        Kind::List => greatest_in(items),
    }
}

// The collection of a copy of the item, if there is one.
fn alone(alloc: Global, kind: Kind, item: Option<&Value>) -> Result<Value, PrimStop>
    ensures { AnswersMeaning (gives (collection kind (alone (option_copied item.entry)))) result }
{
    let mut items = Vec::new(alloc);
    if let Some(item) = item {
        items.push(dup(alloc, item)?)?;
    }
    Ok(collected(kind, items))
}

/// The collection of the least item alone, or of none.
pub fn least(alloc: Global, kind: Kind, items: &[Value]) -> Result<Value, PrimStop>
    requires { IsCanonical (collection kind items.now) }
    ensures { AnswersMeaning (gives (collection kind (alone (extreme is_le items.now)))) result }
{
    alone(alloc, kind, least_of(kind, items))
}

/// The collection of the greatest item alone, or of none.
pub fn greatest(alloc: Global, kind: Kind, items: &[Value]) -> Result<Value, PrimStop>
    requires { IsCanonical (collection kind items.now) }
    ensures { AnswersMeaning (gives (collection kind (alone (extreme is_ge items.now)))) result }
{
    alone(alloc, kind, greatest_of(kind, items))
}

/// The items of the items of a collection that is lent, in order, as a collection of the same kind.
pub fn flatten_lent(alloc: Global, kind: Kind, items: &[Value]) -> Result<Value, PrimStop>
    requires { All (λ v. IsSome (items_at kind v)) items.now }
    ensures { AnswersMeaning (with_some (all_some (items_at kind) items.now)
        (λ lists. gives (canonical kind (flat_map (λ vs. vs) lists)))) result }
{
    let mut all = Vec::new(alloc);
    for item in items {
        append_copies(alloc, items_of(kind, item), &mut all)?;
    }
    Ok(canon(kind, all)?)
}

/// The same of one that is handed over, whose items are kept.
pub fn flatten_owned(alloc: Global, kind: Kind, items: Vec<Value>) -> Result<Value, PrimStop>
    requires { All (λ v. IsSome (items_at kind v)) items.items }
    ensures { AnswersMeaning (with_some (all_some (items_at kind) items.items)
        (λ lists. gives (canonical kind (flat_map (λ vs. vs) lists)))) result }
{
    Ok(canon(kind, joined(alloc, kind, items)?)?)
}

fn joined(alloc: Global, kind: Kind, items: Vec<Value>) -> Result<Vec<Value>, NoMemory>
    requires { All (λ v. IsSome (items_at kind v)) items.items }
    ensures { IfOk result (λ all. all.items ≡ flat_map (listed kind) items.items) }
{
    let mut all = Vec::new(alloc);
    for item in items {
        all.append(&mut into_items(kind, item))?;
    }
    Ok(all)
}

/// The kind and the items of a collection: copies where it is lent.
pub fn taken(alloc: Global, arg: Arg<'_>) -> Result<(Kind, Vec<Value>), NoMemory>
    requires { IsCollection (value_in arg) }
    ensures { IfOk result (λ parts. value_in arg.entry ≡ collection parts.0 parts.1.items) }
{
    match arg {
        Arg::Lent(v) => {
            let (kind, items) = parts_of(v);
            Ok((kind, dup_items(alloc, items)?))
        }
        Arg::Owned(v) => Ok(into_parts(v)),
    }
}

/// The collection of another kind with the items of one of a kind. Items that are in order already are not sorted.
pub fn convert(kind: Kind, items: Vec<Value>, into: Kind) -> Result<Value, PrimStop>
    requires { IsCanonical (collection kind items.items) }
    ensures { AnswersMeaning (gives (canonical into items.items)) result }
{
    let mut items = items;
    match into {
        Kind::Set => match kind {
            Kind::Set => Ok(Value::Set(Seq::of(items))),
            Kind::Bag => {
                items.dedup();
                Ok(Value::Set(Seq::of(items)))
            }
            Kind::List => Ok(canon(into, items)?),
        },
        Kind::Bag => match kind {
            Kind::Set | Kind::Bag => Ok(Value::Bag(Seq::of(items))),
            Kind::List => Ok(canon(into, items)?),
        },
        Kind::List => Ok(Value::List(Seq::of(items))),
    }
}

/// The collection of so many items of an argument, from the first on. Of a collection that is lent they alone are copied.
pub fn first_items(alloc: Global, arg: Arg<'_>, number: usize) -> Result<Value, PrimStop>
    requires { IsCollection (value_in arg) }
    ensures { AnswersMeaning (with_some (as_collection (value_in arg.entry))
        (λ c. gives (collection c.kind (take number c.items)))) result }
{
    match arg {
        Arg::Lent(v) => {
            let (kind, items) = parts_of(v);
            let number = number.min(items.len());
            Ok(collected(kind, dup_items(alloc, &items[..number])?))
        }
        Arg::Owned(v) => {
            let (kind, items) = into_parts(v);
            let mut items = items;
            items.truncate(number);
            Ok(collected(kind, items))
        }
    }
}
