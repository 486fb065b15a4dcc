use kl_value::{
    Box, Fields, Kind, Label, Text, Value, bool_of, bytes_of, canon, cmp, depth, dup, dup_items,
    int_of,
};
use std::alloc::Global;
use std::cmp::Ordering;
use std::test::Fail;

pub fn label(alloc: Global, word: &[u8]) -> Result<Label, Fail> {
    Ok(Label::new(alloc, word)?.ok_or("no word")?)
}

fn text(alloc: Global, bytes: &[u8]) -> Result<Value, Fail> {
    Ok(Value::Text(Text::of(Vec::from_slice(alloc, bytes)?)))
}

pub fn field(alloc: Global, word: &[u8], value: Value) -> Result<(Label, Value), Fail> {
    Ok((label(alloc, word)?, value))
}

// `[name=NAME, year=YEAR]`
fn record(alloc: Global, name: &[u8], year: i64) -> Result<Value, Fail> {
    let mut pairs = Vec::new(alloc);
    pairs.push(field(alloc, b"year", Value::Int(year))?)?;
    pairs.push(field(alloc, b"name", text(alloc, name)?)?)?;
    Ok(Value::Rec(Fields::new(pairs)?.ok_or("a label repeats")?))
}

fn add(alloc: Global, items: &mut Vec<Value>, name: &[u8], year: i64) -> Result<(), Fail> {
    Ok(items.push(record(alloc, name, year)?)?)
}

// Three records, two of them twice, the greatest first.
fn records(alloc: Global) -> Result<Vec<Value>, Fail> {
    let mut items = Vec::new(alloc);
    add(alloc, &mut items, b"Loci", 1988)?;
    add(alloc, &mut items, b"Genes", 1994)?;
    add(alloc, &mut items, b"Genes", 1990)?;
    add(alloc, &mut items, b"Genes", 1994)?;
    add(alloc, &mut items, b"Loci", 1988)?;
    Ok(items)
}

fn size(v: &Value) -> usize {
    match v {
        Value::Set(items) => items.len(),
        _ => 0,
    }
}

fn bag(alloc: Global) -> Result<Value, Fail> {
    let items = records(alloc)?;
    Ok(canon(Kind::Bag, dup_items(alloc, &items)?)?)
}

fn set(alloc: Global) -> Result<Value, Fail> {
    Ok(canon(Kind::Set, records(alloc)?)?)
}

fn is_set_of_three(set: &Value) -> bool {
    depth(set) == 2 && size(set) == 3
}

#[test]
fn a_set_is_sorted_without_repeats(rt: HostRuntime) -> Result<(), Fail> {
    let bag = bag(rt.alloc())?;
    let set = set(rt.alloc())?;
    assert!(rt; is_set_of_three(&set));
    assert!(rt; cmp(&set, &bag) == Ordering::Less);
    Ok(())
}

#[test]
fn a_value_without_parts_is_read(rt: HostRuntime) {
    assert!(rt; bool_of(&Value::Bool(true)));
    assert!(rt; int_of(&Value::Int(7)) == 7);
}

#[test]
fn a_text_is_read(rt: HostRuntime) -> Result<(), Fail> {
    let text = Value::Text(Text::of(Vec::from_slice(rt.alloc(), b"gene")?));
    assert!(rt; bytes_of(&text).len() == 4);
    Ok(())
}

// `<c="gene">`
fn variant(alloc: Global) -> Result<Value, Fail> {
    let label = label(alloc, b"c")?;
    Ok(Value::Inj(label, Box::new(alloc, text(alloc, b"gene")?)?))
}

#[test]
fn a_value_is_copied(rt: HostRuntime) -> Result<(), Fail> {
    let alloc = rt.alloc();
    let variant = variant(alloc)?;
    assert!(rt; dup(alloc, &variant)? == variant);
    Ok(())
}
