//! Measures values, texts of them and tables.
//!
//! `measure STEP N` builds N records `[title, vol, year]`; with STEP `copy` it copies them, and with STEP `sort` it makes
//! the set of them. With STEP `groups` it makes the set of N records `[group, number, title]` in 100 groups. It prints how
//! many records there are and the size of a field, and on the stream of errors the time of the step alone, in
//! milliseconds; memory is the system's to tell.
//!
//! `measure show FILE` does what `kleisli show` does: it prints the items of a file of nested values; `measure read FILE`
//! only reads them. `measure scan FILE` attaches a file of sets of texts at the driver of such files, and pulls its rows.
//!
//! `measure sql STATEMENT (NAME TYPE FILE)..` attaches tables under these names at a server of SQL, asks it the statement, and
//! pulls the rows. It prints how many there are, and on the stream of errors the milliseconds from the ask to the last row.
//!
//! `measure records FILE` reads a file and its records by `csv`, and `measure table FILE TYPE` reads it as a table of a
//! type, into columns. They print how many records or rows there are, and on the stream of errors the milliseconds, and
//! for a table the pages of memory that the system counts for the program, before and while it is held.
#![tactic(auto)]

mod items;
mod scans;
mod statements;
mod tables;

use anyhow::{Context, Result};
use kl_value::{Fields, Kind, Label, NoMemory, Text, Value, canon, dup};
use std::alloc::Global;
use std::env;
use std::mem::size_of;
use std::time::Instant;

// The labels of the records, which share them.
#[derive(Drop)]
struct Labels {
    group: Label,
    number: Label,
    title: Label,
    vol: Label,
    year: Label,
}

#[derive(Clone, Copy)]
enum Shape {
    Titled,
    Grouped,
}

fn main(rt: HostRuntime) -> Result<()> {
    let mut words = env::args(&rt)?;
    let _name = words.next();
    let step = words.next().context("no step")?;
    let word = words.next().context("no number or file")?;
    match step.as_str() {
        "show" => items::show(rt, word.as_bytes()),
        "read" => items::read(rt, word.as_bytes()),
        "scan" => scans::scan(rt, &word),
        "sql" => statements::sql(rt, &word, &mut words),
        "records" => tables::records(rt, &word),
        "table" => tables::table(rt, &word, &words.next().context("no type")?),
        _ => measure(rt, step.as_str(), word.parse::<u32>()?),
    }
}

fn measure(rt: HostRuntime, step: &str, count: u32) -> Result<()> {
    let alloc = rt.alloc();
    let records = match step {
        "groups" => build(alloc, count, Shape::Grouped)?,
        _ => build(alloc, count, Shape::Titled)?,
    };
    let start = Instant::now(&rt)?;
    let (items, time) = match step {
        "copy" => {
            let copies = copy(alloc, &records)?;
            (copies.len(), start.elapsed(&rt)?)
        }
        "sort" | "groups" => {
            let set = canon(Kind::Set, records)?;
            (count_of(&set), start.elapsed(&rt)?)
        }
        _ => (records.len(), start.elapsed(&rt)?),
    };
    eprintln!(rt; "{} ms", time.as_millis())?;
    println!(rt;
        "{items} records, {} bytes a field",
        size_of::<(Label, Value)>()
    )?;
    Ok(())
}

fn count_of(value: &Value) -> usize {
    match value {
        Value::Set(items) => items.len(),
        _ => 0,
    }
}

fn build(alloc: Global, count: u32, shape: Shape) -> Result<Vec<Value>> {
    let labels = Labels {
        group: label(alloc, b"group")?,
        number: label(alloc, b"number")?,
        title: label(alloc, b"title")?,
        vol: label(alloc, b"vol")?,
        year: label(alloc, b"year")?,
    };
    let mut records = Vec::with_capacity(alloc, count as usize)?;
    // A step that is prime to each count makes the records come in no order.
    let mut place: u32 = 0;
    for _ in 0..count {
        place = (place % count).wrapping_add(7919) % count;
        let record = match shape {
            Shape::Titled => titled(alloc, &labels, place)?,
            Shape::Grouped => grouped(alloc, &labels, place)?,
        };
        records.push(record)?;
    }
    Ok(records)
}

fn label(alloc: Global, word: &[u8]) -> Result<Label> {
    Label::new(alloc, word)?.context("no word")
}

fn titled(alloc: Global, labels: &Labels, place: u32) -> Result<Value> {
    let title = format!(in alloc; "Locus {place}")?;
    let pairs = vec![in alloc;
        (
            labels.title.dup()?,
            Value::Text(Text::of(title.into_bytes()))
        ),
        (labels.vol.dup()?, Value::Int((place % 13) as i64)),
        (labels.year.dup()?, Value::Int(1990 + (place % 30) as i64)),
    ]?;
    Ok(Value::Rec(Fields::new(pairs)?.context("a label repeats")?))
}

fn grouped(alloc: Global, labels: &Labels, place: u32) -> Result<Value> {
    let title = format!(in alloc; "Locus {place}")?;
    let pairs = vec![in alloc;
        (labels.group.dup()?, Value::Int((place % 100) as i64)),
        (labels.number.dup()?, Value::Int(place as i64)),
        (
            labels.title.dup()?,
            Value::Text(Text::of(title.into_bytes()))
        ),
    ]?;
    Ok(Value::Rec(Fields::new(pairs)?.context("a label repeats")?))
}

fn copy(alloc: Global, records: &[Value]) -> std::result::Result<Vec<Value>, NoMemory> {
    let mut copies = Vec::with_capacity(alloc, records.len())?;
    for record in records {
        copies.push(dup(alloc, record)?)?;
    }
    Ok(copies)
}
