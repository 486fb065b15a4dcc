//! A rule of rewriting, by itself at the root of a term.
//!
//! Such a case is a record with the field `rule`, whose terms are values as `terms.rt` tells.
//!
//! - `shows`: what it shows, for who reads that it differs.
//! - `rule`: the number of the rule.
//! - `term`: the term at whose root it is tried.
//! - `gives`: the term that it makes of it. Where it is left out, the rule does not fit.
//!
//! The rule is called by its number, and by the function of its own where one has that number.
ghost use Rattle.std.specs.Prelude.{◌≡◌, ◌<◌, ◌^◌, true};
ghost use Rattle.kl_core.specs.Trees.{view};
ghost use Rattle.kl_core.specs.Counts.{nodes_of};
ghost use Rattle.kl_rules.specs.Rewriting.{IsShiftable};

use crate::case::{find, is_among, read_fields, text_at};
use crate::statement::{is_same, put};
use crate::terms::{read_term, write_term};
use anyhow::{Context, Result, bail, ensure};
use kl_base::NoMemory;
use kl_core::{Term, nodes};
use kl_exchange::print;
use kl_outside::MemSink;
use kl_rules::{
    rule, rule_1, rule_2, rule_3, rule_4, rule_5, rule_6, rule_7, rule_8, rule_9, rule_10, rule_11,
    rule_12, rule_13, rule_14, rule_15, rule_16, rule_17,
};
use kl_value::{Label, Value};
use std::alloc::Global;

// What came of the two calls.
#[derive(Drop)]
struct Came {
    by_number: Option<Value>,
    alone: Option<Value>,
}

// The fields of a case.
const LABELS: [&[u8]; 4] = [b"shows", b"rule", b"term", b"gives"];

/// Whether a case is a rule of rewriting, and none of the top call.
pub fn is_rewriting(value: &Value) -> bool {
    match value {
        Value::Rec(fields) => find(fields.slice(), b"rule").is_some(),
        _ => false,
    }
}

/// Tries a rule at the root of a term, and answers a line on what came where that is not what was wanted, or none.
///
/// # Errors
/// What is wrong with the case, and want of memory.
pub fn try_rewriting(alloc: Global, value: &Value) -> Result<Option<Vec<u8>>> {
    let fields = read_fields(value)?;
    for (label, _) in fields {
        ensure!(is_among(label.slice(), &LABELS), "a rule has no such field");
    }
    let shows = text_at(alloc, fields, b"shows")?;
    let number = read_number(fields)?;
    let written = find(fields, b"term").context("a rule is tried at a term")?;
    let came = try_term(alloc, number, written)?;
    let gives = find(fields, b"gives");
    if is_same(gives, &came.by_number) && is_same(gives, &came.alone) {
        Ok(None)
    } else {
        Ok(Some(line_of(alloc, &shows, &came)?))
    }
}

fn read_number(fields: &[(Label, Value)]) -> Result<u8> {
    match find(fields, b"rule") {
        Some(Value::Int(number)) => Ok(u8::try_from(*number)?),
        _ => bail!("a rule is a number"),
    }
}

fn try_term(alloc: Global, number: u8, written: &Value) -> Result<Came> {
    let read = read_term(alloc, written)?;
    let term = read.get();
    if !is_written(alloc, term, written)? {
        bail!("a term is written otherwise");
    }
    if !is_small(term) {
        bail!("a term is too large");
    }
    let by_number = by_number(alloc, number, term)?;
    let alone = by_itself(alloc, number, term)?;
    Ok(Came { by_number, alone })
}

// Whether the value is what writes the term.
fn is_written(alloc: Global, term: &Term, written: &Value) -> Result<bool> {
    let again = write_term(alloc, term)?;
    Ok(again == *written)
}

fn is_small(term: &Term) -> bool
    ensures { result ≡ true → nodes_of (view term.now) < 2 ^ 31 }
{
    nodes(term) < 1 << 31
}

fn by_number(alloc: Global, number: u8, term: &Term) -> Result<Option<Value>>
    requires small { IsShiftable (view term.now) }
{
    write_made(alloc, &rule(alloc, number, term)?)
}

fn by_itself(alloc: Global, number: u8, term: &Term) -> Result<Option<Value>>
    requires small { IsShiftable (view term.now) }
{
    write_made(alloc, &rule_alone(alloc, number, term)?)
}

fn rule_alone(alloc: Global, number: u8, term: &Term) -> Result<Option<Term>, NoMemory>
    requires small { IsShiftable (view term.now) }
{
    match number {
        1 => rule_1(alloc, term),
        2 => rule_2(alloc, term),
        3 => rule_3(alloc, term),
        4 => rule_4(alloc, term),
        5 => rule_5(alloc, term),
        6 => rule_6(alloc, term),
        7 => rule_7(alloc, term),
        8 => rule_8(alloc, term),
        9 => rule_9(alloc, term),
        10 => rule_10(alloc, term),
        11 => rule_11(alloc, term),
        12 => rule_12(alloc, term),
        13 => rule_13(alloc, term),
        14 => rule_14(alloc, term),
        15 => rule_15(alloc, term),
        16 => rule_16(alloc, term),
        17 => rule_17(alloc, term),
        _ => Ok(None),
    }
}

fn write_made(alloc: Global, made: &Option<Term>) -> Result<Option<Value>> {
    match made {
        Some(term) => Ok(Some(write_term(alloc, term)?)),
        None => Ok(None),
    }
}

// What came, of a case that differs.
fn line_of(alloc: Global, shows: &[u8], came: &Came) -> Result<Vec<u8>> {
    let mut line = MemSink::new(alloc);
    put(&mut line, shows)?;
    put(&mut line, b": by its number: ")?;
    put_made(&mut line, &came.by_number)?;
    put(&mut line, b", by itself: ")?;
    put_made(&mut line, &came.alone)?;
    put(&mut line, b"\n")?;
    Ok(Vec::from_slice(alloc, line.bytes())?)
}

fn put_made(line: &mut MemSink, made: &Option<Value>) -> Result<()> {
    match made {
        Some(made) => print(made, line)?,
        None => put(line, b"does not fit")?,
    }
    Ok(())
}
