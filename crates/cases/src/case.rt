//! What a case says.

use anyhow::{Result, bail, ensure};
use kl_ask::JoinRun;
use kl_value::{Label, Text, Value};
use std::alloc::Global;

/// A case is a record, each of whose fields may be left out.
///
/// - `shows`: what it shows, for who reads that it differs.
/// - `words`: the list of the words.
/// - `files`: a list of records `[path="p.cpl", text=..]`.
/// - `status`: how the call ends, 0 if it is left out.
/// - `out` and `err`: what they took, nothing if it is left out. `front` in place of `out`: of what `out` took this is
///   the page, and it took a front of it.
/// - `joins`: the executions of joins that the trace tells, a list of records `[join=0, outer=7, starts=3]`; any if it is left out.
/// - `piece`: how many bytes of a piece `out` and `err` take at most; all if it is left out.
/// - `changes`: a list of records `[path="r.kx", opening=2, text=..]`: from that opening on, counted from 1, the path has this
///   text. The call and the drivers of tables, of files of values and of SQL read the same files, which change for each of
///   them alike, but each counts its own openings.
/// - `files_fail`, `flat_fails`, `nested_fails`, `sql_fails`, `out_fails`, `err_fails`: lists of the calls that fail,
///   counted from 1. Here too each counts its own calls.
/// - `turns`: `<files=3>` has the case run three times, where one call of files fails each time, from the first to the
///   third. So do `<flat=3>`, `<nested=3>` and `<sql=3>` with a driver's files, and `<out=3>` and `<err=3>` with writes.
/// - `every`: `<files="{1}\n">` has the case run with a call of files that fails, from the first on, until a run ends well: with
///   status 0, this text on `out` and nothing on `err`. At least one run comes before it, and each ends as the case says.
///   So do `<flat=..>`, `<nested=..>`, `<sql=..>`, `<out=..>` and `<err=..>`. It takes the place of `turns`.
///
/// A text is a text, or a list of parts one behind the other: each a text, or a record `[text="{", times=256]`.
#[derive(Drop)]
pub struct Case {
    pub shows: Vec<u8>,
    pub given: Given,
    pub wanted: Wanted,
    pub last: Option<Wanted>,
}

/// What the top call is given.
#[derive(Drop)]
pub struct Given {
    pub words: Vec<String>,
    pub files: Vec<(Text, Text)>,
    pub changes: Vec<Change>,
    pub piece: usize,
    pub fails: Fails,
    pub turns: Turns,
}

/// What a path has from one of its openings on, counted from 1.
#[derive(Drop)]
pub struct Change {
    pub path: Text,
    pub opening: u64,
    pub text: Text,
}

/// What it is to answer.
#[derive(Drop)]
pub struct Wanted {
    pub status: i64,
    pub out: Took,
    pub err: Took,
    pub joins: Option<Vec<JoinRun>>,
}

impl Wanted {
    pub fn fits(&self, status: i64, joins: &[JoinRun], out: &[u8], err: &[u8]) -> bool {
        status == self.status && self.fits_joins(joins) && self.out.fits(out) && self.err.fits(err)
    }

    fn fits_joins(&self, joins: &[JoinRun]) -> bool {
        match &self.joins {
            Some(wanted) => wanted.as_slice() == joins,
            None => true,
        }
    }
}

/// What a sink is to have taken.
#[derive(Drop)]
pub enum Took {
    All(Vec<u8>),
    Front(Vec<u8>),
}

impl Took {
    pub fn fits(&self, bytes: &[u8]) -> bool {
        match self {
            Took::All(all) => all.as_slice() == bytes,
            Took::Front(page) => page.as_slice().starts_with(bytes),
        }
    }
}

/// Which calls fail, counted from 1.
#[derive(Drop)]
pub struct Fails {
    pub files: Vec<u64>,
    pub flat: Vec<u64>,
    pub nested: Vec<u64>,
    pub sql: Vec<u64>,
    pub out: Vec<u64>,
    pub err: Vec<u64>,
}

/// How often the case is run with one more call that fails, each time the next one.
#[derive(Clone, Copy)]
pub struct Turns {
    pub of: Side,
    pub count: u64,
}

/// Whose calls fail in turn.
#[derive(Clone, Copy, PartialEq, Eq)]
pub enum Side {
    Files,
    Flat,
    Nested,
    Sql,
    Out,
    Err,
}

// The fields of a case.
const LABELS: [&[u8]; 18] = [
    b"shows",
    b"words",
    b"files",
    b"status",
    b"out",
    b"front",
    b"err",
    b"joins",
    b"piece",
    b"changes",
    b"files_fail",
    b"flat_fails",
    b"nested_fails",
    b"sql_fails",
    b"out_fails",
    b"err_fails",
    b"turns",
    b"every",
];

// How many turns a case has at most that is run until a run ends well.
const MOST_TURNS: u64 = 4096;

/// The case that a record tells.
///
/// # Errors
/// What is wrong with the record: it is none, lacks a field, has one that no case has, or one of another type.
pub fn read_case(alloc: Global, value: &Value) -> Result<Case> {
    let fields = read_fields(value)?;
    for (label, _) in fields {
        ensure!(is_among(label.slice(), &LABELS), "a case has no such field");
    }
    let shows = text_at(alloc, fields, b"shows")?;
    let given = read_given(alloc, fields)?;
    let wanted = read_wanted(alloc, fields)?;
    let last = read_last(alloc, fields)?;
    Ok(Case {
        shows,
        given,
        wanted,
        last,
    })
}

pub fn is_among(label: &[u8], labels: &[&[u8]]) -> bool {
    for known in labels {
        if *known == label {
            return true;
        }
    }
    false
}

fn read_given(alloc: Global, fields: &[(Label, Value)]) -> Result<Given> {
    let piece = read_piece(fields)?;
    let turns = read_turns(fields)?;
    let words = read_words(alloc, items_at(fields, b"words")?)?;
    let files = read_files(alloc, items_at(fields, b"files")?)?;
    let changes = read_changes(alloc, items_at(fields, b"changes")?)?;
    let fails = read_fails(alloc, fields)?;
    Ok(Given {
        words,
        files,
        changes,
        piece,
        fails,
        turns,
    })
}

fn read_wanted(alloc: Global, fields: &[(Label, Value)]) -> Result<Wanted> {
    let status = match find(fields, b"status") {
        Some(status) => read_int(status)?,
        None => 0,
    };
    let err = Took::All(text_at(alloc, fields, b"err")?);
    let out = match find(fields, b"front") {
        Some(page) => Took::Front(read_text(alloc, page)?),
        None => Took::All(text_at(alloc, fields, b"out")?),
    };
    let joins = match find(fields, b"joins") {
        Some(joins) => Some(read_joins(alloc, read_items(joins)?)?),
        None => None,
    };
    Ok(Wanted {
        status,
        out,
        err,
        joins,
    })
}

// What the run that ends well is to answer, where a case is run until one does.
fn read_last(alloc: Global, fields: &[(Label, Value)]) -> Result<Option<Wanted>> {
    let Some(every) = find(fields, b"every") else {
        return Ok(None);
    };
    let Value::Inj(_, page) = every else {
        bail!("what fails until a run ends well is a variant");
    };
    Ok(Some(Wanted {
        status: 0,
        out: Took::All(read_text(alloc, page.get())?),
        err: Took::All(Vec::new(alloc)),
        joins: None,
    }))
}

fn read_joins(alloc: Global, items: &[Value]) -> Result<Vec<JoinRun>> {
    let mut joins = Vec::new(alloc);
    for item in items {
        joins.push(read_join(read_fields(item)?)?)?;
    }
    Ok(joins)
}

fn read_join(fields: &[(Label, Value)]) -> Result<JoinRun> {
    let (Some(join), Some(outer), Some(starts)) = (
        find(fields, b"join"),
        find(fields, b"outer"),
        find(fields, b"starts"),
    ) else {
        bail!("the number of a join, its outer rows and its starts are wanted");
    };
    Ok(JoinRun {
        join: u32::try_from(read_int(join)?)?,
        outer: u64::try_from(read_int(outer)?)?,
        starts: u64::try_from(read_int(starts)?)?,
    })
}

fn read_piece(fields: &[(Label, Value)]) -> Result<usize> {
    match find(fields, b"piece") {
        Some(piece) => Ok(usize::try_from(read_int(piece)?)?),
        None => Ok(usize::MAX),
    }
}

fn read_fails(alloc: Global, fields: &[(Label, Value)]) -> Result<Fails> {
    let files = read_calls(alloc, items_at(fields, b"files_fail")?)?;
    let flat = read_calls(alloc, items_at(fields, b"flat_fails")?)?;
    let nested = read_calls(alloc, items_at(fields, b"nested_fails")?)?;
    let sql = read_calls(alloc, items_at(fields, b"sql_fails")?)?;
    let out = read_calls(alloc, items_at(fields, b"out_fails")?)?;
    let err = read_calls(alloc, items_at(fields, b"err_fails")?)?;
    Ok(Fails {
        files,
        flat,
        nested,
        sql,
        out,
        err,
    })
}

fn read_turns(fields: &[(Label, Value)]) -> Result<Turns> {
    if let Some(Value::Inj(label, _)) = find(fields, b"every") {
        let of = read_side(label.slice())?;
        return Ok(Turns {
            of,
            count: MOST_TURNS,
        });
    }
    let Some(turns) = find(fields, b"turns") else {
        return Ok(Turns {
            of: Side::Files,
            count: 0,
        });
    };
    let Value::Inj(label, count) = turns else {
        bail!("turns are a variant");
    };
    let count = u64::try_from(read_int(count.get())?)?;
    let of = read_side(label.slice())?;
    Ok(Turns { of, count })
}

fn read_side(label: &[u8]) -> Result<Side> {
    if label == b"files".as_slice() {
        Ok(Side::Files)
    } else if label == b"flat".as_slice() {
        Ok(Side::Flat)
    } else if label == b"nested".as_slice() {
        Ok(Side::Nested)
    } else if label == b"sql".as_slice() {
        Ok(Side::Sql)
    } else if label == b"out".as_slice() {
        Ok(Side::Out)
    } else if label == b"err".as_slice() {
        Ok(Side::Err)
    } else {
        bail!("no such turns")
    }
}

fn read_words(alloc: Global, items: &[Value]) -> Result<Vec<String>> {
    let mut words = Vec::new(alloc);
    for word in items {
        let bytes = read_text(alloc, word)?;
        words.push(String::from_utf8(bytes)?)?;
    }
    Ok(words)
}

fn read_calls(alloc: Global, items: &[Value]) -> Result<Vec<u64>> {
    let mut calls = Vec::new(alloc);
    for call in items {
        calls.push(u64::try_from(read_int(call)?)?)?;
    }
    Ok(calls)
}

fn read_files(alloc: Global, items: &[Value]) -> Result<Vec<(Text, Text)>> {
    let mut files = Vec::new(alloc);
    for file in items {
        files.push(read_file(alloc, read_fields(file)?)?)?;
    }
    Ok(files)
}

fn read_file(alloc: Global, fields: &[(Label, Value)]) -> Result<(Text, Text)> {
    let path = text_at(alloc, fields, b"path")?;
    let text = text_at(alloc, fields, b"text")?;
    Ok((Text::of(path), Text::of(text)))
}

fn read_changes(alloc: Global, items: &[Value]) -> Result<Vec<Change>> {
    let mut changes = Vec::new(alloc);
    for item in items {
        changes.push(read_change(alloc, read_fields(item)?)?)?;
    }
    Ok(changes)
}

fn read_change(alloc: Global, fields: &[(Label, Value)]) -> Result<Change> {
    let Some(opening) = find(fields, b"opening") else {
        bail!("the opening of a change is wanted");
    };
    let opening = u64::try_from(read_int(opening)?)?;
    let (path, text) = read_file(alloc, fields)?;
    Ok(Change {
        path,
        opening,
        text,
    })
}

/// What stands at a label, or none.
pub fn find<'a>(fields: &'a [(Label, Value)], name: &[u8]) -> Option<&'a Value> {
    for field in fields {
        if field.0.slice() == name {
            return Some(&field.1);
        }
    }
    None
}

/// The text at a label; the empty one where there is none.
pub fn text_at(alloc: Global, fields: &[(Label, Value)], name: &[u8]) -> Result<Vec<u8>> {
    match find(fields, name) {
        Some(text) => read_text(alloc, text),
        None => Ok(Vec::new(alloc)),
    }
}

/// The items of the list at a label; none where there is no list.
pub fn items_at<'a>(fields: &'a [(Label, Value)], name: &[u8]) -> Result<&'a [Value]> {
    match find(fields, name) {
        Some(items) => read_items(items),
        None => Ok(&[]),
    }
}

pub fn read_fields(value: &Value) -> Result<&[(Label, Value)]> {
    match value {
        Value::Rec(fields) => Ok(fields.slice()),
        _ => bail!("a record is wanted"),
    }
}

fn read_items(value: &Value) -> Result<&[Value]> {
    match value {
        Value::List(items) => Ok(items.slice()),
        _ => bail!("a list is wanted"),
    }
}

fn read_int(value: &Value) -> Result<i64> {
    match value {
        Value::Int(number) => Ok(*number),
        _ => bail!("a number is wanted"),
    }
}

fn read_text(alloc: Global, value: &Value) -> Result<Vec<u8>> {
    let mut text = Vec::new(alloc);
    match value {
        Value::List(parts) => {
            for part in parts.slice() {
                add_part(part, &mut text)?;
            }
        }
        _ => add_part(value, &mut text)?,
    }
    Ok(text)
}

fn add_part(part: &Value, text: &mut Vec<u8>) -> Result<()> {
    match part {
        Value::Text(part) => text.extend_from_slice(part.slice())?,
        Value::Rec(fields) => add_times(fields.slice(), text)?,
        _ => bail!("a text is wanted"),
    }
    Ok(())
}

fn add_times(fields: &[(Label, Value)], text: &mut Vec<u8>) -> Result<()> {
    let (Some(Value::Text(part)), Some(Value::Int(times))) = (
        find(fields, b"text"),
        find(fields, b"times"),
    ) else {
        bail!("a text and how often it stands are wanted");
    };
    for _ in 0..*times {
        text.extend_from_slice(part.slice())?;
    }
    Ok(())
}
