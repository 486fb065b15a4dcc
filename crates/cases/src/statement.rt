//! Statements asked of a server of SQL.
ghost use Rattle.std.specs.Prelude.{◌≡◌, ◌<◌, IfOk, IsSome};
ghost use Rattle.kl_ask.specs.Driver.{CanStart};
ghost use Rattle.kl_outside.specs.Files.{NoneOpen};
ghost use Rattle.kl_outside.specs.Memory.{files_state};

use crate::case::{find, is_among, items_at, read_fields, text_at};
use anyhow::{Context, Result, bail, ensure};
use kl_ask::{Ask, Driver};
use kl_exchange::print;
use kl_outside::{MemFiles, MemSink, write_whole};
use kl_sqlserve::SqlServer;
use kl_type::read_type;
use kl_value::{Kind, Label, Text, Value, canon};
use std::alloc::Global;

/// A statement that is asked of a server. It is a record with the field `statement`, each of whose other fields may be left out.
///
/// - `shows`: what it shows, for who reads that it differs.
/// - `tables`: a list of records `[name="t", type="{[a: int]}", text=..]`, what is attached and the bytes of its file.
/// - `statement`: its text.
/// - `hands`: the bag of the rows that it hands, in whatever order. Where it is left out, the statement may not be asked.
///
/// Texts are as in the cases of the top call. It is asked eight times, and its rows are pulled one at once, two at once, and
/// so on.
#[derive(Drop)]
pub struct Statement {
    shows: Vec<u8>,
    tables: Vec<Table>,
    text: Vec<u8>,
}

// A table that is attached, and the bytes of its file.
#[derive(Drop)]
struct Table {
    name: Label,
    ty: Vec<u8>,
    bytes: Vec<u8>,
}

// The fields of a statement, and those of a table.
const LABELS: [&[u8]; 4] = [b"shows", b"tables", b"statement", b"hands"];

const TABLE_LABELS: [&[u8]; 3] = [b"name", b"type", b"text"];

// How many rows are pulled at once, in the last turn.
const MOST: u32 = 8;

/// Whether a case is a statement that is asked of a server, and none of the top call.
pub fn is_statement(value: &Value) -> bool {
    match value {
        Value::Rec(fields) => find(fields.slice(), b"statement").is_some(),
        _ => false,
    }
}

/// Asks a statement, in each turn of a server of its own, and answers a line on the first turn that differs, or none.
///
/// # Errors
/// What is wrong with the case, and want of memory.
pub fn try_statement(alloc: Global, value: &Value) -> Result<Option<Vec<u8>>> {
    let fields = read_fields(value)?;
    let case = read_statement(alloc, fields)?;
    let hands = find(fields, b"hands");
    for turn in 0..MOST {
        let most = turn + 1;
        let came = ask(alloc, &case, most)?;
        if !is_same(hands, &came) {
            return Ok(Some(line_of(alloc, &case, most, &came)?));
        }
    }
    Ok(None)
}

/// Whether what was wanted came, or none where none was.
pub fn is_same(wanted: Option<&Value>, came: &Option<Value>) -> bool {
    match (wanted, came) {
        (Some(wanted), Some(came)) => wanted == came,
        (None, None) => true,
        _ => false,
    }
}

fn read_statement(alloc: Global, fields: &[(Label, Value)]) -> Result<Statement> {
    for (label, _) in fields {
        ensure!(
            is_among(label.slice(), &LABELS),
            "a statement has no such field"
        );
    }
    let shows = text_at(alloc, fields, b"shows")?;
    let text = text_at(alloc, fields, b"statement")?;
    let tables = read_tables(alloc, items_at(fields, b"tables")?)?;
    Ok(Statement {
        shows,
        tables,
        text,
    })
}

fn read_tables(alloc: Global, items: &[Value]) -> Result<Vec<Table>> {
    let mut tables = Vec::new(alloc);
    for item in items {
        tables.push(read_table(alloc, read_fields(item)?)?)?;
    }
    Ok(tables)
}

fn read_table(alloc: Global, fields: &[(Label, Value)]) -> Result<Table> {
    for (label, _) in fields {
        ensure!(
            is_among(label.slice(), &TABLE_LABELS),
            "a table has no such field"
        );
    }
    let name = text_at(alloc, fields, b"name")?;
    let name = Label::new(alloc, &name)?.context("a table has a word as its name")?;
    let ty = text_at(alloc, fields, b"type")?;
    let bytes = text_at(alloc, fields, b"text")?;
    Ok(Table { name, ty, bytes })
}

// The bag of the rows that a statement hands, so many at once; none where it may not be asked.
fn ask(alloc: Global, case: &Statement, most: u32) -> Result<Option<Value>>
    requires { 0 < most }
{
    let mut server = SqlServer::new(alloc, files_of(alloc, &case.tables)?);
    for table in &case.tables {
        attach(alloc, &mut server, table)?;
    }
    match server.ask_of(alloc, &case.text)? {
        Some(ask) => Ok(Some(pull_all(alloc, &mut server, &ask, most)?)),
        None => Ok(None),
    }
}

// The files of tables, each under the name of its table.
fn files_of(alloc: Global, tables: &[Table]) -> Result<MemFiles>
    ensures { IfOk result (λ f. NoneOpen (files_state f)) }
{
    let mut entries = Vec::new(alloc);
    for table in tables {
        let bytes = Vec::from_slice(alloc, &table.bytes)?;
        entries.push((path_of(alloc, table)?, Text::of(bytes)))?;
    }
    Ok(MemFiles::new(alloc, entries))
}

fn path_of(alloc: Global, table: &Table) -> Result<Text> {
    Ok(Text::of(Vec::from_slice(alloc, table.name.slice())?))
}

fn attach(alloc: Global, server: &mut SqlServer<MemFiles>, table: &Table) -> Result<()> {
    let Ok(ty) = read_type(alloc, &table.ty) else {
        bail!("a table has a type");
    };
    if !server.suits(&ty) {
        bail!("no type of tables");
    }
    if server.is_attached(&table.name) {
        bail!("a name twice");
    }
    let path = path_of(alloc, table)?;
    match server.attach(&table.name, &path, &ty) {
        Ok(_) => Ok(()),
        Err(_) => bail!("no table"),
    }
}

// Starts an ask, and gathers its rows in a bag.
fn pull_all<D: Driver>(alloc: Global, driver: &mut D, ask: &Ask, most: u32) -> Result<Value>
    requires may { CanStart (D.state driver.old) ask.now }
    requires some { 0 < most }
{
    let Ok(cursor) = driver.start(ask) else {
        bail!("no cursor");
    };
    let mut rows = Vec::new(alloc);
    'pulls: for _ in 0..u64::MAX {
        if !pull_some(driver, cursor, most, &mut rows)? {
            break;
        }
    }
    driver.finish(cursor);
    Ok(canon(Kind::Bag, rows)?)
}

// Whether there were rows. The cursor stays open.
fn pull_some<D: Driver>(
    driver: &mut D,
    cursor: u64,
    most: u32,
    rows: &mut Vec<Value>,
) -> Result<bool>
    requires open { IsSome ((D.state driver.old).cursors cursor) }
    requires some { 0 < most }
    ensures { IfOk result (λ some. IsSome ((D.state driver.new).cursors cursor)) }
{
    match driver.pull(cursor, most, rows) {
        Ok(true) => Ok(true),
        Ok(false) => Ok(false),
        Err(_) => bail!("a row is not read"),
    }
}

// What came, of a statement that differs.
fn line_of(alloc: Global, case: &Statement, most: u32, came: &Option<Value>) -> Result<Vec<u8>> {
    let mut line = MemSink::new(alloc);
    put(&mut line, &case.shows)?;
    let front = format!(in alloc; ": {most} at once: ")?;
    put(&mut line, front.as_bytes())?;
    match came {
        Some(rows) => print(rows, &mut line)?,
        None => put(&mut line, b"may not be asked")?,
    }
    put(&mut line, b"\n")?;
    Ok(Vec::from_slice(alloc, line.bytes())?)
}

pub fn put(line: &mut MemSink, bytes: &[u8]) -> Result<()> {
    write_whole(line, bytes).ok().context("out of memory")
}
