//! Reads a table.
ghost use Rattle.std.specs.Prelude.{◌≡◌, ◌≢◌, ◌∷◌, ℕ, [], true, false, map, IfOk, IsTrue, MatchOption, Some};
ghost use Rattle.std.specs.List.{AllByRecursion, list_all};
ghost use Rattle.csv.specs.Records.{field_at, fields_of};
ghost use Rattle.kl_type.specs.Ground.{IsProper, ground_of};
ghost use Rattle.kl_ask.specs.Asks.{item_of};
ghost use Rattle.kl_outcome.specs.Typed.{Inhabits};
ghost use Rattle.kl_flat.specs.ColumnTable.{rows_of};
ghost use Rattle.kl_ask.specs.Tables.{columns_of};
ghost use Rattle.kl_flat.specs.Columns.{is_base, is_table_type};
ghost use Rattle.kl_flat.specs.Filling.{AddsRecord, AreLevel};
ghost use Rattle.kl_flat.specs.Held.{columns_in};
ghost use Rattle.kl_flat.specs.Places.{ArePlaces};
ghost use Rattle.kl_flat.specs.Records.{IsPlain, records_left};
ghost use Rattle.kl_flat.specs.Table.{bad_in, bad_record, first_missing, front_of, is_header, row_in, rows_in, table_rows, times};

use crate::column_table::ColumnTable;
use crate::held::{Cells, Column};
use crate::records::{next_record, reader};
use csv::{ByteRecord, Reader};
use kl_ask::columns_of;
use kl_base::{Label, NoMemory, Seq};
use kl_type::Ty;
use kl_value::{Items, Value};
use std::alloc::Global;

/// The rows of a table before its first bad record, and that record's number, if there is one. The header is number 0.
#[derive(Drop, PartialEq, Eq)]
pub struct Table {
    pub rows: Items,
    pub bad: Option<u64>,
}

/// The same with the rows in columns.
#[derive(Drop)]
pub struct TableFront {
    pub table: ColumnTable,
    pub bad: Option<u64>,
}

/// Reads the rows of a table, whose first record is its header, as items of a collection type.
///
/// One UTF-8 byte order mark at the very start is no part of the table; behind a second one there is no record. The
/// records are those of `csv` with its defaults: fields are quoted as in RFC 4180, and empty lines are left out. Record
/// 0 is bad where there is no header, or where a label of the type does not stand in it exactly once; other columns are
/// ignored. A record of another length than the header is bad, and one with a cell that has no value of its column's
/// type: an integer is an optional `-` and digits within 64 bits, with spaces and tabs around it; a truth value is
/// `true` or `false`; a text is any bytes.
///
/// # Errors
/// Want of memory.
pub fn read_table(alloc: Global, bytes: &[u8], ty: &Ty) -> Result<Table, NoMemory>
    requires suits { IsTrue (is_table_type ty.now) }
    requires proper { IsProper ty.now }
    ensures rows { IfOk result (λ t. t.rows ≡ table_rows bytes.now ty.now) }
    ensures bad { IfOk result (λ t. t.bad ≡ bad_record bytes.now ty.now) }
    ensures typed { IfOk result (λ t. AllByRecursion (Inhabits (item_of (ground_of ty.now))) t.rows) }
{
    let front = read_columns(alloc, bytes, ty)?;
    let rows = all_rows(alloc, &front.table)?;
    Ok(Table {
        rows: Seq::of(rows),
        bad: front.bad,
    })
}

// The rows of a table, made one by one.
fn all_rows(alloc: Global, table: &ColumnTable) -> Result<Vec<Value>, NoMemory>
    ensures { IfOk result (λ rows. rows.items ≡ rows_of table.now) }
{
    let mut rows = Vec::with_capacity(alloc, table.len())?;
    for at in 0..table.len() {
        rows.push(table.whole_row(alloc, at)?)?;
    }
    Ok(rows)
}

/// Reads a table as `read_table` does, into columns.
///
/// # Errors
/// Want of memory.
pub fn read_columns(alloc: Global, bytes: &[u8], ty: &Ty) -> Result<TableFront, NoMemory>
    requires { IsTrue (is_table_type ty.now) }
    ensures rows { IfOk result (λ t. rows_of t.table ≡ table_rows bytes.now ty.now) }
    ensures bad { IfOk result (λ t. t.bad ≡ bad_record bytes.now ty.now) }
    ensures columns { IfOk result (λ t. columns_in t.table.columns.items ≡ columns_of ty.now) }
{
    let columns = columns_of(ty);
    if bytes.starts_with(b"\xEF\xBB\xBF\xEF\xBB\xBF") {
        return without_header(alloc, columns);
    }
    let mut reader = reader(alloc, bytes);
    read_records(alloc, &mut reader, columns)
}

// The table whose records are left.
fn read_records(
    alloc: Global,
    reader: &mut Reader<&[u8]>,
    columns: &[(Label, Ty)],
) -> Result<TableFront, NoMemory>
    requires plain { IsPlain reader.old }
    requires base { list_all (λ c. is_base c.1) columns.now ≡ true }
    ensures rows { IfOk result (λ t. rows_of t.table ≡ rows_in columns.now (records_left reader.old)) }
    ensures bad { IfOk result (λ t. t.bad ≡ bad_in columns.now (records_left reader.old)) }
    ensures columns { IfOk result (λ t. columns_in t.table.columns.items ≡ columns.now) }
{
    let mut header = ByteRecord::new(alloc);
    if !next_record(reader, &mut header)? {
        return without_header(alloc, columns);
    }
    read_under(alloc, reader, columns, &header)
}

// The table whose header this is, and whose other records are left.
fn read_under(
    alloc: Global,
    reader: &mut Reader<&[u8]>,
    columns: &[(Label, Ty)],
    header: &ByteRecord,
) -> Result<TableFront, NoMemory>
    requires plain { IsPlain reader.old }
    requires base { list_all (λ c. is_base c.1) columns.now ≡ true }
    ensures rows { IfOk result (λ t. rows_of t.table ≡ rows_in columns.now (fields_of header.now ∷ records_left reader.old)) }
    ensures bad { IfOk result (λ t. t.bad ≡ bad_in columns.now (fields_of header.now ∷ records_left reader.old)) }
    ensures columns { IfOk result (λ t. columns_in t.table.columns.items ≡ columns.now) }
{
    match places_of(alloc, columns, header)? {
        Some(places) => read_rows(alloc, reader, columns, header, &places),
        None => without_header(alloc, columns),
    }
}

// A table whose header is bad.
fn without_header(alloc: Global, columns: &[(Label, Ty)]) -> Result<TableFront, NoMemory>
    requires { list_all (λ c. is_base c.1) columns.now ≡ true }
    ensures rows { IfOk result (λ t. rows_of t.table ≡ []) }
    ensures bad { IfOk result (λ t. t.bad ≡ Some 0) }
    ensures columns { IfOk result (λ t. columns_in t.table.columns.items ≡ columns.now) }
{
    let held = no_rows(alloc, columns)?;
    Ok(TableFront {
        table: ColumnTable::of(held, 0),
        bad: Some(0),
    })
}

// The columns without rows.
fn no_rows(alloc: Global, columns: &[(Label, Ty)]) -> Result<Vec<Column>, NoMemory>
    requires { list_all (λ c. is_base c.1) columns.now ≡ true }
    ensures columns { IfOk result (λ held. columns_in held.items ≡ columns.now) }
    ensures level { IfOk result (λ held. AreLevel 0 held.items) }
{
    let mut held = Vec::with_capacity(alloc, columns.len())?;
    for column in columns {
        let label = column.0.dup()?;
        let cells = Cells::new(alloc, &column.1);
        held.push(Column { label, cells })?;
    }
    Ok(held)
}

// The places of the columns in the header, if each label stands there exactly once.
fn places_of(
    alloc: Global,
    columns: &[(Label, Ty)],
    header: &ByteRecord,
) -> Result<Option<Vec<usize>>, NoMemory>
    ensures { IfOk result (λ found. MatchOption found (is_header columns.now (fields_of header.now) ≡ false)
        (λ places. ArePlaces columns.now (fields_of header.now) places.items)) }
{
    let mut places = Vec::with_capacity(alloc, columns.len())?;
    for column in columns {
        let Some(place) = only_place(header, column.0.slice()) else {
            return Ok(None);
        };
        places.push(place)?;
    }
    Ok(Some(places))
}

// The place of the one field with these bytes.
fn only_place(header: &ByteRecord, name: &[u8]) -> Option<usize>
    ensures { MatchOption result (times name.now (fields_of header.now) ≢ 1)
        (λ i. (times name.now (fields_of header.now) ≡ 1) × (field_at (fields_of header.now) i ≡ Some name.now)) }
{
    let mut found = None;
    for i in 0..header.len() {
        let Some(field) = header.get(i) else {
            return None;
        };
        if name == field {
            if found.is_some() {
                return None;
            }
            found = Some(i);
        }
    }
    found
}

// The rows that are left, under a header.
fn read_rows(
    alloc: Global,
    reader: &mut Reader<&[u8]>,
    columns: &[(Label, Ty)],
    header: &ByteRecord,
    places: &[usize],
) -> Result<TableFront, NoMemory>
    requires plain { IsPlain reader.old }
    requires base { list_all (λ c. is_base c.1) columns.now ≡ true }
    requires places { ArePlaces columns.now (fields_of header.now) places.now }
    ensures rows { IfOk result (λ t. rows_of t.table
        ≡ front_of (map (row_in columns.now (fields_of header.now)) (records_left reader.old))) }
    ensures bad { IfOk result (λ t. t.bad ≡ first_missing 1 (map (row_in columns.now (fields_of header.now)) (records_left reader.old))) }
    ensures columns { IfOk result (λ t. columns_in t.table.columns.items ≡ columns.now) }
{
    let mut held = no_rows(alloc, columns)?;
    let mut entry = ByteRecord::new(alloc);
    let mut len: usize = 0;
    'records: while next_record(reader, &mut entry)? {
        let Some(number) = len.checked_add(1) else {
            return Err(NoMemory);
        };
        if !add_row(&mut held, header, places, &entry)? {
            return Ok(TableFront {
                table: ColumnTable::of(held, len),
                bad: Some(number as u64),
            });
        }
        len = number;
    }
    Ok(TableFront {
        table: ColumnTable::of(held, len),
        bad: None,
    })
}

// Puts a record behind the rows, and says whether it was good. Where it was bad, some columns may hold more than the rows
// before it.
fn add_row(
    columns: &mut [Column],
    header: &ByteRecord,
    places: &[usize],
    entry: &ByteRecord,
) -> Result<bool, NoMemory>
    requires { ArePlaces (columns_in columns.old) (fields_of header.now) places.now }
    ensures { IfOk result (λ good. AddsRecord good (fields_of header.now) (fields_of entry.now) columns.old columns.new) }
{
    if entry.len() != header.len() {
        return Ok(false);
    }
    for i in 0..columns.len() {
        let Some(cell) = entry.get(places[i]) else {
            return Ok(false);
        };
        let column = &mut columns[i];
        if !column.cells.push(cell)? {
            return Ok(false);
        }
    }
    Ok(true)
}
