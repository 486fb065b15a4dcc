//! The table that is printed.
ghost use Rattle.std.specs.Prelude.{◌≡◌, [], IfOk, map};
ghost use Rattle.csv.specs.Records.{fields_of};
ghost use Rattle.kl_tidy.specs.Tables.{Finds, FindsBelow, FindsUnder, records_found};

use crate::columns::{Column, Wrong, columns_of, record_printed, unknown_column};
use crate::naming::{names_of, put_notes};
use crate::reading::records_of;
use crate::words::Command;
use crate::writing::{line_of, names_line, put};
use csv::ByteRecord;
use kl_base::{NoMemory, Text};
use std::alloc::Global;

/// The text of a table, or what is wrong with it first.
#[derive(Drop)]
pub enum Found {
    Page(Text),
    Wrong(Wrong),
}

/// The table that a command asks for of these bytes. Which headers were changed is told behind the notes.
///
/// # Errors
/// Want of memory.
pub fn tidied(
    alloc: Global,
    command: &Command,
    bytes: &[u8],
    notes: &mut Vec<u8>,
) -> Result<Found, NoMemory>
    requires { notes.old.items ≡ [] }
    ensures { IfOk result (Finds command.now bytes.now notes.new.items) }
{
    let records = records_of(alloc, bytes, command.delimiter)?;
    match records.as_slice() {
        [] => Ok(Found::Wrong(Wrong::Record(0))),
        [header, rows @ ..] => found_under(alloc, command, header, rows, notes),
    }
}

fn found_under(
    alloc: Global,
    command: &Command,
    header: &ByteRecord,
    rows: &[ByteRecord],
    notes: &mut Vec<u8>,
) -> Result<Found, NoMemory>
    requires { notes.old.items ≡ [] }
    ensures { IfOk result (FindsUnder command.now (fields_of header.now) (map fields_of rows.now) notes.new.items) }
{
    let names = names_of(alloc, header)?;
    put_notes(command.path.slice(), header, &names, notes)?;
    found_below(alloc, command, &names, rows)
}

fn found_below(
    alloc: Global,
    command: &Command,
    names: &[Text],
    rows: &[ByteRecord],
) -> Result<Found, NoMemory>
    ensures { IfOk result (FindsBelow command.now names.now (map fields_of rows.now)) }
{
    if names.is_empty() {
        return Ok(Found::Wrong(Wrong::Record(0)));
    }
    if let Some(column) = unknown_column(names, command) {
        return Ok(Found::Wrong(Wrong::Column(column.dup(alloc)?)));
    }
    let columns = columns_of(alloc, names, command)?;
    records_found(alloc, names, &columns, rows)
}

fn records_found(
    alloc: Global,
    names: &[Text],
    columns: &[Column],
    rows: &[ByteRecord],
) -> Result<Found, NoMemory>
    ensures { IfOk result (λ found. records_found names.now columns.now (map fields_of rows.now) ≡ found) }
{
    let mut page = names_line(alloc, names)?;
    'rows: for i in 0..rows.len() {
        match record_printed(alloc, columns, i as u64 + 1, &rows[i])? {
            Ok(record) => put(&line_of(alloc, &record)?, &mut page)?,
            Err(wrong) => return Ok(Found::Wrong(wrong)),
        }
    }
    Ok(Found::Page(Text::of(page)))
}
