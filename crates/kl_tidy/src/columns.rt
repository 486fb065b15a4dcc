//! Columns of the table that is printed, and its records.
ghost use Rattle.std.specs.Prelude.{◌≡◌, ◌++◌, ◌∷◌, [], IfOk, OnOk, map, option_map};
ghost use Rattle.csv.specs.Records.{fields_of};
ghost use Rattle.kl_base.specs.Fields.{labels_of};
ghost use Rattle.kl_tidy.specs.Rows.{IsRecordOf, column_of, first_unknown, unknown_column, wrong_cell};

use crate::cells::{add_cell, filled};
use crate::naming::is_taken;
use crate::words::{Command, value_at};
use csv::ByteRecord;
use kl_base::{NoMemory, Text};
use std::alloc::Global;

/// A column of the table that is printed.
#[derive(Drop)]
pub struct Column {
    pub name: Text,
    /// What its empty cells become.
    pub missing: Option<Text>,
    /// How many decimals its cells have as integers.
    pub decimals: Option<u8>,
}

/// What is wrong with a table.
#[derive(Drop, PartialEq, Eq)]
pub enum Wrong {
    /// The record of this number has another number of cells than the header, or it is 0 and there is none.
    Record(u64),
    /// No column has this name.
    Column(Text),
    /// The cell of this record and column is no number of at most so many decimals.
    Cell {
        record: u64,
        column: Text,
        cell: Text,
    },
}

/// The columns of these names, with what a command says of their cells.
///
/// # Errors
/// Want of memory.
pub fn columns_of(alloc: Global, names: &[Text], command: &Command) -> Result<Vec<Column>, NoMemory>
    ensures { IfOk result (λ columns. columns.items ≡ map (column_of command.now) names.now) }
{
    let mut columns = Vec::new(alloc);
    for name in names {
        add_column(alloc, name, command, &mut columns)?;
    }
    Ok(columns)
}

fn add_column(
    alloc: Global,
    name: &Text,
    command: &Command,
    columns: &mut Vec<Column>,
) -> Result<(), NoMemory>
    ensures { OnOk result (columns.new.items ≡ columns.old.items ++ column_of command.now name.now ∷ []) }
{
    let missing = match value_at(command.missing.slice(), name.slice()) {
        Some(value) => Some(value.dup(alloc)?),
        None => None,
    };
    columns.push(Column {
        name: name.dup(alloc)?,
        missing,
        decimals: value_at(command.scale.slice(), name.slice()).copied(),
    })?;
    Ok(())
}

/// The first column that a command names and that is none of these.
pub fn unknown_column<'a>(names: &[Text], command: &'a Command) -> Option<&'a Text>
    ensures { option_map (λ column. column.now) result ≡ unknown_column names.now command.now }
{
    match first_unknown(names, command.missing.slice()) {
        Some(column) => Some(column),
        None => first_unknown(names, command.scale.slice()),
    }
}

fn first_unknown<'a, T>(names: &[Text], pairs: &'a [(Text, T)]) -> Option<&'a Text>
    ensures { option_map (λ column. column.now) result ≡ first_unknown names.now (labels_of pairs.now) }
{
    for pair in pairs {
        if !is_taken(names, pair.0.slice()) {
            return Some(&pair.0);
        }
    }
    None
}

/// The record of this number as it is printed, or what is wrong with it first.
///
/// # Errors
/// Want of memory.
pub fn record_printed(
    alloc: Global,
    columns: &[Column],
    number: u64,
    row: &ByteRecord,
) -> Result<Result<ByteRecord, Wrong>, NoMemory>
    ensures { IfOk result (IsRecordOf columns.now number (fields_of row.now)) }
{
    if row.len() != columns.len() {
        return Ok(Err(Wrong::Record(number)));
    }
    let mut record = ByteRecord::new(alloc);
    'cells: for i in 0..columns.len() {
        let Some(cell) = row.get(i) else {
            return Ok(Ok(record));
        };
        if !add_cell(alloc, &columns[i], cell, &mut record)? {
            return Ok(Err(wrong_cell(alloc, &columns[i], number, cell)?));
        }
    }
    Ok(Ok(record))
}

fn wrong_cell(alloc: Global, column: &Column, number: u64, cell: &[u8]) -> Result<Wrong, NoMemory>
    ensures { IfOk result (λ wrong. wrong ≡ wrong_cell column.now number cell.now) }
{
    Ok(Wrong::Cell {
        record: number,
        column: column.name.dup(alloc)?,
        cell: Text::of(Vec::from_slice(alloc, filled(column, cell))?),
    })
}
