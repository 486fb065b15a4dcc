//! Cells as they are printed.
ghost use Rattle.std.specs.Prelude.{◌≡◌, ◌<◌, ◌==◌, [], IfOk, IfSome, Some, length, position};
ghost use Rattle.csv.specs.Records.{fields_of, partial_of};
ghost use Rattle.kl_tidy.specs.Cells.{AddsCell, cell_printed, filled, in_decimals, joined, scaled};

use crate::columns::Column;
use crate::writing::put;
use csv::ByteRecord;
use itoa::Buffer;
use kl_base::NoMemory;
use kl_prim::number_in;
use std::alloc::Global;

/// Puts a cell of a column behind a record, as it is printed there. False where it is no number of at most so many decimals.
///
/// # Errors
/// Want of memory.
pub fn add_cell(
    alloc: Global,
    column: &Column,
    cell: &[u8],
    cells: &mut ByteRecord,
) -> Result<bool, NoMemory>
    requires { partial_of cells.old ≡ [] }
    ensures adds { IfOk result (λ well. AddsCell (cell_printed column.now cell.now) well (fields_of cells.old) (fields_of cells.new)) }
    ensures whole { IfOk result (λ well. partial_of cells.new ≡ []) }
{
    let cell = filled(column, cell);
    match column.decimals {
        Some(decimals) => add_scaled(alloc, decimals, cell, cells),
        None => {
            cells.push_field(cell)?;
            Ok(true)
        }
    }
}

fn add_scaled(
    alloc: Global,
    decimals: u8,
    cell: &[u8],
    cells: &mut ByteRecord,
) -> Result<bool, NoMemory>
    requires { partial_of cells.old ≡ [] }
    ensures adds { IfOk result (λ well. AddsCell (in_decimals (Some decimals) cell.now) well (fields_of cells.old) (fields_of cells.new)) }
    ensures whole { IfOk result (λ well. partial_of cells.new ≡ []) }
{
    if cell.is_empty() {
        cells.push_field(cell)?;
        return Ok(true);
    }
    match scaled(alloc, decimals, cell)? {
        Some(number) => {
            cells.push_field(Buffer::new().format(number).as_bytes())?;
            Ok(true)
        }
        None => Ok(false),
    }
}

/// A cell, or what is in its place where it is empty.
pub fn filled<'a>(column: &'a Column, cell: &'a [u8]) -> &'a [u8]
    ensures { result.now ≡ filled column.now.missing cell.now }
{
    match &column.missing {
        Some(value) => { if cell.is_empty() { value.slice() } else { cell } }
        None => cell,
    }
}

// The integer that a decimal number is with so many decimals.
fn scaled(alloc: Global, decimals: u8, cell: &[u8]) -> Result<Option<i64>, NoMemory>
    ensures { IfOk result (λ number. number ≡ scaled decimals cell.now) }
{
    match point_in(cell) {
        None => joined(alloc, decimals, cell, b""),
        Some(at) => {
            let fraction = &cell[at + 1..];
            if number_in(fraction).is_some() {
                joined(alloc, decimals, &cell[..at], fraction)
            } else {
                Ok(None)
            }
        }
    }
}

fn point_in(cell: &[u8]) -> Option<usize>
    ensures at { result ≡ position (λ byte. byte == 46) cell.now }
    ensures within { IfSome result (λ at. at < length cell.now) }
{
    cell.iter().position(|byte| *byte == b'.')
}

// The integer of so many decimals whose digits before the point are these, behind a sign or none, and behind it these.
#[tactic(auto, using(std::proofs::lemmas::List::take_all))]
fn joined(
    alloc: Global,
    decimals: u8,
    whole: &[u8],
    fraction: &[u8],
) -> Result<Option<i64>, NoMemory>
    ensures { IfOk result (λ number. number ≡ joined decimals whole.now fraction.now) }
{
    let decimals = decimals as usize;
    if number_in(whole).is_none() || fraction.len() > decimals {
        return Ok(None);
    }
    let mut digits = Vec::from_slice(alloc, fraction)?;
    digits.resize(decimals, b'0')?;
    let mut number = Vec::from_slice(alloc, whole)?;
    put(&digits, &mut number)?;
    Ok(number_in(&number))
}
