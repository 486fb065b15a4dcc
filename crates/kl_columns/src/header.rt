//! The header of a table, and which of its columns programs can name.
ghost use Rattle.std.specs.Prelude.{◌≡◌, ◌∷◌, ◌++◌, [], IfOk, OnOk, codes, cond, filter, option_map};
ghost use Rattle.csv.specs.Machine.{next_record};
ghost use Rattle.csv.specs.Reading.{default_config, strip_bom};
ghost use Rattle.csv.specs.Records.{fields_of};
ghost use Rattle.csv.specs.declared.parser.State.TheVariants as state;
ghost use Rattle.kl_base.specs.Word.{is_word};
ghost use Rattle.kl_flat.specs.Table.{times};
ghost use Rattle.kl_columns.specs.Headers.{is_nameable, nameable, note, notes_of};

use crate::writing::{put, put_quoted};
use csv::{ByteRecord, ReaderBuilder};
use itoa::Buffer;
use kl_base::{Label, NoMemory, is_word};
use std::alloc::Global;

/// The first record of a table, if it has one.
///
/// # Errors
/// Want of memory.
pub fn header_of(alloc: Global, bytes: &[u8]) -> Result<Option<ByteRecord>, NoMemory>
    ensures { IfOk result (λ header. option_map fields_of header
        ≡ option_map (λ p. p.0) (next_record default_config state.StartRecord [] [] (strip_bom bytes.now))) }
{
    let mut reader = ReaderBuilder::new()
        .has_headers(false)
        .flexible(true)
        .from_reader(alloc, bytes);
    let mut header = ByteRecord::new(alloc);
    match reader.read_byte_record(&mut header) {
        Ok(true) => Ok(Some(header)),
        Ok(false) => Ok(None),
        Err(_) => Err(NoMemory),
    }
}

/// The labels of a header that programs can name. Each of the others is told behind the notes, with its column's number.
///
/// # Errors
/// Want of memory.
pub fn labels_in(
    alloc: Global,
    path: &[u8],
    header: &ByteRecord,
    notes: &mut Vec<u8>,
) -> Result<Vec<Label>, NoMemory>
    ensures labels { IfOk result (λ labels. labels.items ≡ nameable (fields_of header.now)) }
    ensures notes { OnOk result (notes.new.items ≡ notes.old.items ++ notes_of path.now (fields_of header.now)) }
{
    let mut labels = Vec::new(alloc);
    'cells: for i in 0..header.len() {
        let Some(cell) = header.get(i) else {
            return Ok(labels);
        };
        add_label(alloc, header, cell, &mut labels)?;
        put_note(path, header, i as u64 + 1, cell, notes)?;
    }
    Ok(labels)
}

// Puts a header behind the labels, if it can be named.
fn add_label(
    alloc: Global,
    header: &ByteRecord,
    cell: &[u8],
    labels: &mut Vec<Label>,
) -> Result<(), NoMemory>
    ensures { OnOk result (labels.new.items ≡ labels.old.items ++ filter (is_nameable (fields_of header.now)) (cell.now ∷ [])) }
{
    if is_nameable(header, cell) {
        if let Some(label) = Label::new(alloc, cell)? {
            labels.push(label)?;
        }
    }
    Ok(())
}

// Tells that the column of a number is left out, and why, if it is.
fn put_note(
    path: &[u8],
    header: &ByteRecord,
    number: u64,
    cell: &[u8],
    notes: &mut Vec<u8>,
) -> Result<(), NoMemory>
    ensures { OnOk result (notes.new.items ≡ notes.old.items ++ note path.now (fields_of header.now) number cell.now) }
{
    if is_nameable(header, cell) {
        return Ok(());
    }
    put(path, notes)?;
    put(b": column ", notes)?;
    put(Buffer::new().format(number).as_bytes(), notes)?;
    put(b" is left out: ", notes)?;
    put_quoted(cell, notes)?;
    put(reason(cell), notes)
}

fn reason(cell: &[u8]) -> &'static [u8]
    ensures { result.now ≡ cond (is_word cell.now) (codes " stands twice\n") (codes " is no word\n") }
{
    if is_word(cell) {
        b" stands twice\n"
    } else {
        b" is no word\n"
    }
}

fn is_nameable(header: &ByteRecord, cell: &[u8]) -> bool
    ensures { result ≡ is_nameable (fields_of header.now) cell.now }
{
    is_word(cell) && times(header, cell) == 1
}

// How often the header has these bytes.
fn times(header: &ByteRecord, name: &[u8]) -> usize
    ensures { result ≡ times name.now (fields_of header.now) }
{
    let mut count: usize = 0;
    'cells: for i in 0..header.len() {
        let Some(cell) = header.get(i) else {
            return count;
        };
        if name == cell {
            count += 1;
        }
    }
    count
}
