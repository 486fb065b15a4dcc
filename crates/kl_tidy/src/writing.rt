//! The text of a table, and of lines that tell of it.
ghost use Rattle.std.specs.Prelude.{◌≡◌, ◌++◌, IfOk, OnOk};
ghost use Rattle.csv.specs.Records.{fields_of};
ghost use Rattle.csv.specs.Writing.{default_writer, row_text};
ghost use Rattle.kl_tidy.specs.Writing.{quoted, shown};

use csv::{ByteRecord, WriterBuilder};
use kl_base::{NoMemory, Text};
use std::alloc::Global;

/// The text of a record of these cells, with commas between them, each in quotes where it has a comma, a quote or an end
/// of line.
///
/// # Errors
/// Want of memory.
pub fn names_line(alloc: Global, names: &[Text]) -> Result<Vec<u8>, NoMemory>
    ensures { IfOk result (λ line. line.items ≡ row_text default_writer names.now) }
{
    line_of(alloc, &record_of(alloc, names)?)
}

fn record_of(alloc: Global, cells: &[Text]) -> Result<ByteRecord, NoMemory>
    ensures { IfOk result (λ made. fields_of made ≡ cells.now) }
{
    let mut record = ByteRecord::new(alloc);
    for cell in cells {
        record.push_field(cell.slice())?;
    }
    Ok(record)
}

/// The text of a record.
///
/// # Errors
/// Want of memory.
pub fn line_of(alloc: Global, row: &ByteRecord) -> Result<Vec<u8>, NoMemory>
    ensures { IfOk result (λ line. line.items ≡ row_text default_writer (fields_of row.now)) }
{
    let mut writer = WriterBuilder::new().from_writer(Vec::new(alloc));
    if writer.write_byte_record(row).is_err() {
        return Err(NoMemory);
    }
    match writer.into_inner() {
        Ok(line) => Ok(line),
        Err(_) => Err(NoMemory),
    }
}

/// Puts a text in quotes behind a page, with a backslash before each quote and backslash, and `?` for bytes that are
/// not printed.
///
/// # Errors
/// Want of memory.
pub fn put_quoted(text: &[u8], page: &mut Vec<u8>) -> Result<(), NoMemory>
    ensures { OnOk result (page.new.items ≡ page.old.items ++ quoted text.now) }
{
    put(b"\"", page)?;
    for byte in text {
        put_shown(*byte, page)?;
    }
    put(b"\"", page)
}

fn put_shown(byte: u8, page: &mut Vec<u8>) -> Result<(), NoMemory>
    ensures { OnOk result (page.new.items ≡ page.old.items ++ shown byte) }
{
    if byte == b'"' || byte == b'\\' {
        put(&[b'\\', byte], page)
    } else if byte < 32 || byte == 127 {
        put(b"?", page)
    } else {
        put(&[byte], page)
    }
}

/// Puts a piece behind a page.
///
/// # Errors
/// Want of memory.
pub fn put(piece: &[u8], page: &mut Vec<u8>) -> Result<(), NoMemory>
    ensures { OnOk result (page.new.items ≡ page.old.items ++ piece.now) }
{
    Ok(page.extend_from_slice(piece)?)
}
