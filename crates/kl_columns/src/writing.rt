//! The text of an entry.
ghost use Rattle.std.specs.Prelude.{◌≡◌, ◌++◌, OnOk};
ghost use Rattle.kl_columns.specs.Writing.{entry_line, quoted, spelled};

use kl_base::NoMemory;
use kl_catalogue::Entry;
use kl_type::print_type;
use std::alloc::Global;

const DIGITS: &[u8] = b"0123456789abcdef";

/// Puts the line of an entry behind a page.
///
/// # Errors
/// Want of memory.
pub fn put_entry(alloc: Global, entry: &Entry, page: &mut Vec<u8>) -> Result<(), NoMemory>
    ensures { OnOk result (page.new.items ≡ page.old.items ++ entry_line entry.now) }
{
    let ty = print_type(alloc, &entry.ty)?;
    put(b"source ", page)?;
    put(entry.name.slice(), page)?;
    put(b" : ", page)?;
    put(ty.slice(), page)?;
    put(b" = ", page)?;
    put(entry.driver.slice(), page)?;
    put(b" ", page)?;
    put_quoted(entry.locator.slice(), page)?;
    put(b";\n", page)
}

/// Puts a text in quotes behind a page, as tokens spell it.
///
/// # Errors
/// Want of memory.
pub fn put_quoted(text: &[u8], page: &mut Vec<u8>) -> Result<(), NoMemory>
    ensures { OnOk result (page.new.items ≡ page.old.items ++ quoted text.now) }
{
    put(b"\"", page)?;
    for byte in text {
        put_byte(*byte, page)?;
    }
    put(b"\"", page)
}

// Puts a byte of a text behind a page.
fn put_byte(byte: u8, page: &mut Vec<u8>) -> Result<(), NoMemory>
    ensures { OnOk result (page.new.items ≡ page.old.items ++ spelled byte) }
{
    if byte == b'"' {
        put(b"\\\"", page)
    } else if byte == b'\\' {
        put(b"\\\\", page)
    } else if byte == b'\n' {
        put(b"\\n", page)
    } else if byte == b'\r' {
        put(b"\\r", page)
    } else if byte == b'\t' {
        put(b"\\t", page)
    } else if byte < 32 || byte == 127 {
        let high = DIGITS[(byte / 16) as usize];
        let low = DIGITS[(byte % 16) as usize];
        put(&[b'\\', b'x', high, low], page)
    } else {
        put(&[byte], page)
    }
}

/// Puts a piece behind a page.
///
/// # Errors
/// Want of memory.
pub fn put(piece: &[u8], page: &mut Vec<u8>) -> Result<(), NoMemory>
    ensures { OnOk result (page.new.items ≡ page.old.items ++ piece.now) }
{
    Ok(page.extend_from_slice(piece)?)
}
