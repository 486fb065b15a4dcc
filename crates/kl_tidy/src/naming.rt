//! Words for the headers of a table.
ghost use Rattle.std.specs.Prelude.{◌≡◌, ◌++◌, ◌∷◌, [], IfOk, OnOk};
ghost use Rattle.std.specs.List.{list_any};
ghost use Rattle.csv.specs.Records.{fields_of};
ghost use Rattle.kl_json.specs.Meaning.{as_word, begins_word, word_byte};
ghost use Rattle.kl_tidy.specs.Naming.{AreNames, IsNameOf, header_notes, is_free, is_one, note, numbered};

use crate::writing::{put, put_quoted};
use csv::ByteRecord;
use itoa::Buffer;
use kl_base::{NoMemory, Text, is_word};
use std::alloc::Global;

/// The words of headers, in their order.
///
/// # Errors
/// Want of memory.
pub fn names_of(alloc: Global, header: &ByteRecord) -> Result<Vec<Text>, NoMemory>
    ensures { IfOk result (λ names. AreNames [] (fields_of header.now) names.items) }
{
    let mut names = Vec::new(alloc);
    'cells: for i in 0..header.len() {
        let Some(cell) = header.get(i) else {
            return Err(NoMemory);
        };
        let name = free_name(alloc, &names, cell)?;
        add(&mut names, name)?;
    }
    Ok(names)
}

fn add(names: &mut Vec<Text>, name: Text) -> Result<(), NoMemory>
    ensures { OnOk result (names.new.items ≡ names.old.items ++ name ∷ []) }
{
    names.push(name)?;
    Ok(())
}

// The word of a header, with the first number at which no name before it is the same.
fn free_name(alloc: Global, names: &[Text], cell: &[u8]) -> Result<Text, NoMemory>
    ensures { IfOk result (IsNameOf names.now cell.now) }
{
    let word = as_word(alloc, cell)?;
    'numbers: for number in 1..u64::MAX {
        let name = numbered(alloc, &word, number)?;
        if is_free(names, &name) {
            return Ok(Text::of(name));
        }
    }
    Err(NoMemory)
}

fn is_free(names: &[Text], name: &[u8]) -> bool
    ensures { result ≡ is_free names.now name.now }
{
    is_word(name) && !is_taken(names, name)
}

/// Whether one of the names is this one.
pub fn is_taken(names: &[Text], name: &[u8]) -> bool
    ensures { result ≡ list_any (is_one name.now) names.now }
{
    for taken in names {
        if name == taken.slice() {
            return true;
        }
    }
    false
}

// The word itself as the first name, and with its number behind it as each later one.
fn numbered(alloc: Global, word: &[u8], number: u64) -> Result<Vec<u8>, NoMemory>
    ensures { IfOk result (λ name. name.items ≡ numbered word.now number) }
{
    let mut name = Vec::from_slice(alloc, word)?;
    if number == 1 {
        return Ok(name);
    }
    put(b"_", &mut name)?;
    put(Buffer::new().format(number).as_bytes(), &mut name)?;
    Ok(name)
}

// A word of the bytes: `_` for each that stands in none, and an `x` before a front that is no letter.
fn as_word(alloc: Global, cell: &[u8]) -> Result<Vec<u8>, NoMemory>
    ensures { IfOk result (λ word. word.items ≡ as_word cell.now) }
{
    let mut word = Vec::new(alloc);
    if !begins_word(cell) {
        word.push(b'x')?;
    }
    for byte in cell {
        word.push(word_byte(*byte))?;
    }
    Ok(word)
}

fn begins_word(cell: &[u8]) -> bool
    ensures { result ≡ begins_word cell.now }
{
    match cell {
        [first, ..] => first.is_ascii_alphabetic(),
        [] => false,
    }
}

fn word_byte(byte: u8) -> u8
    ensures { result ≡ word_byte byte }
{
    match byte.is_ascii_alphanumeric() {
        true => byte,
        false => b'_',
    }
}

/// Tells behind the notes which headers were changed, each with its column's number.
///
/// # Errors
/// Want of memory.
pub fn put_notes(
    path: &[u8],
    header: &ByteRecord,
    names: &[Text],
    notes: &mut Vec<u8>,
) -> Result<(), NoMemory>
    ensures { OnOk result (notes.new.items ≡ notes.old.items ++ header_notes path.now (fields_of header.now) names.now) }
{
    'names: for i in 0..names.len() {
        let Some(cell) = header.get(i) else {
            return Ok(());
        };
        put_note(path, i as u64 + 1, cell, names[i].slice(), notes)?;
    }
    Ok(())
}

fn put_note(
    path: &[u8],
    number: u64,
    cell: &[u8],
    name: &[u8],
    notes: &mut Vec<u8>,
) -> Result<(), NoMemory>
    ensures { OnOk result (notes.new.items ≡ notes.old.items ++ note path.now number cell.now name.now) }
{
    if cell == name {
        return Ok(());
    }
    put(path, notes)?;
    put(b": column ", notes)?;
    put(Buffer::new().format(number).as_bytes(), notes)?;
    put(b" is ", notes)?;
    put(name, notes)?;
    put(b": ", notes)?;
    put_quoted(cell, notes)?;
    put(b"\n", notes)
}
