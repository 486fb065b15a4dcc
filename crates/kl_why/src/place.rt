//! Where a byte stands in a text, and how the line that it stands in is shown.
ghost use Rattle.std.specs.Prelude.{◌≡◌, ◌++◌, ◌<◌, ◌≤◌, ◌^◌, IfOk, OnOk, count_by, drop, filter, length, map};
ghost use Rattle.std.specs.List.{prefix_len, suffix_len};
ghost use Rattle.kl_why.specs.Places.{begins, blank, column_at, goes_on, is_newline, line_at, line_before, line_behind, marked_line, place_text, shown, told_at};

use itoa::Buffer;
use kl_base::NoMemory;
use std::alloc::{AllocError, Global};

// How much of a line is shown on either side of a byte.
const WIDTH: usize = 60;

/// A place in a text, counted from 1. The columns of a line are its bytes.
#[derive(Clone, Copy, PartialEq, Eq)]
pub struct Place {
    pub line: usize,
    pub column: usize,
}

/// Where a byte of a text stands. A byte behind the last stands where the text ends.
pub fn place_of(bytes: &[u8], byte: usize) -> Place
    ensures line { result.line ≡ line_at bytes.now byte }
    ensures column { result.column ≡ column_at bytes.now byte }
{
    let before = &bytes[..byte.min(bytes.len())];
    Place {
        line: newlines(before) + 1,
        column: last_line(before) + 1,
    }
}

fn newlines(bytes: &[u8]) -> usize
    ensures count { result ≡ count_by is_newline bytes.now }
    ensures few { result ≤ length bytes.now }
{
    bytes.iter().filter(|byte| **byte == b'\n').count()
}

// How many bytes stand behind the last newline.
fn last_line(bytes: &[u8]) -> usize
    ensures count { result ≡ suffix_len goes_on bytes.now }
    ensures few { result ≤ length bytes.now }
{
    bytes
        .iter()
        .rev()
        .take_while(|byte| **byte != b'\n')
        .count()
}

/// Puts behind a page what is wrong at a byte of the file at a path: the place, a sentence, and the line with a caret.
///
/// # Errors
/// Want of memory.
pub fn put_told(
    alloc: Global,
    path: &[u8],
    bytes: &[u8],
    byte: usize,
    sentence: &[u8],
    page: &mut Vec<u8>,
) -> Result<(), NoMemory>
    ensures { OnOk result (page.new.items ≡ page.old.items ++ told_at path.now bytes.now byte sentence.now) }
{
    put(path, page)?;
    put_place(place_of(bytes, byte), page)?;
    put(sentence, page)?;
    put(b"\n", page)?;
    put_marked(alloc, bytes, byte, page)
}

fn put_place(place: Place, page: &mut Vec<u8>) -> Result<(), NoMemory>
    ensures { OnOk result (page.new.items ≡ page.old.items ++ place_text place.line place.column) }
{
    put(b":", page)?;
    put(Buffer::new().format(place.line).as_bytes(), page)?;
    put(b":", page)?;
    put(Buffer::new().format(place.column).as_bytes(), page)?;
    put(b": ", page)
}

// Puts the line of a byte with a caret under it behind a page.
fn put_marked(alloc: Global, bytes: &[u8], byte: usize, page: &mut Vec<u8>) -> Result<(), NoMemory>
    ensures { OnOk result (page.new.items ≡ page.old.items ++ marked_line bytes.now byte) }
{
    let before = line_before(bytes, byte);
    put(&shown(alloc, before)?, page)?;
    put(&shown(alloc, line_behind(bytes, byte))?, page)?;
    put(b"\n", page)?;
    put(&blanks(alloc, before)?, page)?;
    put(b"^\n", page)
}

// What stands on the line before a byte, the end of it where it is long.
fn line_before(bytes: &[u8], byte: usize) -> &[u8]
    ensures { result.now ≡ line_before bytes.now byte }
{
    let before = &bytes[..byte.min(bytes.len())];
    &before[before.len() - last_line(before).min(WIDTH)..]
}

// What stands on the line from a byte on, the front of it where it is long.
fn line_behind(bytes: &[u8], byte: usize) -> &[u8]
    ensures { result.now ≡ line_behind bytes.now byte }
{
    let rest = rest_from(bytes, byte);
    &rest[..first_line(rest).min(WIDTH)]
}

// The bytes from a place on.
#[tactic(auto, using(std::proofs::lemmas::List::drop_min))]
fn rest_from(bytes: &[u8], byte: usize) -> &[u8]
    ensures { result.now ≡ drop byte bytes.now }
{
    &bytes[byte.min(bytes.len())..]
}

// How many bytes stand before the first newline.
fn first_line(bytes: &[u8]) -> usize
    ensures count { result ≡ prefix_len goes_on bytes.now }
    ensures few { result ≤ length bytes.now }
{
    bytes.iter().take_while(|byte| **byte != b'\n').count()
}

// A line as it is shown, with a blank in place of a byte that moves the writing.
fn shown(alloc: Global, line: &[u8]) -> Result<Vec<u8>, AllocError>
    ensures { IfOk result (λ text. text.items ≡ map shown line.now) }
{
    line.iter()
        .map(|byte| {
            if *byte < 32 && *byte != b'\t' || *byte == 127 {
                b' '
            } else {
                *byte
            }
        })
        .collect(alloc)
}

// Blanks as wide as a line.
fn blanks(alloc: Global, line: &[u8]) -> Result<Vec<u8>, AllocError>
    ensures { IfOk result (λ text. text.items ≡ map blank (filter begins line.now)) }
{
    line.iter()
        .filter(|byte| **byte < 128 || **byte >= 192)
        .map(|byte| if *byte == b'\t' { b'\t' } else { b' ' })
        .collect(alloc)
}

/// Puts a piece behind a page.
///
/// # Errors
/// Want of memory.
pub fn put(piece: &[u8], page: &mut Vec<u8>) -> Result<(), NoMemory>
    ensures { OnOk result (page.new.items ≡ page.old.items ++ piece.now) }
{
    Ok(page.extend_from_slice(piece)?)
}
