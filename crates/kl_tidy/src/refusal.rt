//! Why no table is printed: the status, and the line that tells of it.
ghost use Rattle.std.specs.Prelude.{◌≡◌, ◌++◌, OnOk};
ghost use Rattle.kl_tidy.specs.Refusals.{place_text, refusal_line, refusal_status, wrong_text};
ghost use Rattle.kl_tidy.specs.declared.refusal.Refusal.TheVariants.{NoMemory as WantOfMemory};

use crate::columns::Wrong;
use crate::writing::{put, put_quoted};
use itoa::Buffer;
use kl_base::{NoMemory, Text};

/// The line that tells of want of memory.
pub const OUT_OF_MEMORY: &[u8] = b"out of memory\n";

/// Why no table is printed.
#[derive(Drop, PartialEq, Eq)]
pub enum Refusal {
    /// The words are no command.
    Usage,
    /// The file at this path is no table as the words name it: so it is wrong first.
    BadFile { path: Text, wrong: Wrong },
    /// The file is missing or could not be read.
    Read,
    /// `out` refused a write.
    Write,
    /// Want of memory.
    NoMemory,
    /// The table has more than 268,435,456 bytes.
    FileBytes,
}

impl From<NoMemory> for Refusal {
    ghost from_gives = { λ _ e. e ≡ WantOfMemory };

    fn from(_: NoMemory) -> Refusal {
        Refusal::NoMemory
    }
}

/// The status of a refusal.
pub fn status(refusal: &Refusal) -> u8
    ensures { result ≡ refusal_status refusal.now }
{
    match refusal {
        Refusal::Usage => 1,
        Refusal::BadFile { .. } => 5,
        Refusal::Read => 7,
        Refusal::Write => 8,
        Refusal::NoMemory => 9,
        Refusal::FileBytes => 10,
    }
}

/// Puts the line of a refusal behind a page.
///
/// # Errors
/// Want of memory.
pub fn put_line(refusal: &Refusal, page: &mut Vec<u8>) -> Result<(), NoMemory>
    ensures { OnOk result (page.new.items ≡ page.old.items ++ refusal_line refusal.now) }
{
    match refusal {
        Refusal::Usage => put(
            b"usage: kltable [--from tab|semicolon] [--missing COLUMN VALUE] [--scale COLUMN N] FILE\n",
            page,
        ),
        Refusal::BadFile { path, wrong } => {
            put(b"source ", page)?;
            put(path.slice(), page)?;
            put(b": ", page)?;
            put_wrong(wrong, page)?;
            put(b"\n", page)
        }
        Refusal::Read => put(b"read fault\n", page),
        Refusal::Write => put(b"write fault\n", page),
        Refusal::NoMemory => put(OUT_OF_MEMORY, page),
        Refusal::FileBytes => put(b"limit: file bytes\n", page),
    }
}

fn put_wrong(wrong: &Wrong, page: &mut Vec<u8>) -> Result<(), NoMemory>
    ensures { OnOk result (page.new.items ≡ page.old.items ++ wrong_text wrong.now) }
{
    match wrong {
        Wrong::Record(number) => put_place(*number, page),
        Wrong::Column(column) => {
            put(b"no column ", page)?;
            put_quoted(column.slice(), page)
        }
        Wrong::Cell {
            record,
            column,
            cell,
        } => {
            put_place(*record, page)?;
            put(b" in ", page)?;
            put(column.slice(), page)?;
            put(b": ", page)?;
            put_quoted(cell.slice(), page)
        }
    }
}

fn put_place(number: u64, page: &mut Vec<u8>) -> Result<(), NoMemory>
    ensures { OnOk result (page.new.items ≡ page.old.items ++ place_text number) }
{
    put(b"bad at ", page)?;
    put(Buffer::new().format(number).as_bytes(), page)
}
