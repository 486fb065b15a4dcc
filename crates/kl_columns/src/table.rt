//! The type of a table.
ghost use Rattle.std.specs.Prelude.{◌≡◌, ◌≤◌, ◌++◌, Bool, true, IfOk, IfErr, OnOk};
ghost use Rattle.kl_columns.specs.Causes.{AddsNotes, RefusesTable};
ghost use Rattle.kl_columns.specs.Headers.{table_notes};
ghost use Rattle.kl_columns.specs.Listing.{HasTypeAs, Reads};
ghost use Rattle.kl_columns.specs.Words.{is_table};

use crate::columns::{narrowed, of_texts};
use crate::header::{header_of, labels_in};
use crate::refusal::Refusal;
use kl_base::{NoMemory, Text};
use kl_flat::{is_table_type, read_columns};
use kl_outside::{Files, Stop, Whole, read_whole};
use kl_type::Ty;
use std::alloc::Global;

// The greatest length of a table's file.
const MOST_BYTES: u64 = 268_435_456;

// The type of a table, or the number of its first bad record.
enum Found {
    Type(Ty),
    Bad(u64),
}

/// The narrowest type of the table at a path. What is left out of it is told behind the notes.
///
/// # Errors
/// `Read` where the file is missing or fails, `FileBytes` where it is too long, `BadFile` with the first record that is bad as
/// texts under the headers that are words. Want of memory.
pub fn type_of_table<F: Files>(
    alloc: Global,
    files: &mut F,
    path: &Text,
    notes: &mut Vec<u8>,
) -> Result<Ty, Refusal>
    requires { is_table path.now ≡ true }
    ensures told { (F.state files.new).told ≡ (F.state files.old).told }
    ensures later { (F.state files.old).faults ≤ (F.state files.new).faults }
    ensures rows { IfOk result (λ ty. (sql : Bool) → HasTypeAs true sql (F.state files.old).told path.now ty) }
    ensures why { IfErr result (λ r. RefusesTable r path.now (F.state files.old) (F.state files.new)) }
    ensures notes { AddsNotes result (F.state files.old).told path.now notes.old.items notes.new.items }
{
    match read_whole(alloc, files, path.slice(), MOST_BYTES) {
        Err(Stop::Failed) => Err(Refusal::Read),
        Err(Stop::NoMemory) => Err(Refusal::NoMemory),
        Ok(Whole::TooLong) => Err(Refusal::FileBytes),
        Ok(Whole::Bytes(bytes)) => match type_of(alloc, path.slice(), bytes.slice(), notes)? {
            Found::Type(ty) => Ok(ty),
            Found::Bad(record) => Err(Refusal::BadFile {
                path: path.dup(alloc)?,
                record,
            }),
        },
    }
}

fn type_of(alloc: Global, path: &[u8], bytes: &[u8], notes: &mut Vec<u8>) -> Result<Found, NoMemory>
    ensures reads { IfOk result (Reads bytes.now) }
    ensures notes { OnOk result (notes.new.items ≡ notes.old.items ++ table_notes path.now bytes.now) }
{
    let Some(header) = header_of(alloc, bytes)? else {
        return Ok(Found::Bad(0));
    };
    let labels = labels_in(alloc, path, &header, notes)?;
    let texts = of_texts(alloc, &labels)?;
    if !is_table_type(&texts) {
        return Ok(Found::Bad(0));
    }
    let front = read_columns(alloc, bytes, &texts)?;
    match front.bad {
        Some(record) => Ok(Found::Bad(record)),
        None => Ok(Found::Type(narrowed(alloc, &front.table)?)),
    }
}
