//! The rows that a cursor hands.
ghost use Rattle.std.specs.Prelude.{◌≡◌, ◌<◌, ◌≤◌, ◌+◌, ◌^◌, false, IfOk, IsSome, Some};
ghost use Rattle.kl_ask.specs.Cursors.{open_at};
ghost use Rattle.kl_nested.specs.Contents.{head_as};
ghost use Rattle.kl_nested.specs.declared.parts.Open.{Open as Opened};
ghost use Rattle.kl_nested.specs.Desk.{HasTaken, IsKept, IsReading};
ghost use Rattle.kl_nested.specs.Handing.{HandsAt, HasBytes, HasHead, Hands, MeetsEnd, PassesHead, Pushes};
ghost use Rattle.kl_nested.specs.Handing.{TakesRow, TakesRows, changed_as, unread_as};
ghost use Rattle.kl_nested.specs.Nested.{head_of};

use crate::parts::{Open, Source};
use crate::rows::{Halt, next_row, skip_row};
use crate::types::item_of;
use kl_ask::{Drift, DriverError, Head};
use kl_base::{Box, NoMemory};
use kl_exchange::FileError;
use kl_heads::{FileReader, states_no_other};
use kl_outside::Files;
use kl_type::Ty;
use kl_value::Value;
use std::alloc::Global;

/// Appends the next rows of the cursor at a place, which then stands behind them, and says how many. Where none is left,
/// the file has to end there, with as many bytes as were kept.
///
/// # Errors
/// `Failed` on a fault; `Changed`; `NoMemory`. No row is appended then, and the cursor is of no use any more.
pub fn hand_at<F: Files>(
    alloc: Global,
    files: &mut F,
    cursors: &mut Vec<Option<Open>>,
    cursor: usize,
    limit: u64,
    most: u32,
    into: &mut Vec<Value>,
) -> Result<u64, DriverError>
    requires room { limit < 2 ^ 63 }
    requires some { 0 < most }
    requires is_open { IsSome (open_at cursors.old.items cursor) }
    requires reading { (o : Opened) → open_at cursors.old.items cursor ≡ Some o → IsReading limit (F.state files.old) o }
    ensures { HandsAt limit cursor most into.old.items into.new.items result cursors.old.items cursors.new.items (F.state files.old)
        (F.state files.new) }
{
    let Some(open) = &mut cursors[cursor] else {
        unreachable!()
    };
    hand_next(alloc, files, open, limit, most, into)
}

// Appends the next rows of a cursor.
fn hand_next<F: Files>(
    alloc: Global,
    files: &mut F,
    cursor: &mut Open,
    limit: u64,
    most: u32,
    into: &mut Vec<Value>,
) -> Result<u64, DriverError>
    requires room { limit < 2 ^ 63 }
    requires some { 0 < most }
    requires reading { IsReading limit (F.state files.old) cursor.old }
    ensures { Hands limit most into.old.items into.new.items result cursor.old cursor.new (F.state files.old) (F.state files.new) }
{
    let source = cursor.source.get();
    match pass_head(
        alloc,
        files,
        &mut cursor.reader,
        source,
        limit,
        cursor.taken,
    ) {
        Ok(()) => {}
        Err(error) => return Err(error),
    }
    let left = source.count - cursor.taken;
    let count = left.min(u64::from(most));
    if count == 0 {
        return match meet_end(files, &mut cursor.reader, source, limit) {
            Ok(()) => Ok(0),
            Err(error) => Err(error),
        };
    }
    let before = into.len();
    match take_rows(
        files,
        &mut cursor.reader,
        source,
        limit,
        cursor.taken,
        count,
        into,
    ) {
        Ok(()) => {
            cursor.taken += count;
            Ok(count)
        }
        Err(error) => {
            into.truncate(before);
            Err(error)
        }
    }
}

// Reads the head over, where it was not yet. It has to be as it was when the source was attached.
fn pass_head<F: Files>(
    alloc: Global,
    files: &mut F,
    reader: &mut FileReader,
    source: &Source,
    limit: u64,
    taken: u64,
) -> Result<(), DriverError>
    requires room { limit < 2 ^ 63 }
    requires kept { IsKept limit (F.state files.old).told source.now }
    requires so_far { HasTaken limit source.now taken reader.old (F.state files.old) }
    ensures { PassesHead limit source.now taken result reader.old reader.new (F.state files.old) (F.state files.new) }
{
    if !reader.is_at_front() {
        return Ok(());
    }
    match reader.head(files) {
        Ok(found) => same_head(alloc, source, found),
        Err(error) => Err(unread(error, limit, source.bytes)),
    }
}

// The file states what it stated when the source was attached.
fn same_head(alloc: Global, source: &Source, found: Option<Ty>) -> Result<(), DriverError>
    ensures { HasHead source.now found result }
{
    if source.stated == found.is_some() && states_no_other(&found, item_of(&source.ty)) {
        return Ok(());
    }
    let kept = kept_head(alloc, source)?;
    let kept = Box::new(alloc, kept)?;
    let found = Box::new(alloc, head_as(found))?;
    Err(DriverError::Changed {
        drift: Drift::Header { kept, found },
    })
}

// What the file stated when the source was attached.
fn kept_head(alloc: Global, source: &Source) -> Result<Head, NoMemory>
    ensures { IfOk result (λ head. head ≡ head_of source.now) }
{
    if source.stated {
        let ty = item_of(&source.ty).dup(alloc)?;
        Ok(Head::Stated(ty))
    } else {
        Ok(Head::Absent)
    }
}

fn head_as(found: Option<Ty>) -> Head
    ensures { result ≡ head_as found }
{
    match found {
        None => Head::Absent,
        Some(ty) => Head::Stated(ty),
    }
}

// Appends so many next rows of a source, of which so many were taken before.
fn take_rows<F: Files>(
    files: &mut F,
    reader: &mut FileReader,
    source: &Source,
    limit: u64,
    taken: u64,
    count: u64,
    into: &mut Vec<Value>,
) -> Result<(), DriverError>
    requires room { limit < 2 ^ 63 }
    requires kept { IsKept limit (F.state files.old).told source.now }
    requires within { taken + count ≤ source.now.count }
    requires so_far { HasTaken limit source.now taken reader.old (F.state files.old) }
    requires behind { reader.old.front ≡ false }
    ensures { TakesRows limit source.now taken count into.old.items into.new.items result reader.old reader.new (F.state files.old)
        (F.state files.new) }
{
    'rows: for number in taken..taken + count {
        match take_row(files, reader, source, limit, number, into) {
            Ok(()) => {}
            Err(error) => return Err(error),
        }
    }
    Ok(())
}

// Appends the row of this number, which is the next one.
fn take_row<F: Files>(
    files: &mut F,
    reader: &mut FileReader,
    source: &Source,
    limit: u64,
    number: u64,
    into: &mut Vec<Value>,
) -> Result<(), DriverError>
    requires room { limit < 2 ^ 63 }
    requires kept { IsKept limit (F.state files.old).told source.now }
    requires within { number < source.now.count }
    requires so_far { HasTaken limit source.now number reader.old (F.state files.old) }
    requires behind { reader.old.front ≡ false }
    ensures { TakesRow limit source.now number into.old.items into.new.items result reader.old reader.new (F.state files.old)
        (F.state files.new) }
{
    match next_row(reader, files, item_of(&source.ty)) {
        Ok(Some(row)) => push_row(into, row),
        Ok(None) => Err(DriverError::Changed {
            drift: Drift::Count {
                kept: source.count,
                found: number,
            },
        }),
        Err(halt) => Err(changed(halt, limit, source.bytes, number)),
    }
}

fn push_row(into: &mut Vec<Value>, row: Value) -> Result<(), DriverError>
    ensures { Pushes row into.old.items into.new.items result }
{
    into.push(row)?;
    Ok(())
}

// All rows that were kept were taken: nothing is left, and as many bytes were read as were kept.
fn meet_end<F: Files>(
    files: &mut F,
    reader: &mut FileReader,
    source: &Source,
    limit: u64,
) -> Result<(), DriverError>
    requires room { limit < 2 ^ 63 }
    requires kept { IsKept limit (F.state files.old).told source.now }
    requires so_far { HasTaken limit source.now source.now.count reader.old (F.state files.old) }
    requires behind { reader.old.front ≡ false }
    ensures { MeetsEnd limit source.now result reader.old reader.new (F.state files.old) (F.state files.new) }
{
    let more = DriverError::Changed {
        drift: Drift::Count {
            kept: source.count,
            found: source.count + 1,
        },
    };
    match skip_row(reader, files, item_of(&source.ty)) {
        Ok(true) => Err(more),
        Err(Halt::Misfit) => Err(more),
        Ok(false) => same_bytes(source.bytes, reader.total()),
        Err(Halt::Unread(error)) => Err(unread(error, limit, source.bytes)),
    }
}

// The file has as many bytes as were kept.
fn same_bytes(kept: u64, found: u64) -> Result<(), DriverError>
    ensures { HasBytes kept found result }
{
    if found == kept {
        Ok(())
    } else {
        Err(DriverError::Changed {
            drift: Drift::Bytes { kept, found },
        })
    }
}

// What is told where the next item is no row, and so many were taken.
fn changed(halt: Halt, limit: u64, kept: u64, taken: u64) -> DriverError
    requires { limit < 2 ^ 63 }
    ensures { result ≡ changed_as limit kept taken halt }
{
    match halt {
        Halt::Misfit => DriverError::Changed {
            drift: Drift::Misfit { item: taken },
        },
        Halt::Unread(error) => unread(error, limit, kept),
    }
}

// What is told where no item was read, and so many bytes were kept. Of a file that has more bytes than are looked at, one
// byte more than these was seen.
fn unread(error: FileError, limit: u64, kept: u64) -> DriverError
    requires { limit < 2 ^ 63 }
    ensures { result ≡ unread_as limit kept error }
{
    match error {
        FileError::Bad { place } | FileError::TooDeep { place } => DriverError::Changed {
            drift: Drift::Unread { place },
        },
        FileError::TooLong => DriverError::Changed {
            drift: Drift::Bytes {
                kept,
                found: limit + 1,
            },
        },
        FileError::Read => DriverError::Failed,
        FileError::NoMemory => DriverError::NoMemory,
    }
}
