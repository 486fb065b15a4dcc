//! The reading of a whole file, which is what attaching does.
ghost use Rattle.std.specs.Prelude.{◌≡◌, ◌<◌, ◌^◌, true, IsSome};
ghost use Rattle.kl_nested.specs.Reading.{FitsHead, LooksAtHead, ReadsFile, ReadsThrough, unreadable};
ghost use Rattle.kl_nested.specs.Opening.{stopped_as};

use crate::rows::{Halt, skip_row};
use kl_ask::DriverError;
use kl_exchange::FileError;
use kl_heads::{FileReader, states_no_other};
use kl_outside::{Files, Stop};
use kl_type::Ty;
use std::alloc::Global;

/// How many bytes are fetched at a time.
pub const PIECE: usize = 65_536;

/// What is kept of a file that was read through: whether it has a head, and how many bytes and items.
#[derive(Clone, Copy)]
pub struct Kept {
    pub stated: bool,
    pub bytes: u64,
    pub count: u64,
}

/// Reads the file at a path from its start to its end, of which at most `limit` bytes are looked at, and answers what is
/// kept of it. Its items are of the type, and so is what its head states. The file is closed in every case.
///
/// # Errors
/// As `Driver::attach`, whichever stands first in the file.
pub fn read_file<F: Files>(
    alloc: Global,
    files: &mut F,
    path: &[u8],
    limit: u64,
    item: &Ty,
) -> Result<Kept, DriverError>
    requires { limit < 2 ^ 63 }
    ensures { ReadsFile limit path.now item.now result (F.state files.old) (F.state files.new) }
{
    let file = match files.open_path(path) {
        Ok(file) => file,
        Err(stop) => return Err(stopped(stop)),
    };
    let result = read_through(alloc, files, file, limit, item);
    files.close(file);
    result
}

/// The refusal of a driver whose files stopped.
pub fn stopped(stop: Stop) -> DriverError
    ensures { result ≡ stopped_as stop }
{
    match stop {
        Stop::Failed => DriverError::Failed,
        Stop::NoMemory => DriverError::NoMemory,
    }
}

// Reads an open file to its end.
fn read_through<F: Files>(
    alloc: Global,
    files: &mut F,
    file: u64,
    limit: u64,
    item: &Ty,
) -> Result<Kept, DriverError>
    requires is_open { IsSome ((F.state files.old).left file) }
    requires room { limit < 2 ^ 63 }
    ensures { ReadsThrough limit file item.now result (F.state files.old) (F.state files.new) }
{
    let mut reader = FileReader::new(alloc, file, limit, PIECE);
    let stated = match read_head(files, &mut reader, limit, item) {
        Ok(stated) => stated,
        Err(error) => return Err(error),
    };
    let mut count = 0u64;
    'items: loop {
        let place = reader.place();
        match skip_row(&mut reader, files, item) {
            Ok(true) => count += 1,
            Ok(false) => {
                return Ok(Kept {
                    stated,
                    bytes: reader.total(),
                    count,
                });
            }
            Err(halt) => return Err(unreadable(halt, place, limit)),
        }
    }
}

// Reads the head, which states no other type, and answers whether there is one.
fn read_head<F: Files>(
    files: &mut F,
    reader: &mut FileReader,
    limit: u64,
    item: &Ty,
) -> Result<bool, DriverError>
    requires is_open { IsSome ((F.state files.old).left reader.old.items.file) }
    requires front { reader.old.front ≡ true }
    ensures { LooksAtHead limit item.now result reader.old reader.new (F.state files.old) (F.state files.new) }
{
    match reader.head(files) {
        Ok(head) => fits(head, item),
        Err(error) => Err(unreadable(Halt::Unread(error), 0, limit)),
    }
}

// Whether there is a head, which states no other type.
fn fits(head: Option<Ty>, item: &Ty) -> Result<bool, DriverError>
    ensures { FitsHead item.now head result }
{
    if states_no_other(&head, item) {
        Ok(head.is_some())
    } else {
        Err(DriverError::BadSource { place: 0 })
    }
}

// Why a source is not attached, where so many bytes of the head and of items stand before what is no row.
fn unreadable(halt: Halt, place: u64, limit: u64) -> DriverError
    ensures { result ≡ unreadable limit place halt }
{
    match halt {
        Halt::Misfit => DriverError::BadSource { place },
        Halt::Unread(FileError::Bad { place }) => DriverError::BadSource { place },
        Halt::Unread(FileError::TooDeep { place }) => DriverError::TooDeep { place },
        Halt::Unread(FileError::TooLong) => DriverError::TooLong { most: limit },
        Halt::Unread(FileError::Read) => DriverError::Failed,
        Halt::Unread(FileError::NoMemory) => DriverError::NoMemory,
    }
}
