//! The rows of an open file.
ghost use Rattle.std.specs.Prelude.{◌≡◌, false, IsSome};
ghost use Rattle.kl_nested.specs.Reading.{NextRow, SkipsRow};

use kl_exchange::FileError;
use kl_heads::FileReader;
use kl_outside::Files;
use kl_type::{Ty, has};
use kl_value::Value;

/// Why no row stands where the next one is due.
#[derive(Clone, Copy)]
pub enum Halt {
    /// The next item lacks the type.
    Misfit,
    /// No head or no item was read.
    Unread(FileError),
}

/// The next row, which has the type, or none at the end of the file.
///
/// # Errors
/// The next item lacks the type, or none was read.
pub fn next_row<F: Files>(
    reader: &mut FileReader,
    files: &mut F,
    item: &Ty,
) -> Result<Option<Value>, Halt>
    requires is_open { IsSome ((F.state files.old).left reader.old.items.file) }
    requires behind { reader.old.front ≡ false }
    ensures { NextRow item.now result reader.old reader.new (F.state files.old) (F.state files.new) }
{
    match reader.next(files) {
        Ok(Some(row)) => {
            if has(&row, item) {
                Ok(Some(row))
            } else {
                Err(Halt::Misfit)
            }
        }
        Ok(None) => Ok(None),
        Err(error) => Err(Halt::Unread(error)),
    }
}

/// Reads over the next row, and says whether there is one.
///
/// # Errors
/// The next item lacks the type, or none was read.
pub fn skip_row<F: Files>(reader: &mut FileReader, files: &mut F, item: &Ty) -> Result<bool, Halt>
    requires is_open { IsSome ((F.state files.old).left reader.old.items.file) }
    requires behind { reader.old.front ≡ false }
    ensures { SkipsRow item.now result reader.old reader.new (F.state files.old) (F.state files.new) }
{
    match next_row(reader, files, item) {
        Ok(row) => Ok(row.is_some()),
        Err(halt) => Err(halt),
    }
}
