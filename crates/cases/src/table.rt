//! Files of values.
ghost use Rattle.std.specs.Prelude.{◌≤◌, ◌^◌, length, IfOk};

use anyhow::{Result, bail};
use kl_exchange::{Item, Reader};
use kl_outside::{HostFiles, Whole, read_whole};
use kl_value::{Text, Value};

// How many bytes a file may have.
const MOST: u64 = 1 << 30;

/// The values that a file holds.
///
/// # Errors
/// The file is missing, could not be read, has too many bytes, or is no exchange text; want of memory.
pub fn read_values(rt: HostRuntime, path: &str) -> Result<Vec<Value>> {
    let bytes = read_file(rt, path)?;
    let mut reader = Reader::new(rt.alloc());
    reader.feed(bytes.slice())?;
    reader.finish();
    let mut values = Vec::new(rt.alloc());
    for _ in 0..u64::MAX {
        match next_value(&mut reader)? {
            Some(value) => values.push(value)?,
            None => break,
        }
    }
    Ok(values)
}

fn read_file(rt: HostRuntime, path: &str) -> Result<Text>
    ensures { IfOk result (λ bytes. length bytes ≤ 2 ^ 30) }
{
    match read_whole(rt.alloc(), &mut HostFiles::new(rt), path.as_bytes(), MOST) {
        Ok(Whole::Bytes(bytes)) => Ok(bytes),
        Ok(Whole::TooLong) | Err(_) => bail!("{path} is too long, or is not read"),
    }
}

// The next value, or none at the end.
fn next_value(reader: &mut Reader) -> Result<Option<Value>> {
    match reader.next()? {
        Item::Value(value) => Ok(Some(value)),
        Item::NeedMore | Item::End => Ok(None),
    }
}
