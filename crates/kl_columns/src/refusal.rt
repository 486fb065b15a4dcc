//! Why no catalogue is printed: the status, and the line that tells of it.
ghost use Rattle.std.specs.Prelude.{◌≡◌, ◌++◌, OnOk, codes, decimal};
ghost use Rattle.kl_columns.specs.Refusals.{refusal_line, refusal_status};
ghost use Rattle.kl_columns.specs.declared.refusal.Refusal.TheVariants.{NoMemory as WantOfMemory};

use crate::writing::put;
use itoa::Buffer;
use kl_base::{NoMemory, Text};

/// The line that tells of want of memory.
pub const OUT_OF_MEMORY: &[u8] = b"out of memory\n";

/// Why no catalogue is printed.
#[derive(Drop, PartialEq, Eq)]
pub enum Refusal {
    /// The words name no tables and no files of values.
    Usage,
    /// The file at this path is no table whose columns can be named: the record of this number is bad, the header being 0.
    BadFile { path: Text, record: u64 },
    /// The file at this path is no text of values from this place on, or the item there lacks the type that the file states.
    BadText { path: Text, place: u64 },
    /// The file at this path states no type, and the item of this number, the first being 1, has none in common with those
    /// before it.
    NoCommonType { path: Text, item: u64 },
    /// The catalogue does not read back from this byte on.
    BadCatalogue { byte: u32 },
    /// A file is missing or could not be read.
    Read,
    /// `out` refused a write.
    Write,
    /// Want of memory.
    NoMemory,
    /// The catalogue has more than 65,536 bytes.
    CatalogueBytes,
    /// A table has more than 268,435,456 bytes, or a file of values more than 17,179,869,184.
    FileBytes,
    /// An item of a file of values nests deeper than 256.
    ItemNesting,
}

impl From<NoMemory> for Refusal {
    ghost from_gives = { λ _ e. e ≡ WantOfMemory };

    fn from(_: NoMemory) -> Refusal {
        Refusal::NoMemory
    }
}

/// The status of a refusal.
pub fn status(refusal: &Refusal) -> u8
    ensures { result ≡ refusal_status refusal.now }
{
    match refusal {
        Refusal::Usage => 1,
        Refusal::BadCatalogue { .. } => 4,
        Refusal::BadFile { .. } | Refusal::BadText { .. } | Refusal::NoCommonType { .. } => 5,
        Refusal::Read => 7,
        Refusal::Write => 8,
        Refusal::NoMemory => 9,
        Refusal::CatalogueBytes | Refusal::FileBytes | Refusal::ItemNesting => 10,
    }
}

/// Puts the line of a refusal behind a page.
///
/// # Errors
/// Want of memory.
pub fn put_line(refusal: &Refusal, page: &mut Vec<u8>) -> Result<(), NoMemory>
    ensures { OnOk result (page.new.items ≡ page.old.items ++ refusal_line refusal.now) }
{
    match refusal {
        Refusal::Usage => put(b"usage: klcat [--sql] FILE ..\n", page),
        Refusal::BadCatalogue { byte } => {
            put_numbered(b"catalogue: syntax at byte ", *byte as u64, page)
        }
        Refusal::BadFile { path, record } => put_source(path, b": bad at ", *record, page),
        Refusal::BadText { path, place } => put_source(path, b": bad at ", *place, page),
        Refusal::NoCommonType { path, item } => {
            put_source(path, b": no common type at item ", *item, page)
        }
        Refusal::Read => put(b"read fault\n", page),
        Refusal::Write => put(b"write fault\n", page),
        Refusal::NoMemory => put(OUT_OF_MEMORY, page),
        Refusal::CatalogueBytes => put(b"limit: catalogue bytes\n", page),
        Refusal::FileBytes => put(b"limit: file bytes\n", page),
        Refusal::ItemNesting => put(b"limit: item nesting\n", page),
    }
}

// Puts the line of a file: its path, and behind these words a number.
fn put_source(path: &Text, front: &[u8], number: u64, page: &mut Vec<u8>) -> Result<(), NoMemory>
    ensures { OnOk result (page.new.items ≡ page.old.items ++ codes "source " ++ path.now ++ front.now ++ decimal number ++ codes "\n") }
{
    put(b"source ", page)?;
    put(path.slice(), page)?;
    put_numbered(front, number, page)
}

// Puts a number behind its words, and ends the line.
fn put_numbered(front: &[u8], number: u64, page: &mut Vec<u8>) -> Result<(), NoMemory>
    ensures { OnOk result (page.new.items ≡ page.old.items ++ front.now ++ decimal number ++ codes "\n") }
{
    put(front, page)?;
    put(Buffer::new().format(number).as_bytes(), page)?;
    put(b"\n", page)
}
