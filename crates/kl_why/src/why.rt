//! Why `kleisli` refuses a program, with the file and the byte: the status, and the text that tells of it.
ghost use Rattle.std.specs.Prelude.{◌≡◌, ◌++◌, IfOk, OnOk, codes};
ghost use Rattle.kl_why.specs.Whys.{long_text, page_of, placed_text, spot_text, status_of, unread_text, why_text};
ghost use Rattle.kl_why.specs.declared.why.Why.TheVariants.{NoMemory as WantOfMemory};

use crate::place::{put, put_told};
use crate::unfit::{Unfit, unfit_sentence, unfit_status};
use crate::wrong::{Wrong, rule_of, wrong_status};
use itoa::Buffer;
use kl_base::{Label, NoMemory, Text};
use std::alloc::Global;

/// A byte of a file.
#[derive(Drop, PartialEq, Eq)]
pub struct Spot {
    pub path: Text,
    pub bytes: Text,
    pub byte: usize,
}

/// A byte of the file at a path.
///
/// # Errors
/// Want of memory.
pub fn spot_of(alloc: Global, path: &Text, bytes: Text, byte: u32) -> Result<Spot, NoMemory>
    ensures { IfOk result (λ s. s ≡ record { path = path.now; bytes = bytes; byte = byte }) }
{
    let path = path.dup(alloc)?;
    Ok(Spot {
        path,
        bytes,
        byte: byte as usize,
    })
}

/// Why a program is refused.
#[derive(Drop, PartialEq, Eq)]
pub enum Why {
    /// The file at this path is missing or could not be read.
    Unread(Text),
    /// The program or the catalogue at this path has more than 65,536 bytes.
    TooLong(Text),
    /// This is wrong with the catalogue.
    Catalogue(Wrong, Spot),
    /// This is wrong with the program.
    Program(Wrong, Spot),
    /// This part of the program has no type where it stands, for the reason that is told.
    Untyped(Text, Spot),
    /// This is wrong with the source of a name.
    Source(Label, Unfit, Spot),
    /// The same at a place of a file that is not shown.
    SourceAt(Label, Unfit, u64),
    /// The file of the source of a name is missing or could not be read.
    SourceUnread(Label, Text),
    /// The file of the source of a name has more than so many bytes.
    SourceLong(Label, u64),
    /// Want of memory.
    NoMemory,
}

impl From<NoMemory> for Why {
    ghost from_gives = { λ _ e. e ≡ WantOfMemory };

    fn from(_error: NoMemory) -> Why {
        Why::NoMemory
    }
}

/// The status with which `kleisli` refuses a program, or 0 where it does not.
pub fn status_of(found: &Result<(), Why>) -> u8
    ensures { result ≡ status_of found.now }
{
    match found {
        Ok(()) => 0,
        Err(Why::Unread(_)) => 7,
        Err(Why::TooLong(_)) => 10,
        Err(Why::Catalogue(wrong, _)) => wrong_status(wrong),
        Err(Why::Program(wrong, _)) => wrong_status(wrong),
        Err(Why::Untyped(_, _)) => 3,
        Err(Why::Source(_, unfit, _)) => unfit_status(unfit),
        Err(Why::SourceAt(_, unfit, _)) => unfit_status(unfit),
        Err(Why::SourceUnread(_, _)) => 7,
        Err(Why::SourceLong(_, _)) => 10,
        Err(Why::NoMemory) => 9,
    }
}

/// The text that tells of it.
///
/// # Errors
/// Want of memory.
pub fn page_of(alloc: Global, found: &Result<(), Why>) -> Result<Vec<u8>, NoMemory>
    ensures { IfOk result (λ page. page.items ≡ page_of found.now) }
{
    let mut page = Vec::new(alloc);
    match found {
        Ok(()) => put(b"nothing is wrong\n", &mut page)?,
        Err(why) => put_why(alloc, why, &mut page)?,
    }
    Ok(page)
}

fn put_why(alloc: Global, why: &Why, page: &mut Vec<u8>) -> Result<(), NoMemory>
    ensures { OnOk result (page.new.items ≡ page.old.items ++ why_text why.now) }
{
    match why {
        Why::Unread(path) => put_two(
            path.slice(),
            b": this file is missing or could not be read\n",
            page,
        ),
        Why::TooLong(path) => put_two(
            path.slice(),
            b": this file has more than 65,536 bytes, the most that a program or a catalogue has\n",
            page,
        ),
        Why::Catalogue(wrong, spot) => put_spot(alloc, &rule_of(alloc, wrong)?, spot, page),
        Why::Program(wrong, spot) => put_spot(alloc, &rule_of(alloc, wrong)?, spot, page),
        Why::Untyped(reason, spot) => {
            put_spot(alloc, &untyped(alloc, reason.slice())?, spot, page)
        }
        Why::Source(name, unfit, spot) => {
            put_spot(alloc, &unfit_sentence(alloc, name, unfit)?, spot, page)
        }
        Why::SourceAt(name, unfit, place) => {
            put_placed(&unfit_sentence(alloc, name, unfit)?, *place, page)
        }
        Why::SourceUnread(name, path) => put_unread(name.slice(), path.slice(), page),
        Why::SourceLong(name, most) => put_long(name.slice(), *most, page),
        Why::NoMemory => put(b"out of memory\n", page),
    }
}

fn untyped(alloc: Global, reason: &[u8]) -> Result<Vec<u8>, NoMemory>
    ensures { IfOk result (λ text. text.items ≡ codes "this has no type where it stands: " ++ reason.now) }
{
    let mut text = Vec::new(alloc);
    put_two(b"this has no type where it stands: ", reason, &mut text)?;
    Ok(text)
}

fn put_two(front: &[u8], back: &[u8], page: &mut Vec<u8>) -> Result<(), NoMemory>
    ensures { OnOk result (page.new.items ≡ page.old.items ++ front.now ++ back.now) }
{
    put(front, page)?;
    put(back, page)
}

fn put_spot(alloc: Global, sentence: &[u8], spot: &Spot, page: &mut Vec<u8>) -> Result<(), NoMemory>
    ensures { OnOk result (page.new.items ≡ page.old.items ++ spot_text sentence.now spot.now) }
{
    put_told(
        alloc,
        spot.path.slice(),
        spot.bytes.slice(),
        spot.byte,
        sentence,
        page,
    )
}

fn put_placed(sentence: &[u8], place: u64, page: &mut Vec<u8>) -> Result<(), NoMemory>
    ensures { OnOk result (page.new.items ≡ page.old.items ++ placed_text sentence.now place) }
{
    put(sentence, page)?;
    put(b" at ", page)?;
    put(Buffer::new().format(place).as_bytes(), page)?;
    put(b"\n", page)
}

fn put_unread(name: &[u8], path: &[u8], page: &mut Vec<u8>) -> Result<(), NoMemory>
    ensures { OnOk result (page.new.items ≡ page.old.items ++ unread_text name.now path.now) }
{
    put_two(path, b": this file of source ", page)?;
    put_missing(name, page)
}

fn put_missing(name: &[u8], page: &mut Vec<u8>) -> Result<(), NoMemory>
    ensures { OnOk result (page.new.items ≡ page.old.items ++ name.now ++ codes " is missing or could not be read\n") }
{
    put_two(name, b" is missing or could not be read\n", page)
}

fn put_long(name: &[u8], most: u64, page: &mut Vec<u8>) -> Result<(), NoMemory>
    ensures { OnOk result (page.new.items ≡ page.old.items ++ long_text name.now most) }
{
    put_two(b"source ", name, page)?;
    put(b": its file has more than ", page)?;
    put_two(Buffer::new().format(most).as_bytes(), b" bytes\n", page)
}
