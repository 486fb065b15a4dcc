//! The head and the items of an open file.
ghost use Rattle.std.specs.Prelude.{◌≡◌, ◌+◌, ◌^◌, ◌<◌, ◌⊎◌, [], None, Ok, false, true, length, IsSome};
ghost use Rattle.kl_heads.specs.FileReading.{AnswersHead, HandsItem, HandsOut, MayFetch, FetchesMore, NextItem, ReadsHead};
ghost use Rattle.kl_heads.specs.FileReading.{fault_of, place_of};

use crate::front::{Front, Look};
use crate::reader::{Item, behind, item_of, kept, refusal};
use kl_exchange::{FileError, ReadError};
use kl_outside::Files;
use kl_type::Ty;
use kl_value::Value;
use std::alloc::Global;
use std::marker::Model;

/// Reads the head and the items of an exchange text in an open file, a piece at a time. Of the file no more is held than a
/// piece and the head or the item that is read. Each open file has a reader of its own, and the file stays open behind it.
///
/// What stands first in the file is answered first: the head, an item, white space up to the end, or the refusal. At most
/// `limit` bytes are looked at.
///
/// `next_held` and `fetch` are for who has something to do before a read that may wait, as a page to be written: the one
/// answers what was fetched, and where it answers `NeedMore` the other is called. `head` and `next` read as far as they
/// must.
#[derive(Drop)]
pub struct FileReader {
    items: kl_exchange::FileReader,
    // As long as a head may come.
    front: Option<Front>,
    // The number of its bytes.
    head: u64,
    // What was refused of a head.
    refused: Option<ReadError>,
}

impl Model for FileReader {
    ghost use Rattle.kl_heads.specs.FileReading.{HeadedFile, IsBegun, headed_file};

    ghost Value = { HeadedFile };

    ghost view = { λ r. headed_file r.front r.head r.items r.refused };

    ghost invariant = { λ r. IsBegun r.front r.head r.items r.refused };
}

impl FileReader {
    /// Before the first byte of an open file, of which at most `limit` bytes are looked at, and `piece` bytes fetched at a
    /// time. Takes no memory.
    pub fn new(alloc: Global, file: u64, limit: u64, piece: usize) -> FileReader
        requires { 0 < piece }
        ensures { result ≡ record {
          front = true;
          head = 0;
          items = record {
            file = file;
            limit = limit;
            piece = piece;
            text = record { place = 0; left = []; finished = false; refused = None };
            past = false;
          };
          refused = None;
        } }
    {
        FileReader {
            items: kl_exchange::FileReader::new(alloc, file, limit, piece),
            front: Some(Front::new(alloc)),
            head: 0,
            refused: None,
        }
    }

    /// The number of bytes in the head and the items read so far.
    pub fn place(&self) -> u64
        ensures { result ≡ place_of self.now }
    {
        self.head + self.items.place()
    }

    /// The number of bytes that were fetched.
    pub fn total(&self) -> u64
        ensures { result ≡ place_of self.now + length self.now.items.text.left }
    {
        self.head + self.items.total()
    }

    /// Whether it is not known yet if the file begins with a head.
    pub fn is_at_front(&self) -> bool
        ensures { result ≡ self.now.front }
    {
        self.front.is_some()
    }

    /// The head, as the first answer, or the next item among the bytes that were fetched, as `Reader::next`. It reads no
    /// file.
    ///
    /// # Errors
    /// As `Reader::next`. After want of memory it stays as it was.
    pub fn next_held(&mut self) -> Result<Item, ReadError>
        ensures { HandsOut result self.old self.new }
    {
        match self.head_held() {
            Ok(Look::Head(ty, _)) => Ok(Item::Head(ty)),
            Ok(Look::Unknown) => Ok(Item::NeedMore),
            Ok(Look::Items) => match self.item_held() {
                Ok(item) => Ok(item_of(item)),
                Err(error) => Err(error),
            },
            Err(error) => Err(error),
        }
    }

    // The next item, where no head comes any more.
    fn item_held(&mut self) -> Result<kl_exchange::Item, ReadError>
        requires { self.old.front ≡ false }
        ensures { HandsItem result self.old self.new }
    {
        match self.items.next_held() {
            Ok(item) => Ok(item),
            Err(error) => Err(behind(error, self.head)),
        }
    }

    // The head, or whether items come.
    fn head_held(&mut self) -> Result<Look, ReadError>
        ensures { AnswersHead result self.old self.new }
    {
        if let Some(refused) = self.refused {
            return Err(refused);
        }
        let Some(front) = &mut self.front else {
            return Ok(Look::Items);
        };
        match front.look(self.items.left(), self.items.has_ended()) {
            Ok(Look::Head(ty, count)) => {
                self.items.cut(count);
                self.head = count as u64;
                self.front = None;
                Ok(Look::Head(ty, count))
            }
            Ok(Look::Items) => {
                self.front = None;
                Ok(Look::Items)
            }
            Ok(Look::Unknown) => Ok(Look::Unknown),
            Err(halt) => {
                let error = refusal(halt);
                self.refused = kept(error);
                Err(error)
            }
        }
    }

    /// Fetches the next piece of the file, or learns that it has ended. It is called where the bytes fetched so far are
    /// less than a head or an item.
    ///
    /// # Errors
    /// - `Read`: the read failed, and the files' count of faults rose. The reader stays as it was.
    /// - `NoMemory`: want of memory. The reader stays as it was.
    /// - `TooLong`: exactly where the file has more bytes than are looked at, and less than a head or an item stands
    ///   behind what was read up to there. The reader answers the same from then on.
    pub fn fetch<F: Files>(&mut self, files: &mut F) -> Result<(), FileError>
        requires is_open { IsSome ((F.state files.old).left self.old.items.file) }
        requires waits { MayFetch self.old }
        ensures { FetchesMore result self.old self.new (F.state files.old) (F.state files.new) }
    {
        self.items.fetch_piece(files)
    }

    /// The head, where the file begins with one. Nothing else was read before.
    ///
    /// # Errors
    /// As `next`.
    pub fn head<F: Files>(&mut self, files: &mut F) -> Result<Option<Ty>, FileError>
        requires is_open { IsSome ((F.state files.old).left self.old.items.file) }
        requires front { self.old.front ≡ true }
        ensures { ReadsHead result self.old self.new (F.state files.old) (F.state files.new) }
    {
        'pieces: loop {
            match self.head_held() {
                Ok(Look::Head(ty, _)) => return Ok(Some(ty)),
                Ok(Look::Items) => return Ok(None),
                Ok(Look::Unknown) => match self.fetch(files) {
                    Ok(()) => {}
                    Err(error) => return Err(error),
                },
                Err(error) => return Err(file_error(error)),
            }
        }
    }

    /// The next item, or none where only white space is left up to the file's end. The head was read before.
    ///
    /// # Errors
    /// What stands behind what was read so far, each exactly where it does. The reader answers the same from then on.
    /// - `Bad`: the file is no exchange text. The place is the length of its longest front that begins one.
    /// - `TooDeep`: the byte at the place opens a bracket inside 256 others.
    /// - `TooLong`: less than an item, up to the greatest number of bytes, and the file has more.
    ///
    /// Faults, after which the reader has read the same before it.
    /// - `Read`: a read failed, and the files' count of faults rose.
    /// - `NoMemory`: want of memory.
    pub fn next<F: Files>(&mut self, files: &mut F) -> Result<Option<Value>, FileError>
        requires is_open { IsSome ((F.state files.old).left self.old.items.file) }
        requires behind { self.old.front ≡ false }
        ensures reads { NextItem result self.old self.new (F.state files.old) (F.state files.new) }
        // Where none is left, all bytes of the file were fetched.
        ensures ended { result ≡ Ok None → self.new.items.text.finished ≡ true }
    {
        'pieces: loop {
            match self.item_held() {
                Ok(kl_exchange::Item::Value(value)) => return Ok(Some(value)),
                Ok(kl_exchange::Item::End) => return Ok(None),
                Ok(kl_exchange::Item::NeedMore) => match self.fetch(files) {
                    Ok(()) => {}
                    Err(error) => return Err(error),
                },
                Err(error) => return Err(file_error(error)),
            }
        }
    }
}

fn file_error(error: ReadError) -> FileError
    ensures { result ≡ fault_of error }
{
    match error {
        ReadError::Bad { place } => FileError::Bad { place },
        ReadError::TooDeep { place } => FileError::TooDeep { place },
        ReadError::NoMemory => FileError::NoMemory,
    }
}
