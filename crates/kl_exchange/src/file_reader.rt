//! The items of an open file.
ghost use Rattle.std.specs.Prelude.{◌≡◌, ◌+◌, ◌-◌, ◌<◌, ◌≤◌, [], None, Ok, true, false, length, drop, IsSome};
ghost use Rattle.kl_exchange.specs.FileItems.{most_read};
ghost use Rattle.kl_exchange.specs.FileReading.{HandsOut, Fetches, FetchesPiece, MayGrow, NextItem};
ghost use Rattle.kl_exchange.specs.Reading.{Waits};

use crate::error::{FileError, ReadError};
use crate::reader::{Item, Reader};
use kl_outside::{Files, Stop};
use kl_value::Value;
use std::alloc::Global;
use std::marker::Model;

/// How many bytes of a file the program looks at: 16 GiB.
pub const MOST_READ: u64 = 17_179_869_184;

/// Reads the items of an exchange text in an open file, a piece at a time. Of the file no more is held than a piece and
/// the item that is read. Each open file has a reader of its own, and the file stays open behind it.
///
/// What stands first in the file is answered first: an item, white space up to the end, or the refusal. At most `limit`
/// bytes are looked at.
///
/// `next` answers the next item. Who has something to do before a read that may wait, as a page to be written, asks
/// `next_held` for the items that were fetched, and calls `fetch` when it answers `NeedMore`.
#[derive(Drop)]
pub struct FileReader {
    file: u64,
    limit: u64,
    piece: usize,
    reader: Reader,
    past: bool,
}

impl Model for FileReader {
    ghost use Rattle.kl_exchange.specs.FileReading.{FileReading};

    ghost Value = { FileReading };

    ghost use Rattle.kl_exchange.specs.FileReading.{IsFedWithin};

    ghost view = { λ r. record { file = r.file; limit = r.limit; piece = r.piece; text = r.reader; past = r.past } };

    ghost invariant = { λ r. IsFedWithin r.reader r.limit r.piece };
}

impl FileReader {
    /// Before the first item of an open file, of which at most `limit` bytes are looked at, and `piece` bytes fetched at
    /// a time. Takes no memory.
    pub fn new(alloc: Global, file: u64, limit: u64, piece: usize) -> FileReader
        requires { 0 < piece }
        ensures { result ≡ record {
          file = file;
          limit = limit;
          piece = piece;
          text = record { place = 0; left = []; finished = false; refused = None };
          past = false;
        } }
    {
        FileReader {
            file,
            limit,
            piece,
            reader: Reader::new(alloc),
            past: false,
        }
    }

    /// The number of bytes in the items read so far.
    pub fn place(&self) -> u64
        ensures place { result ≡ self.now.text.place }
        ensures within { result ≤ self.now.limit }
    {
        self.reader.place()
    }

    /// The number of bytes that were fetched.
    pub fn total(&self) -> u64
        ensures total { result ≡ self.now.text.place + length self.now.text.left }
        ensures within { result ≤ self.now.limit }
    {
        self.reader.total()
    }

    /// The bytes that were fetched behind the items read so far.
    pub fn left(&self) -> &[u8]
        ensures left { result.now ≡ self.now.text.left }
        ensures within { self.now.text.place + length self.now.text.left ≤ self.now.limit }
    {
        self.reader.left()
    }

    /// Whether the file was found to end behind the bytes that were fetched.
    pub fn has_ended(&self) -> bool
        ensures { result ≡ self.now.text.finished }
    {
        self.reader.is_finished()
    }

    /// Takes bytes off the front of those that were fetched, before the first item: the reader stands as one of a file that
    /// begins behind them, of which as many bytes fewer are looked at.
    pub fn cut(&mut self, count: usize)
        requires first { self.old.text.place ≡ 0 }
        requires fresh { self.old.text.refused ≡ None }
        requires within { count ≤ length self.old.text.left }
        ensures { self.new ≡ record self.old {
          limit = self.old.limit - count;
          text = record self.old.text { left = drop count self.old.text.left };
        } }
    {
        self.reader.cut(count);
        self.limit -= count as u64;
    }

    /// The next item among the bytes that were fetched, as `Reader::next`. It reads no file.
    ///
    /// # Errors
    /// As `Reader::next`. After want of memory it stays as it was.
    pub fn next_held(&mut self) -> Result<Item, ReadError>
        ensures { HandsOut result self.old self.new }
    {
        self.reader.next()
    }

    /// Fetches the next piece of the file, or learns that it has ended. It is called where the bytes fetched so far are
    /// less than an item.
    ///
    /// # Errors
    /// - `Read`: the read failed, and the files' count of faults rose. The reader stays as it was.
    /// - `NoMemory`: want of memory. The reader stays as it was.
    /// - `TooLong`: exactly where the file has more bytes than are looked at, and less than an item stands behind the
    ///   items up to there. The reader answers the same from then on.
    pub fn fetch<F: Files>(&mut self, files: &mut F) -> Result<(), FileError>
        requires is_open { IsSome ((F.state files.old).left self.old.file) }
        requires waits { Waits self.old.text self.old.text }
        ensures { Fetches result self.old self.new (F.state files.old) (F.state files.new) }
    {
        self.fetch_piece(files)
    }

    /// As `fetch`, whatever the bytes fetched so far are, as long as the file was not found to end.
    ///
    /// # Errors
    /// As `fetch`. `TooLong`: the file has more bytes than are looked at, and all that are were fetched.
    pub fn fetch_piece<F: Files>(&mut self, files: &mut F) -> Result<(), FileError>
        requires is_open { IsSome ((F.state files.old).left self.old.file) }
        requires grows { MayGrow self.old.text }
        ensures { FetchesPiece result self.old self.new (F.state files.old) (F.state files.new) }
    {
        if self.past {
            return Err(FileError::TooLong);
        }
        let room = self.limit - self.reader.total();
        if room == 0 {
            return self.look_past(files);
        }
        let most = room.min(self.piece as u64) as usize;
        match self.reader.read_from(files, self.file, most) {
            Ok(0) => {
                self.reader.finish();
                Ok(())
            }
            Ok(_) => Ok(()),
            Err(Stop::Failed) => Err(FileError::Read),
            Err(Stop::NoMemory) => Err(FileError::NoMemory),
        }
    }

    // Learns whether the file has more bytes than are looked at, all of which were fetched.
    fn look_past<F: Files>(&mut self, files: &mut F) -> Result<(), FileError>
        requires is_open { IsSome ((F.state files.old).left self.old.file) }
        requires grows { MayGrow self.old.text }
        requires met { self.old.text.place + length self.old.text.left ≡ self.old.limit }
        requires so_far { self.old.past ≡ false }
        ensures { FetchesPiece result self.old self.new (F.state files.old) (F.state files.new) }
    {
        let mut byte = [0u8; 1];
        match files.read(self.file, &mut byte) {
            Ok(0) => {
                self.reader.finish();
                Ok(())
            }
            Ok(_) => {
                self.past = true;
                Err(FileError::TooLong)
            }
            Err(Stop::Failed) => Err(FileError::Read),
            Err(Stop::NoMemory) => Err(FileError::NoMemory),
        }
    }

    /// The next item, or none where only white space is left up to the file's end.
    ///
    /// # Errors
    /// What stands behind the items read so far, each exactly where it does. The reader answers the same from then on.
    /// - `Bad`: the file is no exchange text. The place is the length of its longest front that begins one.
    /// - `TooDeep`: the byte at the place opens a bracket inside 256 others.
    /// - `TooLong`: less than an item, up to the greatest number of bytes, and the file has more.
    ///
    /// Faults, after which the reader has the same items before it.
    /// - `Read`: a read failed, and the files' count of faults rose.
    /// - `NoMemory`: want of memory.
    pub fn next<F: Files>(&mut self, files: &mut F) -> Result<Option<Value>, FileError>
        requires { IsSome ((F.state files.old).left self.old.file) }
        ensures reads { NextItem result self.old self.new (F.state files.old) (F.state files.new) }
        // Where none is left, all bytes of the file were fetched.
        ensures ended { result ≡ Ok None → self.new.text.finished ≡ true }
    {
        'pieces: loop {
            match self.next_held() {
                Ok(Item::Value(value)) => return Ok(Some(value)),
                Ok(Item::End) => return Ok(None),
                Ok(Item::NeedMore) => match self.fetch(files) {
                    Ok(()) => {}
                    Err(error) => return Err(error),
                },
                Err(ReadError::Bad { place }) => return Err(FileError::Bad { place }),
                Err(ReadError::TooDeep { place }) => return Err(FileError::TooDeep { place }),
                Err(ReadError::NoMemory) => return Err(FileError::NoMemory),
            }
        }
    }
}
