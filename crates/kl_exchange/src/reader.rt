ghost use Rattle.std.specs.Prelude.{◌≡◌, ◌+◌, ◌^◌, ◌<◌, ◌≤◌, [], ◌++◌, length, drop, true, false, OnOk, OnErr, IsSome};
ghost use Rattle.std.specs.List.{list_all};
ghost use Rattle.kl_exchange.specs.Grammar.{is_blank};
ghost use Rattle.kl_exchange.specs.Fetching.{FetchesBehind};
ghost use Rattle.kl_exchange.specs.Reading.{ReadsNext};
ghost use Rattle.kl_exchange.specs.Scan.{IsBegun};

use crate::error::ReadError;
use crate::machine::{Machine, is_blank};
use crate::memo::Memo;
use crate::scan::{Halt, Scanned, scan};
use kl_base::NoMemory;
use kl_outside::{Files, Stop};
use kl_value::Value;
use std::alloc::Global;
use std::marker::Model;

/// What a reader answers.
#[derive(Drop)]
pub enum Item {
    /// The next item.
    Value(Value),
    /// The bytes left are less than an item, and more may come.
    NeedMore,
    /// No more bytes come, and only white space is left.
    End,
}

/// Reads the items of an exchange text that comes in pieces. What it answers does not depend on how the bytes were cut.
///
/// Contracts see the number of bytes in the items read so far, the bytes behind them, whether more come, and what was
/// refused for good. It looks at each byte a bounded number of times, but for those of an item that met want of memory,
/// which are read again from the item's beginning.
#[derive(Drop)]
pub struct Reader {
    alloc: Global,
    // Bytes of items read, then those left.
    buffer: Vec<u8>,
    // Where the bytes left begin.
    start: usize,
    // Up to where the machine has taken them.
    scanned: usize,
    machine: Machine,
    memo: Memo,
    place: u64,
    finished: bool,
    refused: Option<ReadError>,
}

impl Model for Reader {
    ghost use Rattle.std.proofs.Common.{drop};
    ghost use Rattle.kl_exchange.specs.State.{State};

    ghost Value = { State };

    ghost use Rattle.kl_exchange.specs.Scan.{KeepsRun};

    ghost view = { λ r. record { place = r.place; left = drop r.start r.buffer.items; finished = r.finished; refused = r.refused } };

    ghost invariant = { λ r. KeepsRun r.buffer.items r.start r.scanned r.place r.machine };
}

impl Reader {
    /// Before any bytes. Takes no memory.
    pub fn new(alloc: Global) -> Reader
        ensures { result ≡ record { place = 0; left = []; finished = false; refused = None } }
    {
        Reader {
            alloc,
            buffer: Vec::new(alloc),
            start: 0,
            scanned: 0,
            machine: Machine::new(alloc),
            memo: Memo::new(alloc),
            place: 0,
            finished: false,
            refused: None,
        }
    }

    /// Adds bytes. All bytes fed to one reader are fewer than 2^64, and none come behind `finish`.
    ///
    /// # Errors
    /// Want of memory; the reader stays as it was.
    pub fn feed(&mut self, piece: &[u8]) -> Result<(), NoMemory>
        requires unfinished { self.old.finished ≡ false }
        requires room { self.old.place + (length self.old.left + length piece.now) < 2 ^ 64 }
        ensures ok { OnOk result (self.new ≡ record self.old { left = self.old.left ++ piece.now }) }
        ensures err { OnErr result (self.new ≡ self.old) }
    {
        self.drop_read();
        self.buffer.extend_from_slice(piece)?;
        Ok(())
    }

    /// Adds the next bytes of an open file, at most `most`, and answers how many. 0 is the file's end.
    ///
    /// # Errors
    /// As of the files' `read`, or want of memory; the reader and the file stay as they were.
    pub(crate) fn read_from<F: Files>(
        &mut self,
        files: &mut F,
        file: u64,
        most: usize,
    ) -> Result<usize, Stop>
        requires is_open { IsSome ((F.state files.old).left file) }
        requires some { 0 < most }
        requires room { (self.old.place + length self.old.left) + most < 2 ^ 64 }
        ensures fetched { FetchesBehind file most result self.old.left self.new.left (F.state files.old) (F.state files.new) }
        ensures same { self.new ≡ record self.old { left = self.new.left } }
    {
        self.drop_read();
        fetch_behind(&mut self.buffer, files, file, most)
    }

    /// The number of bytes that came.
    pub(crate) fn total(&self) -> u64
        ensures { result ≡ self.now.place + length self.now.left }
    {
        self.place + (self.buffer.len() - self.start) as u64
    }

    /// The bytes behind the items read so far.
    pub fn left(&self) -> &[u8]
        ensures { result.now ≡ self.now.left }
    {
        &self.buffer[self.start..]
    }

    /// Takes bytes off the front of those left. They are in no item: the reader stands as if they had not come.
    pub fn cut(&mut self, count: usize)
        requires { count ≤ length self.old.left }
        ensures { self.new ≡ record self.old { left = drop count self.old.left } }
    {
        self.start += count;
        self.scanned = self.start;
        put(&mut self.machine, Machine::new(self.alloc));
    }

    /// Whether no more bytes come.
    pub(crate) fn is_finished(&self) -> bool
        ensures { result ≡ self.now.finished }
    {
        self.finished
    }

    /// Says that no more bytes come. Takes no memory.
    pub fn finish(&mut self)
        ensures { self.new ≡ record self.old { finished = true } }
    {
        self.finished = true;
    }

    /// The number of bytes in the items read so far.
    pub fn place(&self) -> u64
        ensures { result ≡ self.now.place }
    {
        self.place
    }

    /// The next item, where one stands whole at the front of the bytes left. Else `NeedMore`, exactly where these are a
    /// proper prefix of an item and more may come, or `End`, exactly where no more come and only white space is left.
    ///
    /// A value that it answers is canonical, and what `print` writes of it with a `;` is an item of it again
    /// (`reading_laws`).
    ///
    /// # Errors
    /// - `Bad`: exactly where the bytes are in no exchange text. The place is the length of the longest prefix of all
    ///   bytes that begins one. The reader answers the same from then on.
    /// - `TooDeep`: exactly where the byte at the place opens a bracket inside 256 others, and those before it begin an
    ///   exchange text. It comes before `NeedMore` and `Bad`. The reader answers the same from then on.
    /// - `NoMemory`: want of memory; the reader stays as it was.
    pub fn next(&mut self) -> Result<Item, ReadError>
        ensures reads { ReadsNext self.old result self.new }
        // No byte is lost.
        ensures total { self.new.place + length self.new.left ≡ self.old.place + length self.old.left }
        ensures finished { self.new.finished ≡ self.old.finished }
    {
        self.answer()
    }

    fn answer(&mut self) -> Result<Item, ReadError>
        ensures { ReadsNext self.old result self.new }
    {
        match self.refused {
            Some(refused) => return Err(refused),
            None => {}
        }
        match scan(
            self.alloc,
            &mut self.memo,
            &mut self.machine,
            &self.buffer[self.scanned..],
        ) {
            Ok(Scanned::More) => {
                self.scanned = self.buffer.len();
                self.at_end()
            }
            Ok(Scanned::Ends(value, count)) => {
                let end = self.scanned + count;
                self.place += (end - self.start) as u64;
                self.start = end;
                self.scanned = end;
                Ok(Item::Value(value))
            }
            Err(Halt::Bad(count)) => {
                let place = self.place + (self.scanned + count - self.start) as u64;
                put(&mut self.machine, Machine::new(self.alloc));
                self.scanned = self.start;
                self.refused = Some(ReadError::Bad { place });
                Err(ReadError::Bad { place })
            }
            Err(Halt::TooDeep(count)) => {
                let place = self.place + (self.scanned + count - self.start) as u64;
                put(&mut self.machine, Machine::new(self.alloc));
                self.scanned = self.start;
                self.refused = Some(ReadError::TooDeep { place });
                Err(ReadError::TooDeep { place })
            }
            Err(Halt::NoMemory) => {
                put(&mut self.machine, Machine::new(self.alloc));
                self.scanned = self.start;
                Err(ReadError::NoMemory)
            }
        }
    }

    // Lets the bytes of items read go where they are more than those left.
    fn drop_read(&mut self)
        ensures { self.new ≡ self.old }
    {
        if self.start > self.buffer.len() - self.start {
            drop_front(&mut self.buffer, self.start);
            self.scanned -= self.start;
            self.start = 0;
        }
    }

    // All bytes left have been taken, and no item has ended.
    fn at_end(&mut self) -> Result<Item, ReadError>
        requires fresh { self.old.refused ≡ None }
        requires begun { IsBegun self.old.left }
        ensures { ReadsNext self.old result self.new }
    {
        if !self.finished {
            Ok(Item::NeedMore)
        } else if are_blank(&self.buffer[self.start..]) {
            Ok(Item::End)
        } else {
            let place = self.place + (self.buffer.len() - self.start) as u64;
            self.refused = Some(ReadError::Bad { place });
            Err(ReadError::Bad { place })
        }
    }
}

fn drop_front(bytes: &mut Vec<u8>, count: usize)
    requires { count ≤ length bytes.old.items }
    ensures { bytes.new.items ≡ drop count bytes.old.items }
{
    let left = bytes.len() - count;
    bytes.copy_within(count.., 0);
    bytes.truncate(left);
}

// The next bytes of an open file behind these, at most `most`.
fn fetch_behind<F: Files>(
    bytes: &mut Vec<u8>,
    files: &mut F,
    file: u64,
    most: usize,
) -> Result<usize, Stop>
    requires is_open { IsSome ((F.state files.old).left file) }
    requires some { 0 < most }
    ensures { FetchesBehind file most result bytes.old.items bytes.new.items (F.state files.old) (F.state files.new) }
{
    let before = bytes.len();
    let Some(end) = before.checked_add(most) else {
        return Err(Stop::NoMemory);
    };
    bytes.resize(end, 0)?;
    match files.read(file, &mut bytes[before..]) {
        Ok(count) => {
            bytes.truncate(before + count);
            Ok(count)
        }
        Err(stop) => {
            bytes.truncate(before);
            Err(stop)
        }
    }
}

fn put(machine: &mut Machine, next: Machine)
    ensures { machine.new ≡ next }
{
    *machine = next;
}

fn are_blank(bytes: &[u8]) -> bool
    ensures { result ≡ list_all is_blank bytes.now }
{
    bytes.iter().all(|byte| is_blank(*byte))
}
