//! The reader of a text that comes in pieces.
ghost use Rattle.std.specs.Prelude.{◌≡◌, ◌+◌, ◌^◌, ◌<◌, [], ◌++◌, None, false, true, length, OnOk, OnErr};
ghost use Rattle.kl_heads.specs.Fronts.{IsBehind};
ghost use Rattle.kl_heads.specs.Reading.{ReadsNext, IsWithin, behind_head, headed_of, item_as, lasting, refusal_of};

use crate::front::{Front, Look};
use crate::scan::Halt;
use kl_base::NoMemory;
use kl_exchange::ReadError;
use kl_type::Ty;
use kl_value::Value;
use std::alloc::Global;
use std::marker::Model;

/// What a reader answers.
#[derive(Drop)]
pub enum Item {
    /// The head, as the first answer: the type of the items.
    Head(Ty),
    /// The next item.
    Value(Value),
    /// The bytes left are less than an item or, before the first answer, than a head, and more may come.
    NeedMore,
    /// No more bytes come, and only white space is left.
    End,
}

/// Reads a head and the items of an exchange text that comes in pieces. What it answers does not depend on how the bytes
/// were cut. A text without a head is read as by `kl_exchange::Reader`, which is asked from the first byte on that begins
/// no head.
#[derive(Drop)]
pub struct Reader {
    items: kl_exchange::Reader,
    // As long as a head may come.
    front: Option<Front>,
    // The number of its bytes.
    head: u64,
    // Neither a head nor an item was answered.
    first: bool,
    finished: bool,
    // What was refused of a head.
    refused: Option<ReadError>,
}

impl Model for Reader {
    ghost use Rattle.kl_heads.specs.Reading.{Headed, headed_of};
    ghost use Rattle.kl_heads.specs.Fronts.{IsHeaded};

    ghost Value = { Headed };

    ghost view = { λ r. headed_of r.first r.head r.items r.refused };

    ghost invariant = { λ r. IsHeaded r.front r.first r.head r.finished r.items r.refused };
}

impl Reader {
    /// Before any bytes. Takes no memory.
    pub fn new(alloc: Global) -> Reader
        ensures { result ≡ record { first = true; text = record { place = 0; left = []; finished = false; refused = None } } }
    {
        Reader {
            items: kl_exchange::Reader::new(alloc),
            front: Some(Front::new(alloc)),
            head: 0,
            first: true,
            finished: false,
            refused: None,
        }
    }

    /// Adds bytes. All bytes fed to one reader are fewer than 2^64, and none come behind `finish`.
    ///
    /// # Errors
    /// Want of memory; the reader stays as it was.
    pub fn feed(&mut self, piece: &[u8]) -> Result<(), NoMemory>
        requires unfinished { self.old.text.finished ≡ false }
        requires room { self.old.text.place + (length self.old.text.left + length piece.now) < 2 ^ 64 }
        ensures ok { OnOk result (self.new ≡ record self.old { text = record self.old.text { left = self.old.text.left ++ piece.now } }) }
        ensures err { OnErr result (self.new ≡ self.old) }
    {
        self.items.feed(piece)
    }

    /// Says that no more bytes come. Takes no memory.
    pub fn finish(&mut self)
        ensures { self.new ≡ record self.old { text = record self.old.text { finished = true } } }
    {
        self.finished = true;
        self.items.finish();
    }

    /// The number of bytes in the head and the items read so far.
    pub fn place(&self) -> u64
        ensures { result ≡ self.now.text.place }
    {
        self.head + self.items.place()
    }

    /// The head, as the first answer, or the next item, where one stands whole at the front of the bytes left. Else
    /// `NeedMore`, exactly where these are a proper prefix of one and more may come, or `End`, exactly where no more come
    /// and only white space is left.
    ///
    /// # Errors
    /// - `Bad`: exactly where the bytes are in no exchange text. The place is the length of the longest prefix of all
    ///   bytes that begins one. The reader answers the same from then on.
    /// - `TooDeep`: exactly where the byte at the place opens a bracket inside 256 others, and those before it begin an
    ///   exchange text. It comes before `NeedMore` and `Bad`. The reader answers the same from then on.
    /// - `NoMemory`: want of memory; the reader stays as it was.
    pub fn next(&mut self) -> Result<Item, ReadError>
        ensures reads { ReadsNext self.old result self.new }
        // No byte is lost.
        ensures total { self.new.text.place + length self.new.text.left ≡ self.old.text.place + length self.old.text.left }
        ensures finished { self.new.text.finished ≡ self.old.text.finished }
    {
        if let Some(refused) = self.refused {
            return Err(refused);
        }
        let Some(front) = &mut self.front else {
            return next_item(&mut self.items, &mut self.first, self.head);
        };
        match front.look(self.items.left(), self.finished) {
            Ok(Look::Head(ty, count)) => {
                self.items.cut(count);
                self.head = count as u64;
                self.front = None;
                self.first = false;
                Ok(Item::Head(ty))
            }
            Ok(Look::Items) => {
                self.front = None;
                next_item(&mut self.items, &mut self.first, self.head)
            }
            Ok(Look::Unknown) => Ok(Item::NeedMore),
            Err(halt) => {
                let error = refusal(halt);
                self.refused = kept(error);
                Err(error)
            }
        }
    }
}

// The next item behind a head of so many bytes, or where it is known that none comes.
fn next_item(
    items: &mut kl_exchange::Reader,
    first: &mut bool,
    head: u64,
) -> Result<Item, ReadError>
    requires { IsBehind first.old head items.old }
    ensures reads { ReadsNext (headed_of first.old head items.old None) result (headed_of first.new head items.new None) }
    ensures behind { IsBehind first.new head items.new }
    ensures finished { items.new.finished ≡ items.old.finished }
{
    match items.next() {
        Ok(kl_exchange::Item::Value(value)) => {
            *first = false;
            Ok(Item::Value(value))
        }
        Ok(item) => Ok(item_of(item)),
        Err(error) => Err(behind(error, head)),
    }
}

/// An item of a text without a head as one of a text with or without.
pub fn item_of(item: kl_exchange::Item) -> Item
    ensures { result ≡ item_as item }
{
    match item {
        kl_exchange::Item::Value(value) => Item::Value(value),
        kl_exchange::Item::NeedMore => Item::NeedMore,
        kl_exchange::Item::End => Item::End,
    }
}

/// A refusal of items, whose place is counted from the first byte of the head.
pub fn behind(error: ReadError, head: u64) -> ReadError
    requires { IsWithin (behind_head head error) }
    ensures { result ≡ behind_head head error }
{
    match error {
        ReadError::Bad { place } => ReadError::Bad {
            place: head + place,
        },
        ReadError::TooDeep { place } => ReadError::TooDeep {
            place: head + place,
        },
        ReadError::NoMemory => ReadError::NoMemory,
    }
}

/// The refusal of a head, before which nothing stands.
pub fn refusal(halt: Halt) -> ReadError
    ensures { result ≡ refusal_of halt }
{
    match halt {
        Halt::Bad(place) => ReadError::Bad {
            place: place as u64,
        },
        Halt::TooDeep(place) => ReadError::TooDeep {
            place: place as u64,
        },
        Halt::NoMemory => ReadError::NoMemory,
    }
}

/// What is answered for good.
pub fn kept(error: ReadError) -> Option<ReadError>
    ensures { result ≡ lasting error }
{
    match error {
        ReadError::NoMemory => None,
        refused => Some(refused),
    }
}
