//! The JSON values of an open file, one behind the other.
ghost use Rattle.std.specs.Prelude.{◌≡◌, ◌≤◌, [], None, Some, Ok, Err, IfOk, IfErr, false, true, length, take, IsSome};
ghost use Rattle.std.specs.Str.{IsUtf8};
ghost use Rattle.json.specs.Json.{Json as AJson, document};
ghost use Rattle.kl_json.specs.Files.{EndsWith, FetchesOn, IsWithin, Means, NextValue, PassesBlank, TakesText, fetch_fault, passed, unread};
ghost use Rattle.kl_json.specs.Meaning.{meaning};
ghost use Rattle.kl_json.specs.declared.reader.ItemError.TheVariants as item_error;

use crate::choices::{Choices, Refusal};
use crate::meaning::value_of;
use crate::scan::{Found, Scan, blanks, ends_at};
use json::{Error, Scratch, Value as Json};
use kl_exchange::{FileError, FileReader, MOST_READ};
use kl_outside::Files;
use kl_value::Value;
use std::alloc::Global;
use std::marker::Model;

// How many bytes of a file are fetched at a time.
const PIECE: usize = 8_192;

/// Why no value is answered.
#[derive(Clone, Copy, Debug, Drop, PartialEq, Eq)]
pub enum JsonError {
    /// A read failed.
    Read,
    NoMemory,
    /// The file goes on with what is no JSON value, behind so many bytes of values and white space.
    Bad { place: u64 },
    /// The byte at the place opens an array or an object inside 128 others.
    TooDeep { place: u64 },
    /// The file has more bytes than are looked at.
    TooLong,
    /// The JSON value behind so many bytes is no value of the language.
    Refused { refusal: Refusal, place: u64 },
}

/// Reads the JSON values of an open file, a piece at a time. Of the file no more is held than a piece and the value that is
/// read. They stand one behind the other, with white space before and behind each where it is wanted. Behind a number or a
/// word comes white space, an array, an object, a string, or the file's end.
#[derive(Drop)]
pub struct JsonReader {
    alloc: Global,
    items: FileReader,
    // The number of bytes before those that were fetched.
    place: u64,
    scan: Scan,
    scratch: Scratch,
}

impl Model for JsonReader {
    ghost use Rattle.kl_json.specs.Files.{Reading, IsAt};

    ghost Value = { Reading };

    ghost view = { λ r. record { place = r.place; items = r.items } };

    ghost invariant = { λ r. IsAt r.place r.items };
}

impl JsonReader {
    /// Before the first value of an open file. Takes no memory.
    pub fn new(alloc: Global, file: u64) -> JsonReader
        ensures { result ≡ unread file }
    {
        JsonReader {
            alloc,
            items: FileReader::new(alloc, file, MOST_READ, PIECE),
            place: 0,
            scan: Scan::new(),
            scratch: Scratch::new(alloc),
        }
    }

    /// The next value, or none where only white space is left up to the file's end.
    ///
    /// # Errors
    /// - `Refused`: a JSON value stands there that is no value of the language, for this reason. Its place is the number of
    ///   bytes before it.
    /// - `Bad`: no JSON value in UTF-8 stands there, or it does not end where it has to.
    /// - `TooDeep`: the byte at the place opens an array or an object inside 128 others.
    /// - `TooLong`: less than a value, up to the greatest number of bytes, and the file has more.
    /// - `Read`: a read failed, and the files' count of faults rose.
    /// - `NoMemory`: want of memory.
    pub fn next<F: Files>(
        &mut self,
        choices: &Choices,
        files: &mut F,
    ) -> Result<Option<Value>, JsonError>
        requires { IsSome ((F.state files.old).left self.old.items.file) }
        ensures { NextValue choices.now result self.old self.new (F.state files.old) (F.state files.new) }
    {
        'pieces: loop {
            self.pass_blanks();
            match self.look() {
                Found::Ends(count) => return self.take(choices, count),
                Found::TooDeep(at) => {
                    return Err(JsonError::TooDeep {
                        place: self.place_of(at),
                    });
                }
                Found::More => {}
            }
            if self.has_ended() {
                return self.last(choices);
            }
            match self.fetch(files) {
                Ok(()) => {}
                Err(error) => return Err(error),
            }
        }
    }

    // Where the value ends that stands first in what was fetched.
    fn look(&mut self) -> Found
        ensures within { IsWithin (length self.new.items.text.left) result }
        ensures same { self.new ≡ self.old }
    {
        self.scan.on(self.items.left())
    }

    fn has_ended(&self) -> bool
        ensures { result ≡ self.now.items.text.finished }
    {
        self.items.has_ended()
    }

    // The number of bytes before one of those that were fetched.
    fn place_of(&self, at: usize) -> u64
        requires { at ≤ length self.now.items.text.left }
    {
        let fetched = self.items.left().len();
        self.place + at.min(fetched) as u64
    }

    // The file has ended, and what is left is not known to be a value.
    fn last(&mut self, choices: &Choices) -> Result<Option<Value>, JsonError>
        requires { self.old.items.text.finished ≡ true }
        ensures { EndsWith choices.now result self.old self.new }
    {
        let count = self.items.left().len();
        if count == 0 {
            return Ok(None);
        }
        if self.scan.is_in_word() {
            return self.take(choices, count);
        }
        Err(JsonError::Bad { place: self.place })
    }

    // The value of the first bytes.
    fn take(&mut self, choices: &Choices, count: usize) -> Result<Option<Value>, JsonError>
        requires { count ≤ length self.old.items.text.left }
        ensures { TakesText choices.now count result self.old self.new }
    {
        self.scan = Scan::new();
        if !ends_at(self.items.left(), count, self.items.has_ended()) {
            return Err(JsonError::Bad { place: self.place });
        }
        let text = &self.items.left()[..count];
        match item(self.alloc, choices, text, &mut self.scratch) {
            Ok(Ok(value)) => {
                self.pass(count);
                Ok(Some(value))
            }
            Ok(Err(refusal)) => Err(JsonError::Refused {
                refusal,
                place: self.place,
            }),
            Err(ItemError::Bad) => Err(JsonError::Bad { place: self.place }),
            Err(ItemError::NoMemory) => Err(JsonError::NoMemory),
        }
    }

    fn pass_blanks(&mut self)
        ensures { PassesBlank self.old self.new }
    {
        let count = blanks(self.left());
        self.pass(count);
    }

    fn left(&self) -> &[u8]
        ensures left { result.now ≡ self.now.items.text.left }
        ensures within { length self.now.items.text.left ≤ self.now.items.limit }
    {
        self.items.left()
    }

    fn pass(&mut self, count: usize)
        requires few { count ≤ length self.old.items.text.left }
        requires within { count ≤ self.old.items.limit }
        ensures { self.new ≡ passed count self.old }
    {
        self.items.cut(count);
        self.place += count as u64;
        self.scan.pass(count);
    }

    // Fetches more bytes, or learns that there are none.
    fn fetch<F: Files>(&mut self, files: &mut F) -> Result<(), JsonError>
        requires is_open { IsSome ((F.state files.old).left self.old.items.file) }
        requires unfinished { self.old.items.text.finished ≡ false }
        ensures { FetchesOn result self.old self.new (F.state files.old) (F.state files.new) }
    {
        match self.items.fetch_piece(files) {
            Ok(()) => Ok(()),
            Err(error) => Err(fault_of(error)),
        }
    }
}

fn fault_of(error: FileError) -> JsonError
    ensures { result ≡ fetch_fault error }
{
    match error {
        FileError::Read => JsonError::Read,
        FileError::NoMemory => JsonError::NoMemory,
        FileError::Bad { place } => JsonError::Bad { place },
        FileError::TooDeep { place } => JsonError::TooDeep { place },
        FileError::TooLong => JsonError::TooLong,
    }
}

#[derive(Clone, Copy, Drop)]
enum ItemError {
    Bad,
    NoMemory,
}

// What the value of a JSON text is.
fn item(
    alloc: Global,
    choices: &Choices,
    text: &[u8],
    scratch: &mut Scratch,
) -> Result<Result<Value, Refusal>, ItemError>
    ensures ok { IfOk result (λ r. Means choices.now text.now r) }
    ensures bad { result ≡ Err item_error.Bad → IsUtf8 text.now → document text.now ≡ None }
{
    match Json::from_slice(alloc, text, scratch) {
        Ok(json) => match value_of(alloc, choices, &json) {
            Ok(meant) => Ok(meant),
            Err(_) => Err(ItemError::NoMemory),
        },
        Err(Error::OutOfMemory) => Err(ItemError::NoMemory),
        Err(_) => Err(ItemError::Bad),
    }
}
