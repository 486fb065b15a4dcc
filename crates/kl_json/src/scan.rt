//! Where a JSON value ends that stands first in some bytes.
//!
//! It is found by brackets, quotes, commas and colons: where all is closed, or with the first byte that no JSON value has
//! there. So what is no JSON is mostly known some bytes behind what is wrong, and no more is held of the file than that.
ghost use Rattle.std.specs.Prelude.{◌≡◌, ◌≤◌, ◌||◌, ◌-◌, length, take, drop, true, false};
ghost use Rattle.std.specs.List.{list_all};
ghost use Rattle.kl_exchange.specs.Grammar.{is_blank};
ghost use Rattle.kl_json.specs.Files.{IsWithin, begins_closed, closes_itself, follows, may_follow, starts_blank};

use arrayvec::ArrayVec;
use kl_exchange::is_blank;

// How many arrays and objects may stand in one another.
const MOST_OPEN: usize = 128;

// What a byte stands in.
#[derive(Clone, Copy)]
enum Place {
    // It is the first.
    First,
    // A number or a word.
    Word,
    // Brackets, where a value may begin.
    Before,
    // Brackets, where none may begin: behind a value, or in a number or a word.
    After,
    // A string.
    Text,
    // Behind a backslash.
    Escape,
}

// What a byte is to the value.
#[derive(Clone, Copy)]
enum Step {
    On,
    // It stands behind the value.
    Behind,
    // It is its last, or no JSON value goes on with it.
    Last,
    // It opens a bracket too many.
    TooDeep,
}

/// How far the bytes of a value were looked at, and what is open there.
#[derive(Drop)]
pub struct Scan {
    at: usize,
    // What closes the brackets that are open, the innermost last.
    open: ArrayVec<u8, MOST_OPEN>,
    place: Place,
}

/// What was found.
#[derive(Clone, Copy)]
pub enum Found {
    /// The bytes are less than the value, as far as is known.
    More,
    /// It ends behind so many bytes, or they are none.
    Ends(usize),
    /// The byte at this place opens a bracket inside 128 others.
    TooDeep(usize),
}

impl Scan {
    /// Before the first byte.
    pub fn new() -> Scan {
        Scan {
            at: 0,
            open: ArrayVec::new(),
            place: Place::First,
        }
    }

    /// Goes to the first of the bytes behind so many.
    pub fn pass(&mut self, count: usize) {
        if count > 0 {
            *self = Scan::new();
        }
    }

    /// Whether the bytes are a number or a word so far, which may end behind them.
    pub fn is_in_word(&self) -> bool {
        matches!(self.place, Place::Word)
    }

    /// Looks at the bytes, on from where it stopped.
    pub fn on(&mut self, bytes: &[u8]) -> Found
        ensures { IsWithin (length bytes.now) result }
    {
        for at in self.at..bytes.len() {
            match self.step(bytes[at]) {
                Step::On => {}
                Step::Behind => return Found::Ends(at),
                Step::Last => return Found::Ends(at + 1),
                Step::TooDeep => return Found::TooDeep(at),
            }
        }
        self.at = bytes.len();
        Found::More
    }

    fn step(&mut self, byte: u8) -> Step {
        match self.place {
            Place::First => self.begin(byte),
            Place::Word => {
                if may_follow(byte) {
                    Step::Behind
                } else {
                    Step::On
                }
            }
            Place::Before => self.inside(byte),
            Place::After => {
                if begins_closed(byte) {
                    Step::Last
                } else {
                    self.inside(byte)
                }
            }
            Place::Text => self.in_text(byte),
            Place::Escape => {
                self.place = Place::Text;
                Step::On
            }
        }
    }

    fn begin(&mut self, byte: u8) -> Step {
        match byte {
            b'{' => self.opens(b'}'),
            b'[' => self.opens(b']'),
            b'"' => {
                self.place = Place::Text;
                Step::On
            }
            _ => {
                self.place = Place::Word;
                Step::On
            }
        }
    }

    fn opens(&mut self, closing: u8) -> Step {
        match self.open.try_push(closing) {
            Ok(()) => {
                self.place = Place::Before;
                Step::On
            }
            Err(_) => Step::TooDeep,
        }
    }

    fn inside(&mut self, byte: u8) -> Step {
        match byte {
            b'"' | b'{' | b'[' => self.begin(byte),
            b'}' | b']' => {
                if self.open.pop() == Some(byte) && !self.open.is_empty() {
                    self.place = Place::After;
                    Step::On
                } else {
                    Step::Last
                }
            }
            b',' | b':' => {
                self.place = Place::Before;
                Step::On
            }
            _ => {
                if !is_blank(byte) {
                    self.place = Place::After;
                }
                Step::On
            }
        }
    }

    fn in_text(&mut self, byte: u8) -> Step {
        match byte {
            b'\\' => {
                self.place = Place::Escape;
                Step::On
            }
            b'"' if !self.open.is_empty() => {
                self.place = Place::After;
                Step::On
            }
            b'"' => Step::Last,
            _ if byte < b' ' => Step::Last,
            _ => Step::On,
        }
    }
}

fn begins_closed(byte: u8) -> bool
    ensures { result ≡ begins_closed byte }
{
    byte == b'{' || byte == b'[' || byte == b'"'
}

fn may_follow(byte: u8) -> bool
    ensures { result ≡ may_follow byte }
{
    is_blank(byte) || begins_closed(byte)
}

/// Whether a value whose text are so many of the first bytes ends there: it ends by itself, or no number and no word goes on
/// behind it. Where the file has ended no more bytes come.
pub fn ends_at(bytes: &[u8], count: usize, ended: bool) -> bool
    requires { count ≤ length bytes.now }
    ensures { result ≡ (closes_itself (take count bytes.now) || follows ended (drop count bytes.now)) }
{
    closes_itself(&bytes[..count]) || follows(ended, &bytes[count..])
}

fn closes_itself(text: &[u8]) -> bool
    ensures { result ≡ closes_itself text.now }
{
    match text {
        [] => false,
        [first, ..] => begins_closed(*first),
    }
}

fn follows(ended: bool, behind: &[u8]) -> bool
    ensures { result ≡ follows ended behind.now }
{
    match behind {
        [] => ended,
        [first, ..] => may_follow(*first),
    }
}

/// How many bytes of white space stand first.
pub fn blanks(bytes: &[u8]) -> usize
    ensures within { result ≤ length bytes.now }
    ensures all { list_all is_blank (take result bytes.now) ≡ true }
    ensures behind { starts_blank (drop result bytes.now) ≡ false }
{
    for (i, byte) in bytes.iter().enumerate() {
        if !is_blank(*byte) {
            return i;
        }
    }
    bytes.len()
}
