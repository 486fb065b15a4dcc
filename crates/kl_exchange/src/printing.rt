//! Canonical text.
ghost use Rattle.std.specs.Prelude.{◌≡◌, ◌++◌, ◌<◌, ◌≤◌, [], ℕ, true, length, take, codes, map, FitsSigned, IsTrue};
ghost use Rattle.std.specs.Int.{w64};
ghost use Rattle.std.specs.List.{AllByRecursion, flat_map, list_all};
ghost use Rattle.std.specs.Fmt.{signed_decimal};
ghost use Rattle.kl_base.specs.Word.{is_word};
ghost use Rattle.kl_outside.specs.Sinks.{WritesWhole};
ghost use Rattle.kl_value.specs.IsCanonical.{IsCanonical};
ghost use Rattle.kl_value.specs.Shape.{depth_of};
ghost use Rattle.kl_value.specs.Written.{text_of, byte_text, with_commas, hex_digit};
ghost use Rattle.kl_exchange.specs.Grammar.{IsItem, word_of};
ghost use Rattle.kl_exchange.specs.Printing.{Puts, Prints, as_stop, field_text, is_plain};
ghost use Rattle.kl_exchange.specs.Stored.{IsStored};

use crate::error::PrintError;
use arrayvec::ArrayVec;
use itoa::Buffer;
use kl_base::Label;
use kl_outside::{Sink, Stop, write_whole};
use kl_value::{Value, separator};
use std::marker::Model;

/// A page of printed text over a sink. What is printed is held until the page is full, or until `flush`, so that the sink
/// gets few large pieces. Whoever reads where it may wait flushes first.
///
/// Contracts see the bytes that it holds. After an error it holds none, and of those that it held and was given the sink
/// took the first.
#[derive(Drop)]
pub struct Page {
    held: Held,
}

// What is printed and not yet written. Once the sink has stopped nothing more is written.
#[derive(Drop)]
struct Held {
    bytes: ArrayVec<u8, 8192>,
    stop: Option<Stop>,
}

impl Model for Page {
    ghost use Rattle.std.specs.Prelude.{◌≡◌, List, ℕ, None};

    ghost Value = { List ℕ };

    ghost view = { λ p. p.held.bytes.items };

    ghost invariant = { λ p. p.held.stop ≡ None };
}

impl Page {
    /// An empty page. Takes no memory.
    pub fn new() -> Page
        ensures { result ≡ [] }
    {
        Page {
            held: Held {
                bytes: ArrayVec::new(),
                stop: None,
            },
        }
    }

    /// Prints the canonical text of a value, as `print` says. With a `;` behind it the text reads back.
    ///
    /// # Errors
    /// - `Failed`: a write failed, and the sink's count of faults rose.
    /// - `NoMemory`: the sink found no memory, and its count of wants rose.
    pub fn print<S: Sink>(&mut self, v: &Value, sink: &mut S) -> Result<(), PrintError>
        ensures prints { Puts (text_of v.now) (as_stop result) (S.state sink.old) self.old (S.state sink.new) self.new }
        ensures reads_back { (n : ℕ) → IsCanonical v.now → depth_of v.now ≤ n → IsItem n (text_of v.now ++ codes ";") v.now }
    {
        print_value(v, sink, &mut self.held);
        match self.held.stop {
            None => Ok(()),
            Some(stop) => {
                self.held.stop = None;
                self.held.bytes.clear();
                Err(PrintError::from(stop))
            }
        }
    }

    /// Puts bytes behind those held.
    ///
    /// # Errors
    /// As `print`.
    pub fn put<S: Sink>(&mut self, piece: &[u8], sink: &mut S) -> Result<(), PrintError>
        ensures { Puts piece.now (as_stop result) (S.state sink.old) self.old (S.state sink.new) self.new }
    {
        match put_or_stop(piece, sink, &mut self.held.bytes) {
            Ok(()) => Ok(()),
            Err(stop) => {
                self.held.bytes.clear();
                Err(PrintError::from(stop))
            }
        }
    }

    /// Writes what is held.
    ///
    /// # Errors
    /// As `print`.
    pub fn flush<S: Sink>(&mut self, sink: &mut S) -> Result<(), PrintError>
        ensures wrote { WritesWhole self.old (as_stop result) (S.state sink.old) (S.state sink.new) }
        ensures empty { self.new ≡ [] }
    {
        let result = write_whole(sink, self.held.bytes.as_slice());
        self.held.bytes.clear();
        match result {
            Ok(()) => Ok(()),
            Err(stop) => Err(PrintError::from(stop)),
        }
    }
}

/// Writes the canonical text of a value, and takes no memory of its own.
///
/// Truth values stand as words, integers without leading zeros, and texts in quotes: the bytes 32 to 126 and 128 to
/// 255 as they are, but `"` and `\` behind a backslash, the bytes 10, 13 and 9 as `\n`, `\r` and `\t`, and every other
/// byte as `\x` and two lower-case hexadecimal digits. A record is `[a=1, b=2]`, a variant `<a=1>`, a set `{1, 2}`, a
/// bag `{|1, 1|}` and a list `[|2, 1|]`.
///
/// The text of a canonical value with a `;` behind it reads back: it is an item of that value, in a nesting of the
/// value's depth.
///
/// # Errors
/// After an error the sink took the first bytes of the text, and perhaps all.
/// - `Failed`: a write failed, and the sink's count of faults rose.
/// - `NoMemory`: the sink found no memory, and its count of wants rose.
pub fn print<S: Sink>(v: &Value, sink: &mut S) -> Result<(), PrintError>
    ensures wrote { WritesWhole (text_of v.now) (as_stop result) (S.state sink.old) (S.state sink.new) }
    ensures reads_back { (n : ℕ) → IsCanonical v.now → depth_of v.now ≤ n → IsItem n (text_of v.now ++ codes ";") v.now }
{
    let mut page = Page::new();
    match page.print(v, sink) {
        Ok(()) => page.flush(sink),
        Err(error) => Err(error),
    }
}

// Prints a piece, which is written once the page is full.
fn put<S: Sink>(piece: &[u8], sink: &mut S, page: &mut Held)
    ensures { Prints piece.now (S.state sink.old) page.old.bytes.items page.old.stop (S.state sink.new) page.new.bytes.items page.new.stop }
{
    match page.stop {
        Some(_) => {}
        None => {
            if let Err(stop) = put_or_stop(piece, sink, &mut page.bytes) {
                page.stop = Some(stop);
            }
        }
    }
}

fn put_or_stop<S: Sink>(
    piece: &[u8],
    sink: &mut S,
    bytes: &mut ArrayVec<u8, 8192>,
) -> Result<(), Stop>
    ensures { Puts piece.now result (S.state sink.old) bytes.old.items (S.state sink.new) bytes.new.items }
{
    if bytes.try_extend_from_slice(piece).is_ok() {
        return Ok(());
    }
    match write_whole(sink, bytes.as_slice()) {
        Ok(()) => bytes.clear(),
        Err(stop) => return Err(stop),
    }
    if bytes.try_extend_from_slice(piece).is_ok() {
        return Ok(());
    }
    write_whole(sink, piece)
}

#[cycle(print)]
fn print_value<S: Sink>(v: &Value, sink: &mut S, page: &mut Held)
    ensures prints { Prints (text_of v.now) (S.state sink.old) page.old.bytes.items page.old.stop
        (S.state sink.new) page.new.bytes.items page.new.stop }
    ensures stored { IsStored v.now }
{
    match v {
        Value::Bool(word) => print_word(*word, sink, page),
        Value::Int(number) => print_number(number, sink, page),
        Value::Text(text) => print_text(text.slice(), sink, page),
        Value::Rec(fields) => {
            put(b"[", sink, page);
            print_fields(fields.slice(), sink, page);
            put(b"]", sink, page);
        }
        Value::Inj(label, inner) => {
            put(b"<", sink, page);
            put(label.word(), sink, page);
            put(b"=", sink, page);
            print_value(inner.get(), sink, page);
            put(b">", sink, page);
        }
        Value::Set(items) => {
            put(b"{", sink, page);
            print_items(items.slice(), sink, page);
            put(b"}", sink, page);
        }
        Value::Bag(items) => {
            put(b"{|", sink, page);
            print_items(items.slice(), sink, page);
            put(b"|}", sink, page);
        }
        Value::List(items) => {
            put(b"[|", sink, page);
            print_items(items.slice(), sink, page);
            put(b"|]", sink, page);
        }
    }
}

// The items with a comma and a space between them.
#[cycle(print)]
fn print_items<S: Sink>(items: &[Value], sink: &mut S, page: &mut Held)
    ensures prints { Prints (with_commas (map text_of items.now))
        (S.state sink.old) page.old.bytes.items page.old.stop (S.state sink.new) page.new.bytes.items page.new.stop }
    ensures stored { AllByRecursion IsStored items.now }
{
    'items: for (i, item) in items.iter().enumerate() {
        put(separator(i), sink, page);
        print_value(item, sink, page);
    }
}

// The fields with a comma and a space between them.
#[cycle(print)]
fn print_fields<S: Sink>(fields: &[(Label, Value)], sink: &mut S, page: &mut Held)
    ensures prints { Prints (with_commas (map field_text fields.now))
        (S.state sink.old) page.old.bytes.items page.old.stop (S.state sink.new) page.new.bytes.items page.new.stop }
    ensures stored { AllByRecursion (λ f. IsTrue (is_word f.0) × IsStored f.1) fields.now }
{
    'fields: for (i, field) in fields.iter().enumerate() {
        put(separator(i), sink, page);
        put(field.0.word(), sink, page);
        put(b"=", sink, page);
        print_value(&field.1, sink, page);
    }
}

fn print_word<S: Sink>(word: bool, sink: &mut S, page: &mut Held)
    ensures { Prints (word_of word) (S.state sink.old) page.old.bytes.items page.old.stop
        (S.state sink.new) page.new.bytes.items page.new.stop }
{
    if word {
        put(b"true", sink, page);
    } else {
        put(b"false", sink, page);
    }
}

fn print_number<S: Sink>(number: &i64, sink: &mut S, page: &mut Held)
    ensures prints { Prints (signed_decimal number.now)
        (S.state sink.old) page.old.bytes.items page.old.stop (S.state sink.new) page.new.bytes.items page.new.stop }
    ensures fits { FitsSigned w64 number.now }
{
    let mut buffer = Buffer::new();
    put(buffer.format(*number).as_bytes(), sink, page);
}

fn print_text<S: Sink>(text: &[u8], sink: &mut S, page: &mut Held)
    ensures { Prints ((codes "\"" ++ flat_map byte_text text.now) ++ codes "\"")
        (S.state sink.old) page.old.bytes.items page.old.stop (S.state sink.new) page.new.bytes.items page.new.stop }
{
    put(b"\"", sink, page);
    let mut at = 0;
    'runs: while at < text.len() {
        let count = plain_bytes(&text[at..]);
        if count == 0 {
            print_byte(text[at], sink, page);
            at += 1;
            continue;
        }
        put(&text[at..at + count], sink, page);
        at += count;
    }
    put(b"\"", sink, page);
}

// How many bytes at the front stand as they are.
fn plain_bytes(bytes: &[u8]) -> usize
    ensures within { result ≤ length bytes.now }
    ensures all { list_all is_plain (take result bytes.now) ≡ true }
{
    for (i, byte) in bytes.iter().enumerate() {
        if !is_plain(*byte) {
            return i;
        }
    }
    bytes.len()
}

fn is_plain(byte: u8) -> bool
    ensures { result ≡ is_plain byte }
{
    matches!(byte, 32..=126 | 128..=255) && byte != b'"' && byte != b'\\'
}

fn print_byte<S: Sink>(byte: u8, sink: &mut S, page: &mut Held)
    ensures { Prints (byte_text byte) (S.state sink.old) page.old.bytes.items page.old.stop
        (S.state sink.new) page.new.bytes.items page.new.stop }
{
    match byte {
        b'"' => put(b"\\\"", sink, page),
        b'\\' => put(b"\\\\", sink, page),
        b'\n' => put(b"\\n", sink, page),
        b'\r' => put(b"\\r", sink, page),
        b'\t' => put(b"\\t", sink, page),
        32..=126 | 128..=255 => put(&[byte], sink, page),
        _ => put(
            &[b'\\', b'x', hex_digit(byte / 16), hex_digit(byte % 16)],
            sink,
            page,
        ),
    }
}

fn hex_digit(value: u8) -> u8
    requires { value < 16 }
    ensures { result ≡ hex_digit value }
{
    if value < 10 {
        b'0' + value
    } else {
        b'a' + (value - 10)
    }
}
