//! The top call.
ghost use Rattle.std.specs.Prelude.{◌≡◌, ◌++◌, [], codes, IsSome, map, string_bytes, Ok, Err, IfOk, IfErr, MatchResult};
ghost use Rattle.kl_exchange.specs.FileItems.{most_read};
ghost use Rattle.kl_exchange.specs.FileReading.{Left};
ghost use Rattle.kl_exchange.specs.Printing.{Puts, as_stop};
ghost use Rattle.kl_heads.specs.FileReading.{HasRead, limit_of};
ghost use Rattle.kl_json.specs.Answers.{AnswersWords, Does, Finishes, FromEnds, ItemsStand, JsonStands, HasNoLine, IsPrinted, PutsItems, PutsLine, PutsLines, fits, json_line, value_item, item_lines, json_lines};
ghost use Rattle.kl_json.specs.Answers.{TellsOf, ToEnds, file_fault, json_fault, open_fault, print_fault, status_of};
ghost use Rattle.kl_json.specs.Files.{unread};
ghost use Rattle.kl_json.specs.Words.{command_in};
ghost use Rattle.kl_json.specs.declared.fault.Fault.TheVariants.{NoMemory as no_memory};

use crate::choices::Choices;
use crate::fault::{Fault, status, tell};
use crate::reader::{JsonError, JsonReader};
use crate::words::{Command, read_words};
use crate::written::{WriteError, json_text};
use kl_exchange::{FileError, MOST_READ, Page, PrintError};
use kl_heads::FileReader;
use kl_outside::{Files, Sink, Stop};
use kl_type::{Ty, has};
use kl_value::Value;
use std::alloc::Global;

// How many bytes of a file are fetched at a time.
const PIECE: usize = 8_192;

// How the file ended where all was printed, or what the sink refused.
type Printing = Result<Result<(), Fault>, PrintError>;

/// Does what the words say, which are those of the command line without the program's name: `to FILE` prints each JSON value
/// of the file as an item of exchange text, and `from FILE` each item of an exchange text as a JSON value, a line each. It
/// answers the status, and tells of a fault by a line on `err`. A write that `err` refuses changes no status.
pub fn kljson<F: Files, S: Sink, E: Sink>(
    alloc: Global,
    words: &[String],
    files: &mut F,
    out: &mut S,
    err: &mut E,
) -> u8
    ensures { AnswersWords (command_in (map (λ w. string_bytes w) words.now)) result (F.state files.old) (F.state files.new)
        (S.state out.old) (S.state out.new) (E.state err.old) (E.state err.new) }
{
    match read_words(alloc, words) {
        Ok(Some(Command::To(file, choices))) => {
            let ended = to(alloc, file.slice(), &choices, files, out);
            end(ended, file.slice(), err)
        }
        Ok(Some(Command::From(file))) => {
            let ended = from(alloc, file.slice(), files, out);
            end(ended, file.slice(), err)
        }
        Ok(None) => end(Err(Fault::Usage), b"", err),
        Err(_) => end(Err(Fault::NoMemory), b"", err),
    }
}

// The status of how a command ended, of which a fault is told.
fn end<E: Sink>(ended: Result<(), Fault>, path: &[u8], err: &mut E) -> u8
    ensures status { result ≡ status_of ended }
    ensures tells { TellsOf path.now ended (E.state err.old) (E.state err.new) }
{
    match ended {
        Ok(()) => 0,
        Err(fault) => {
            tell(&fault, path, err);
            status(&fault)
        }
    }
}

/// Prints each JSON value of a file as an item of exchange text, a line each, as they are read.
///
/// # Errors
/// - `Refused`: a JSON value is no value of the language, or the choices do not make it one.
/// - `Bad`, `Nesting`, `FileBytes`: the file goes on with what is no JSON value in UTF-8, opens an array or an object inside
///   128 others, or has more bytes than are looked at.
/// - `Read`: the file is missing or could not be read.
/// - `Write`: the sink refused a piece. Else all lines of the values before were written.
/// - `NoMemory`: want of memory.
pub fn to<F: Files, S: Sink>(
    alloc: Global,
    path: &[u8],
    choices: &Choices,
    files: &mut F,
    out: &mut S,
) -> Result<(), Fault>
    ensures { Does item_lines ToEnds (JsonStands choices.now) path.now result (F.state files.old) (F.state files.new) (S.state out.old) (S.state out.new) }
{
    let file = match files.open_path(path) {
        Ok(file) => file,
        Err(stop) => return Err(open_fault(stop)),
    };
    let mut page = Page::new();
    let ended = put_values(alloc, file, choices, files, &mut page, out);
    files.close(file);
    finish(ended, &mut page, out)
}

// Writes what is held, unless the sink refused a piece before.
fn finish<S: Sink>(ended: Printing, page: &mut Page, out: &mut S) -> Result<(), Fault>
    ensures { Finishes ended result page.old (S.state out.old) (S.state out.new) }
{
    match ended {
        Ok(end) => match page.flush(out) {
            Ok(()) => end,
            Err(error) => Err(print_fault(error)),
        },
        Err(error) => Err(print_fault(error)),
    }
}

fn put_values<F: Files, S: Sink>(
    alloc: Global,
    file: u64,
    choices: &Choices,
    files: &mut F,
    page: &mut Page,
    out: &mut S,
) -> Printing
    requires is_open { IsSome ((F.state files.old).left file) }
    requires empty { page.old ≡ [] }
    ensures { PutsLines item_lines ToEnds (JsonStands choices.now) file result (F.state files.old) (F.state files.new) (S.state out.old) (S.state out.new) page.new }
{
    let mut reader = JsonReader::new(alloc, file);
    list_values(&mut reader, choices, files, page, out)
}

fn list_values<F: Files, S: Sink>(
    reader: &mut JsonReader,
    choices: &Choices,
    files: &mut F,
    page: &mut Page,
    out: &mut S,
) -> Printing
    requires is_open { IsSome ((F.state files.old).left reader.old.items.file) }
    requires fresh { reader.old ≡ unread reader.old.items.file }
    requires empty { page.old ≡ [] }
    ensures { PutsLines item_lines ToEnds (JsonStands choices.now) reader.old.items.file result (F.state files.old) (F.state files.new) (S.state out.old) (S.state out.new) page.new }
{
    'items: loop {
        match reader.next(choices, files) {
            Ok(Some(value)) => match put_item(&value, page, out) {
                Ok(()) => {}
                Err(error) => return Err(error),
            },
            Ok(None) => return Ok(Ok(())),
            Err(error) => return Ok(Err(json_fault(error))),
        }
    }
}

fn put_item<S: Sink>(value: &Value, page: &mut Page, out: &mut S) -> Result<(), PrintError>
    ensures { Puts (value_item value.now) (as_stop result) (S.state out.old) page.old (S.state out.new) page.new }
{
    match page.print(value, out) {
        Ok(()) => page.put(b";\n", out),
        Err(refused) => Err(refused),
    }
}

/// Prints each item of an exchange text as a JSON value, a line each, as they are read. Where the text states a type, its
/// items have to have it.
///
/// # Errors
/// - `NoUnicode`: an item has a text that is no UTF-8.
/// - `Bad`, `Nesting`, `FileBytes`: the file goes on with what is no item, or no head; an item lacks the type that is stated;
///   a bracket opens inside 256 others; or there are more bytes than are looked at.
/// - `Read`: the file is missing or could not be read.
/// - `Write`: the sink refused a piece. Else all lines of the items before were written.
/// - `NoMemory`: want of memory.
pub fn from<F: Files, S: Sink>(
    alloc: Global,
    path: &[u8],
    files: &mut F,
    out: &mut S,
) -> Result<(), Fault>
    ensures { Does json_lines FromEnds ItemsStand path.now result (F.state files.old) (F.state files.new) (S.state out.old) (S.state out.new) }
{
    let file = match files.open_path(path) {
        Ok(file) => file,
        Err(stop) => return Err(open_fault(stop)),
    };
    let mut page = Page::new();
    let ended = put_file(alloc, file, files, &mut page, out);
    files.close(file);
    finish(ended, &mut page, out)
}

fn put_file<F: Files, S: Sink>(
    alloc: Global,
    file: u64,
    files: &mut F,
    page: &mut Page,
    out: &mut S,
) -> Printing
    requires is_open { IsSome ((F.state files.old).left file) }
    requires empty { page.old ≡ [] }
    ensures { PutsLines json_lines FromEnds ItemsStand file result (F.state files.old) (F.state files.new) (S.state out.old) (S.state out.new) page.new }
{
    let mut reader = FileReader::new(alloc, file, MOST_READ, PIECE);
    match reader.head(files) {
        Ok(stated) => put_items(alloc, &mut reader, &stated, files, page, out),
        Err(error) => Ok(Err(file_fault(error))),
    }
}

fn put_items<F: Files, S: Sink>(
    alloc: Global,
    reader: &mut FileReader,
    stated: &Option<Ty>,
    files: &mut F,
    page: &mut Page,
    out: &mut S,
) -> Printing
    requires is_open { IsSome ((F.state files.old).left reader.old.items.file) }
    requires unread { (first : Left) × HasRead first stated.now [] reader.old ((F.state files.old).left reader.old.items.file) }
    requires limit { limit_of reader.old ≡ most_read }
    requires empty { page.old ≡ [] }
    ensures { PutsItems reader.old stated.now result (F.state files.old) (F.state files.new) (S.state out.old) (S.state out.new) page.new }
{
    'items: loop {
        let place = reader.place();
        match reader.next(files) {
            Ok(Some(value)) => match put_line(alloc, &value, place, stated, page, out) {
                Ok(Ok(())) => {}
                Ok(Err(fault)) => return Ok(Err(fault)),
                Err(error) => return Err(error),
            },
            Ok(None) => return Ok(Ok(())),
            Err(error) => return Ok(Err(file_fault(error))),
        }
    }
}

// Puts the line of an item behind so many bytes on the page, where it has one.
fn put_line<S: Sink>(
    alloc: Global,
    value: &Value,
    place: u64,
    stated: &Option<Ty>,
    page: &mut Page,
    out: &mut S,
) -> Printing
    ensures { PutsLine stated.now value.now place result (S.state out.old) page.old (S.state out.new) page.new }
{
    let line = match line_of(alloc, value, place, stated) {
        Ok(line) => line,
        Err(fault) => return Ok(Err(fault)),
    };
    match page.put(line.as_slice(), out) {
        Ok(()) => Ok(Ok(())),
        Err(error) => Err(error),
    }
}

// The line of an item, behind so many bytes, where it has the type that is stated.
fn line_of(alloc: Global, value: &Value, place: u64, stated: &Option<Ty>) -> Result<Vec<u8>, Fault>
    ensures { MatchResult result (λ line. (line.items ≡ json_line value.now) × IsPrinted stated.now value.now)
        (λ fault. HasNoLine stated.now value.now place fault) }
{
    if !fits(stated, value) {
        return Err(Fault::Bad(place));
    }
    match json_text(alloc, value) {
        Ok(text) => ended(text),
        Err(WriteError::NoUnicode) => Err(Fault::NoUnicode(place)),
        Err(WriteError::NoMemory) => Err(Fault::NoMemory),
    }
}

// A line of these bytes.
fn ended(text: Vec<u8>) -> Result<Vec<u8>, Fault>
    ensures ok { IfOk result (λ line. line.items ≡ text.items ++ codes "\n") }
    ensures err { IfErr result (λ fault. fault ≡ no_memory) }
{
    let mut line = text;
    match line.push(b'\n') {
        Ok(()) => Ok(line),
        Err(_) => Err(Fault::NoMemory),
    }
}

// The value has the type, where one is stated.
fn fits(stated: &Option<Ty>, value: &Value) -> bool
    ensures { result ≡ fits stated.now value.now }
{
    stated.as_ref().is_none_or(|ty| has(value, ty))
}

fn open_fault(stop: Stop) -> Fault
    ensures { result ≡ open_fault stop }
{
    if let Stop::Failed = stop {
        return Fault::Read;
    }
    Fault::NoMemory
}

fn print_fault(error: PrintError) -> Fault
    ensures { result ≡ print_fault error }
{
    if let PrintError::Failed = error {
        return Fault::Write;
    }
    Fault::NoMemory
}

fn file_fault(error: FileError) -> Fault
    ensures { result ≡ file_fault error }
{
    match error {
        FileError::Read => Fault::Read,
        FileError::NoMemory => Fault::NoMemory,
        FileError::Bad { place } => Fault::Bad(place),
        FileError::TooDeep { .. } => Fault::Nesting,
        FileError::TooLong => Fault::FileBytes,
    }
}

fn json_fault(error: JsonError) -> Fault
    ensures { result ≡ json_fault error }
{
    match error {
        JsonError::Read => Fault::Read,
        JsonError::NoMemory => Fault::NoMemory,
        JsonError::Bad { place } => Fault::Bad(place),
        JsonError::TooDeep { .. } => Fault::Nesting,
        JsonError::TooLong => Fault::FileBytes,
        JsonError::Refused { refusal, place } => Fault::Refused(refusal, place),
    }
}
