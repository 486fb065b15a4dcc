//! What `show` and `upgrade` do: they print a file's items as they are read.
ghost use Rattle.std.specs.Prelude.{◌≡◌, ◌⊎◌, [], List, Option, Some, IsSome};
ghost use Rattle.kl_ask.specs.Driver.{State};
ghost use Rattle.kl_exchange.specs.FileReading.{Left};
ghost use Rattle.kl_exchange.specs.Printing.{Puts, as_stop};
ghost use Rattle.kl_heads.specs.FileReading.{HasRead};
ghost use Rattle.kl_outside.specs.Sinks.{WritesWhole};
ghost use Rattle.kl_type.specs.declared.Ty.{Ty as AType};
ghost use Rattle.kl_engine.specs.Faults.{ending};
ghost use Rattle.kl_engine.specs.Outside.{outside_of};
ghost use Rattle.kl_engine.specs.Showing.{DoesShow, DoesUpgrade, Flushes, IsTypeOf, ListsFile, ListsItems, StopsAt};
ghost use Rattle.kl_engine.specs.Showing.{fetch_fault, line_of, open_fault, read_fault, stop_fault};
ghost use Rattle.kl_engine.specs.Verdict.{IsTypeFault, fits, head_line, shown, upgraded};
ghost use Rattle.kl_engine.specs.declared.fault.Fault.{Fault as AFault};
ghost use Rattle.kl_engine.specs.declared.fault.Fault.TheVariants as fault;

use crate::fault::{Fault, write_parts};
use crate::page::{put_entry, put_line, write_fault};
use kl_exchange::{FileError, MOST_READ, Page, PrintError, ReadError};
use kl_heads::{FileReader, Item, states_no_other};
use kl_outside::{Files, Sink, Stop};
use kl_type::{Ty, TypeError, has, print_type, read_type};
use kl_value::Value;
use std::alloc::Global;

// How many bytes of a file are fetched at a time.
const PIECE: usize = 4_096;

/// How items are listed.
#[derive(Clone, Copy)]
pub enum Form {
    /// Each value, and a newline.
    Values,
    /// Each as an item with its `;`, and a newline.
    Items,
}

/// Prints each item of the exchange text at a path, and a newline. Where the text states a type, its items have to have it.
/// What was read is printed before the file is read on.
///
/// # Errors
/// `Read`, where the file is missing or could not be read; what stands first in it: bytes that begin no exchange text, a
/// bracket that nests too deep, an item that lacks the type that is stated, a byte past the limit. `Write`, where the sink
/// refused a piece; want of memory.
pub fn show<F: Files, S: Sink>(
    alloc: Global,
    path: &[u8],
    files: &mut F,
    out: &mut S,
) -> Result<(), Fault>
    ensures { (ds : List State) → DoesShow path.now (ending result)
        (outside_of (F.state files.old) ds (S.state out.old)) (outside_of (F.state files.new) ds (S.state out.new)) }
{
    let file = match files.open_path(path) {
        Ok(file) => file,
        Err(stop) => return Err(open_fault(stop)),
    };
    let result = show_file(alloc, file, files, out);
    files.close(file);
    result
}

/// Prints a head that states the type, and then each item of the exchange text at a path, each with its `;` and a newline. The
/// items have to have the type, and where the text states one it has to be this. What was read is printed before the file is
/// read on.
///
/// # Errors
/// First `NoType` or `Nesting`, where the word is no type: no file is opened then. After that as `show`; nothing is printed where
/// the file is missing.
pub fn upgrade<F: Files, S: Sink>(
    alloc: Global,
    path: &[u8],
    word: &[u8],
    files: &mut F,
    out: &mut S,
) -> Result<(), Fault>
    ensures does { (ds : List State) → DoesUpgrade path.now word.now (ending result)
        (outside_of (F.state files.old) ds (S.state out.old)) (outside_of (F.state files.new) ds (S.state out.new)) }
    ensures type_first { (f : AFault) → IsTypeFault word.now f
        → ((ending result ≡ Some f) ⊎ (ending result ≡ Some fault.NoMemory)) × (files.new ≡ files.old) × (out.new ≡ out.old) }
{
    let ty = match read_type(alloc, word) {
        Ok(ty) => ty,
        Err(TypeError::Bad { place }) => return Err(Fault::NoType(place)),
        Err(TypeError::TooDeep { .. }) => return Err(Fault::Nesting),
        Err(TypeError::NoMemory) => return Err(Fault::NoMemory),
    };
    let text = match print_type(alloc, &ty) {
        Ok(text) => text,
        Err(_) => return Err(Fault::NoMemory),
    };
    let file = match files.open_path(path) {
        Ok(file) => file,
        Err(stop) => return Err(open_fault(stop)),
    };
    let result = upgrade_file(alloc, ty, text.slice(), file, files, out);
    files.close(file);
    result
}

// Shows an open file.
fn show_file<F: Files, S: Sink>(
    alloc: Global,
    file: u64,
    files: &mut F,
    out: &mut S,
) -> Result<(), Fault>
    requires { IsSome ((F.state files.old).left file) }
    ensures { (ds : List State) → ListsFile file shown (ending result)
        (outside_of (F.state files.old) ds (S.state out.old)) (outside_of (F.state files.new) ds (S.state out.new)) }
{
    let mut items = FileReader::new(alloc, file, MOST_READ, PIECE);
    match items.head(files) {
        Ok(stated) => list_items(&mut items, &stated, Form::Values, files, out),
        Err(error) => Err(fetch_fault(error)),
    }
}

// Prints an open file as one of items of a type that has this text.
fn upgrade_file<F: Files, S: Sink>(
    alloc: Global,
    ty: Ty,
    text: &[u8],
    file: u64,
    files: &mut F,
    out: &mut S,
) -> Result<(), Fault>
    requires is_open { IsSome ((F.state files.old).left file) }
    requires of_type { IsTypeOf text.now ty }
    ensures { (ds : List State) → ListsFile file (upgraded ty) (ending result)
        (outside_of (F.state files.old) ds (S.state out.old)) (outside_of (F.state files.new) ds (S.state out.new)) }
{
    match put_head(text, out) {
        Ok(()) => {}
        Err(stop) => return Err(stop_fault(stop)),
    }
    let mut items = FileReader::new(alloc, file, MOST_READ, PIECE);
    match items.head(files) {
        Ok(stated) => {
            if !states_no_other(&stated, &ty) {
                return Err(Fault::BadFile(0));
            }
            list_items(&mut items, &Some(ty), Form::Items, files, out)
        }
        Err(error) => Err(fetch_fault(error)),
    }
}

// Prints the line of a head that states the type of this text.
fn put_head<S: Sink>(text: &[u8], out: &mut S) -> Result<(), Stop>
    ensures { (t : AType) → IsTypeOf text.now t → WritesWhole (head_line t) result (S.state out.old) (S.state out.new) }
{
    write_parts(out, &[b"type ", text, b";\n"])
}

// Lists the items of an open file behind its head, up to the first that lacks the type, where one is wanted.
fn list_items<F: Files, S: Sink>(
    items: &mut FileReader,
    wanted: &Option<Ty>,
    form: Form,
    files: &mut F,
    out: &mut S,
) -> Result<(), Fault>
    requires is_open { IsSome ((F.state files.old).left items.old.items.file) }
    requires unread { (first : Left) × (head : Option AType)
        × HasRead first head [] items.old ((F.state files.old).left items.old.items.file) }
    ensures { (ds : List State) → ListsItems items.old (line_of form) wanted.now (ending result)
        (outside_of (F.state files.old) ds (S.state out.old)) (outside_of (F.state files.new) ds (S.state out.new)) }
{
    let mut page = Page::new();
    // Whether the page has any line.
    let mut begun = false;
    'items: loop {
        let place = items.place();
        match items.next_held() {
            Ok(Item::Head(_)) => unreachable!(),
            Ok(Item::Value(value)) => {
                if !fits(wanted, &value) {
                    return stop_at(Fault::BadFile(place), begun, &mut page, out);
                }
                match print_item(value, form, &mut page, out) {
                    Ok(()) => begun = true,
                    Err(error) => return Err(write_fault(error)),
                }
            }
            Ok(Item::NeedMore) => {
                match flush(begun, &mut page, out) {
                    Ok(()) => begun = false,
                    Err(error) => return Err(write_fault(error)),
                }
                match items.fetch(files) {
                    Ok(()) => {}
                    Err(error) => return Err(fetch_fault(error)),
                }
            }
            Ok(Item::End) => match flush(begun, &mut page, out) {
                Ok(()) => return Ok(()),
                Err(error) => return Err(write_fault(error)),
            },
            Err(refusal) => return stop_at(read_fault(refusal), begun, &mut page, out),
        }
    }
}

// The value has the type, where one is wanted.
fn fits(wanted: &Option<Ty>, value: &Value) -> bool
    ensures { result ≡ fits wanted.now value.now }
{
    match wanted {
        None => true,
        Some(ty) => has(value, ty),
    }
}

// The faults with which showing a file ends.

fn open_fault(stop: Stop) -> Fault
    ensures { result ≡ open_fault stop }
{
    match stop {
        Stop::Failed => Fault::Read,
        Stop::NoMemory => Fault::NoMemory,
    }
}

fn stop_fault(stop: Stop) -> Fault
    ensures { result ≡ stop_fault stop }
{
    match stop {
        Stop::Failed => Fault::Write,
        Stop::NoMemory => Fault::NoMemory,
    }
}

fn read_fault(error: ReadError) -> Fault
    ensures { result ≡ read_fault error }
{
    match error {
        ReadError::Bad { place } => Fault::BadFile(place),
        ReadError::TooDeep { .. } => Fault::ItemNesting,
        ReadError::NoMemory => Fault::NoMemory,
    }
}

fn fetch_fault(error: FileError) -> Fault
    ensures { result ≡ fetch_fault error }
{
    match error {
        FileError::Bad { place } => Fault::BadFile(place),
        FileError::TooDeep { .. } => Fault::ItemNesting,
        FileError::TooLong => Fault::FileBytes,
        FileError::Read => Fault::Read,
        FileError::NoMemory => Fault::NoMemory,
    }
}

// Prints an item as a line, and lets the value go.
fn print_item<S: Sink>(
    value: Value,
    form: Form,
    page: &mut Page,
    out: &mut S,
) -> Result<(), PrintError>
    ensures { Puts (line_of form value) (as_stop result) (S.state out.old) page.old (S.state out.new) page.new }
{
    match form {
        Form::Values => put_line(&value, page, out),
        Form::Items => put_entry(&value, page, out),
    }
}

// Ends with a fault behind what stands on the page, unless the sink refuses that.
fn stop_at<S: Sink>(fault: Fault, begun: bool, page: &mut Page, out: &mut S) -> Result<(), Fault>
    ensures { StopsAt fault begun result page.old page.new (S.state out.old) (S.state out.new) }
{
    match flush(begun, page, out) {
        Ok(()) => Err(fault),
        Err(error) => Err(write_fault(error)),
    }
}

// Writes a page that has any line.
fn flush<S: Sink>(begun: bool, page: &mut Page, out: &mut S) -> Result<(), PrintError>
    ensures { Flushes begun (as_stop result) page.old page.new (S.state out.old) (S.state out.new) }
{
    if begun { page.flush(out) } else { Ok(()) }
}
