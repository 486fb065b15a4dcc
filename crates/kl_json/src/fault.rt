//! Why a command did not end well.
ghost use Rattle.std.specs.Prelude.{◌≡◌};
ghost use Rattle.std.specs.List.{flat_map};
ghost use Rattle.kl_json.specs.Answers.{Tells, cause_text, fault_line, fault_status, place_line};
ghost use Rattle.kl_outside.specs.Sinks.{WritesWhole};

use crate::choices::Refusal;
use itoa::Buffer;
use kl_outside::{Sink, Stop, write_whole};

/// Why a command did not end well.
#[derive(Clone, Copy, Debug, Drop, PartialEq, Eq)]
pub enum Fault {
    /// The words are no command.
    Usage,
    /// The file is missing or could not be read.
    Read,
    /// The output could not be written.
    Write,
    NoMemory,
    /// The file is none, or an item of it lacks the type that it states; so many bytes stand before what is wrong.
    Bad(u64),
    /// The JSON value behind so many bytes is no value of the language.
    Refused(Refusal, u64),
    /// The item behind so many bytes has a text that is no UTF-8.
    NoUnicode(u64),
    /// A bracket opens inside too many others.
    Nesting,
    /// The file has more bytes than are looked at.
    FileBytes,
}

/// The status of a fault.
pub fn status(fault: &Fault) -> u8
    ensures { result ≡ fault_status fault.now }
{
    match fault {
        Fault::Usage => 1,
        Fault::Bad(_) | Fault::Refused(_, _) | Fault::NoUnicode(_) => 5,
        Fault::Read => 7,
        Fault::Write => 8,
        Fault::NoMemory => 9,
        Fault::Nesting | Fault::FileBytes => 10,
    }
}

/// Tells of a fault by its line. A write that is refused changes nothing.
pub fn tell<E: Sink>(fault: &Fault, path: &[u8], err: &mut E)
    ensures { Tells (fault_line path.now fault.now) (E.state err.old) (E.state err.new) }
{
    let _told = write_line(fault, path, err);
}

fn write_line<E: Sink>(fault: &Fault, path: &[u8], err: &mut E) -> Result<(), Stop>
    ensures { WritesWhole (fault_line path.now fault.now) result (E.state err.old) (E.state err.new) }
{
    match fault {
        Fault::Usage => write_parts(
            err,
            &[
                b"usage: kljson to FILE [--null LABEL] [--text-numbers] [--words], ",
                b"kljson from FILE\n",
            ],
        ),
        Fault::Bad(place) => write_place(b"bad", *place, path, err),
        Fault::Refused(refusal, place) => write_place(cause_text(*refusal), *place, path, err),
        Fault::NoUnicode(place) => write_place(b"no UTF-8", *place, path, err),
        Fault::Read => write_whole(err, b"read fault\n"),
        Fault::Write => write_whole(err, b"write fault\n"),
        Fault::NoMemory => write_whole(err, b"out of memory\n"),
        Fault::Nesting => write_whole(err, b"limit: item nesting\n"),
        Fault::FileBytes => write_whole(err, b"limit: file bytes\n"),
    }
}

fn cause_text(refusal: Refusal) -> &'static [u8]
    ensures { result.now ≡ cause_text refusal }
{
    match refusal {
        Refusal::Null => b"null",
        Refusal::Number => b"number",
        Refusal::Word => b"label",
        Refusal::Twice => b"label twice",
    }
}

fn write_place<E: Sink>(what: &[u8], place: u64, path: &[u8], err: &mut E) -> Result<(), Stop>
    ensures { WritesWhole (place_line path.now what.now place) result (E.state err.old) (E.state err.new) }
{
    let mut buffer = Buffer::new();
    let place = buffer.format(place).as_bytes();
    write_parts(err, &[b"source ", path, b": ", what, b" at ", place, b"\n"])
}

fn write_parts<E: Sink>(err: &mut E, parts: &[&[u8]]) -> Result<(), Stop>
    ensures { WritesWhole (flat_map (λ part. part.now) parts.now) result (E.state err.old) (E.state err.new) }
{
    'parts: for part in parts {
        match write_whole(err, part) {
            Ok(()) => {}
            Err(refused) => return Err(refused),
        }
    }
    Ok(())
}
