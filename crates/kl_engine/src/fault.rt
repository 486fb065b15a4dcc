//! How a command ends that does not end well: its status, and the line that tells of it.
ghost use Rattle.std.specs.Prelude.{◌≡◌, List, [], ◌∷◌, ℕ, codes, decimal};
ghost use Rattle.std.specs.List.{flat_map};
ghost use Rattle.kl_outside.specs.Sinks.{WritesWhole};
ghost use Rattle.kl_engine.specs.Faults.{fault_status, fault_line, bad_line, joined, wrong_line, text_line, TookLine};

use itoa::Buffer;
use kl_base::Label;
use kl_outside::{Sink, Stop, write_whole};

/// Why a command did not end well. Places are bytes of the file that the words name.
#[derive(Drop, PartialEq, Eq)]
pub enum Fault {
    /// The words name no command.
    Usage,
    /// The program's text is wrong at this byte: that of the token, or the text's length where tokens are missing.
    Text(Wrong, u32),
    /// The program has no typing: this declaration, counted from 0, is the first without one.
    IllTyped(u32),
    /// The catalogue's text is wrong at this byte: that of the token, or the text's length where tokens are missing.
    Catalogue(u32),
    /// An entry of the catalogue has a name that stands before, or a primitive's.
    NameTwice(Label),
    /// An entry of the catalogue names a driver that is not there.
    NoDriver(Label),
    /// An entry of the catalogue has a type that does not suit its driver.
    Unsuited(Label),
    /// The word that is to be a type is none, from this byte on: that of the token, or the text's length where tokens are missing.
    NoType(u64),
    /// The file that is shown or upgraded is no exchange text, and its longest prefix that begins one has this length; or an item
    /// lacks the type that is stated or wanted, and so many bytes stand before it; or another type than is wanted is stated.
    BadFile(u64),
    /// The source of this name is unreadable as its type, from this place on: of a table the record of this number, the
    /// header being 0.
    BadSource(Label, u64),
    /// The program means an overflow.
    Overflow,
    /// A file is missing or could not be read.
    Read,
    /// `out` refused a write.
    Write,
    /// Want of memory.
    NoMemory,
    /// The source of this name is not what it was when it was attached.
    Changed(Label),
    /// The program has more than 65,536 bytes.
    ProgramBytes,
    /// The catalogue has more than 65,536 bytes.
    CatalogueBytes,
    /// The file that is shown or upgraded has more than 17,179,869,184 bytes, or that of a source more than its driver reads.
    FileBytes,
    /// The program, the catalogue or the type nests deeper than 256.
    Nesting,
    /// An item or the head of the file that is shown or upgraded, or of a source, has a bracket inside 256 others.
    ItemNesting,
    /// The term of a declaration has more than 4,096 nodes.
    TermNodes,
    /// The term of a declaration is deeper than 512.
    TermDepth,
    /// The text of a declaration's scheme has more than 65,536 bytes.
    SchemeBytes,
}

/// What is wrong with a program's text.
#[derive(Drop, PartialEq, Eq)]
pub enum Wrong {
    /// A token is due, and none starts there.
    NoToken,
    /// No program goes on so.
    Syntax,
    /// The name stands for nothing.
    Unknown(Label),
    /// The name stands there a second time.
    Twice(Label),
    /// The name does not take so many arguments.
    Misapplied(Label),
    /// The pattern has to match, and may not.
    Refutable,
}

/// The status of a fault.
pub fn status(fault: &Fault) -> u8
    ensures { result ≡ fault_status fault.now }
{
    match fault {
        Fault::Usage => 1,
        Fault::Text(_, _) => 2,
        Fault::IllTyped(_) => 3,
        Fault::Catalogue(_) | Fault::NameTwice(_) | Fault::NoDriver(_) | Fault::Unsuited(_) => 4,
        Fault::NoType(_) => 4,
        Fault::BadFile(_) | Fault::BadSource(_, _) => 5,
        Fault::Overflow => 6,
        Fault::Read => 7,
        Fault::Write => 8,
        Fault::NoMemory => 9,
        Fault::Changed(_) => 11,
        Fault::ProgramBytes
        | Fault::CatalogueBytes
        | Fault::FileBytes
        | Fault::Nesting
        | Fault::ItemNesting
        | Fault::TermNodes
        | Fault::TermDepth
        | Fault::SchemeBytes => 10,
    }
}

/// Tells of a fault, where the words name this path. Where the line is refused, nothing else comes of it.
pub fn tell<E: Sink>(fault: &Fault, path: &[u8], err: &mut E)
    ensures { TookLine (fault_line path.now fault.now) (E.state err.old) (E.state err.new) }
{
    match write_line(fault, path, err) {
        Ok(()) | Err(_) => {}
    }
}

fn write_line<E: Sink>(fault: &Fault, path: &[u8], err: &mut E) -> Result<(), Stop>
    ensures { WritesWhole (fault_line path.now fault.now) result (E.state err.old) (E.state err.new) }
{
    match fault {
        Fault::Usage => write_parts(
            err,
            &[
                b"usage: kleisli (run|explain|types|check) PROGRAM [CATALOGUE] [OPTIONS], kleisli show FILE, ",
                b"kleisli gen SEED N, kleisli upgrade FILE TYPE\n",
            ],
        ),
        Fault::Text(wrong, byte) => write_wrong(wrong, *byte, err),
        Fault::IllTyped(decl) => write_untyped(*decl as u64 + 1, err),
        Fault::BadFile(place) => write_bad_source(path, *place, err),
        Fault::Catalogue(byte) => write_parts(
            err,
            &[
                b"catalogue: syntax at byte ",
                Buffer::new().format(*byte).as_bytes(),
                b"\n",
            ],
        ),
        Fault::NoType(byte) => write_parts(
            err,
            &[
                b"type: syntax at byte ",
                Buffer::new().format(*byte).as_bytes(),
                b"\n",
            ],
        ),
        Fault::NameTwice(name) => write_parts(
            err,
            &[b"catalogue: name ", name.slice(), b" twice\n"],
        ),
        Fault::NoDriver(name) => write_parts(err, &[b"catalogue: no driver ", name.slice(), b"\n"]),
        Fault::Unsuited(name) => write_parts(
            err,
            &[
                b"catalogue: type of ",
                name.slice(),
                b" does not suit its driver\n",
            ],
        ),
        Fault::BadSource(name, place) => write_bad_source(name.slice(), *place, err),
        Fault::Changed(name) => write_parts(err, &[b"source ", name.slice(), b" changed\n"]),
        Fault::Overflow => write_whole(err, b"overflow\n"),
        Fault::Read => write_whole(err, b"read fault\n"),
        Fault::Write => write_whole(err, b"write fault\n"),
        Fault::NoMemory => write_whole(err, b"out of memory\n"),
        Fault::ProgramBytes => write_whole(err, b"limit: program bytes\n"),
        Fault::CatalogueBytes => write_whole(err, b"limit: catalogue bytes\n"),
        Fault::FileBytes => write_whole(err, b"limit: file bytes\n"),
        Fault::Nesting => write_whole(err, b"limit: nesting\n"),
        Fault::ItemNesting => write_whole(err, b"limit: item nesting\n"),
        Fault::TermNodes => write_whole(err, b"limit: term nodes\n"),
        Fault::TermDepth => write_whole(err, b"limit: term depth\n"),
        Fault::SchemeBytes => write_whole(err, b"limit: scheme bytes\n"),
    }
}

fn write_bad_source<E: Sink>(name: &[u8], place: u64, err: &mut E) -> Result<(), Stop>
    ensures { WritesWhole (bad_line name.now place) result (E.state err.old) (E.state err.new) }
{
    write_parts(
        err,
        &[
            b"source ",
            name,
            b": bad at ",
            Buffer::new().format(place).as_bytes(),
            b"\n",
        ],
    )
}

fn write_untyped<E: Sink>(number: u64, err: &mut E) -> Result<(), Stop>
    ensures { WritesWhole (joined (codes "types: no typing for declaration " ∷ decimal number ∷ codes "\n" ∷ [])) result
        (E.state err.old) (E.state err.new) }
{
    write_parts(
        err,
        &[
            b"types: no typing for declaration ",
            Buffer::new().format(number).as_bytes(),
            b"\n",
        ],
    )
}

fn write_wrong<E: Sink>(wrong: &Wrong, byte: u32, err: &mut E) -> Result<(), Stop>
    ensures { WritesWhole (wrong_line wrong.now byte) result (E.state err.old) (E.state err.new) }
{
    match wrong {
        Wrong::NoToken => write_text(b"no token", b"", b"", byte, err),
        Wrong::Syntax => write_text(b"syntax", b"", b"", byte, err),
        Wrong::Unknown(name) => write_text(b"unknown name ", name.slice(), b"", byte, err),
        Wrong::Twice(name) => write_text(b"name ", name.slice(), b" twice", byte, err),
        Wrong::Misapplied(name) => write_text(b"name ", name.slice(), b" misapplied", byte, err),
        Wrong::Refutable => write_text(b"refutable pattern", b"", b"", byte, err),
    }
}

// What is wrong, with a name in its midst, and at which byte.
fn write_text<'a, E: Sink>(
    front: &'a [u8],
    name: &'a [u8],
    back: &'a [u8],
    byte: u32,
    err: &mut E,
) -> Result<(), Stop>
    ensures { WritesWhole (text_line front.now name.now back.now byte) result (E.state err.old) (E.state err.new) }
{
    write_parts(
        err,
        &[
            b"text: ",
            front,
            name,
            back,
            b" at byte ",
            Buffer::new().format(byte).as_bytes(),
            b"\n",
        ],
    )
}

// Writes the parts one behind the other.
pub(crate) fn write_parts<E: Sink>(err: &mut E, parts: &[&[u8]]) -> Result<(), Stop>
    ensures { WritesWhole (flat_map (λ part. part.now) parts.now) result (E.state err.old) (E.state err.new) }
{
    'parts: for part in parts {
        match write_whole(err, part) {
            Ok(()) => {}
            Err(stop) => return Err(stop),
        }
    }
    Ok(())
}
