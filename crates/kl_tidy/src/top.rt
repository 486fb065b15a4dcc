//! What the program does.
ghost use Rattle.std.specs.Prelude.{◌≡◌, ◌≢◌, ◌++◌, [], IfOk, IsSome, OnErr, map, string_bytes};
ghost use Rattle.kl_outside.specs.Sinks.{WritesWhole};
ghost use Rattle.kl_tidy.specs.Answering.{Answers, Prints, PrintsNothing, PutsOut, TellsSo, TellsUsage, line_of, status_of};
ghost use Rattle.kl_tidy.specs.Causes.{Makes, MakesFor, MakesOf};

use crate::refusal::{OUT_OF_MEMORY, Refusal, put_line, status};
use crate::table::{Found, tidied};
use crate::words::{Command, command_of};
use kl_base::{NoMemory, Text};
use kl_outside::{Files, Sink, Stop, Whole, read_whole, write_whole};
use std::alloc::Global;

// The greatest length of a table's file.
const MOST_BYTES: u64 = 268_435_456;

/// Prints on `out` the table that the words ask for, and answers the status. On `err` it tells which headers were changed,
/// and then why nothing is printed, if so it is. A write that `err` refuses changes no status.
pub fn kltable<F: Files, O: Sink, E: Sink>(
    alloc: Global,
    words: &[String],
    files: &mut F,
    out: &mut O,
    err: &mut E,
) -> u8
    ensures well { result ≡ 0 → Prints (F.state files.old).told (map string_bytes words.now) (O.state out.old) (O.state out.new) }
    ensures refused { result ≢ 0 → PrintsNothing (O.state out.old) (O.state out.new) }
    ensures usage { TellsUsage (map string_bytes words.now) result }
    ensures answers { Answers (map string_bytes words.now) result (F.state files.old) (F.state files.new)
        (O.state out.old) (O.state out.new) (E.state err.old) (E.state err.new) }
{
    let mut notes = Vec::new(alloc);
    let made = page_of(alloc, words, files, &mut notes);
    let refusal = print(made, out);
    tell(alloc, &refusal, &notes, err)
}

// Tells the notes, and behind them why nothing is printed, if so it is; answers the status.
fn tell<E: Sink>(alloc: Global, refusal: &Option<Refusal>, notes: &[u8], err: &mut E) -> u8
    ensures { TellsSo refusal.now notes.now result (E.state err.old) (E.state err.new) }
{
    match last_line(alloc, refusal) {
        Ok(line) => {
            let _told = write_lines(notes, &line, err);
            status_of(refusal)
        }
        Err(NoMemory) => {
            let _told = write_lines(notes, OUT_OF_MEMORY, err);
            status(&Refusal::NoMemory)
        }
    }
}

fn status_of(refusal: &Option<Refusal>) -> u8
    ensures { result ≡ status_of refusal.now }
{
    match refusal {
        Some(refusal) => status(refusal),
        None => 0,
    }
}

// The line that tells of a refusal, and none where there is none.
fn last_line(alloc: Global, refusal: &Option<Refusal>) -> Result<Vec<u8>, NoMemory>
    ensures ok { IfOk result (λ line. line.items ≡ line_of refusal.now) }
    ensures none { OnErr result (IsSome refusal.now) }
{
    let mut line = Vec::new(alloc);
    if let Some(refusal) = refusal {
        put_line(refusal, &mut line)?;
    }
    Ok(line)
}

// The table that the words ask for.
fn page_of<F: Files>(
    alloc: Global,
    words: &[String],
    files: &mut F,
    notes: &mut Vec<u8>,
) -> Result<Text, Refusal>
    requires { notes.old.items ≡ [] }
    ensures { Makes result (map string_bytes words.now) (F.state files.old) (F.state files.new) notes.new.items }
{
    match command_of(alloc, words) {
        Ok(Some(command)) => page_for(alloc, &command, files, notes),
        Ok(None) => Err(Refusal::Usage),
        Err(NoMemory) => Err(Refusal::NoMemory),
    }
}

// The table that a command asks for.
fn page_for<F: Files>(
    alloc: Global,
    command: &Command,
    files: &mut F,
    notes: &mut Vec<u8>,
) -> Result<Text, Refusal>
    requires { notes.old.items ≡ [] }
    ensures { MakesFor result command.now (F.state files.old) (F.state files.new) notes.new.items }
{
    match read_whole(alloc, files, command.path.slice(), MOST_BYTES) {
        Err(Stop::Failed) => Err(Refusal::Read),
        Err(Stop::NoMemory) => Err(Refusal::NoMemory),
        Ok(Whole::TooLong) => Err(Refusal::FileBytes),
        Ok(Whole::Bytes(bytes)) => page_from(alloc, command, bytes.slice(), notes),
    }
}

// The table that a command asks for of these bytes.
fn page_from(
    alloc: Global,
    command: &Command,
    bytes: &[u8],
    notes: &mut Vec<u8>,
) -> Result<Text, Refusal>
    requires { notes.old.items ≡ [] }
    ensures { MakesOf result command.now bytes.now notes.new.items }
{
    match tidied(alloc, command, bytes, notes) {
        Ok(Found::Page(page)) => Ok(page),
        Ok(Found::Wrong(wrong)) => match command.path.dup(alloc) {
            Ok(path) => Err(Refusal::BadFile { path, wrong }),
            Err(NoMemory) => Err(Refusal::NoMemory),
        },
        Err(NoMemory) => Err(Refusal::NoMemory),
    }
}

// Prints a page that was made, or answers why there is none.
fn print<O: Sink>(made: Result<Text, Refusal>, out: &mut O) -> Option<Refusal>
    ensures { PutsOut made result (O.state out.old) (O.state out.new) }
{
    let page = match made {
        Ok(page) => page,
        Err(refusal) => return Some(refusal),
    };
    match write_whole(out, page.slice()) {
        Ok(()) => None,
        Err(Stop::Failed) => Some(Refusal::Write),
        Err(Stop::NoMemory) => Some(Refusal::NoMemory),
    }
}

// Writes the line of a refusal behind the notes.
fn write_lines<E: Sink>(notes: &[u8], line: &[u8], err: &mut E) -> Result<(), Stop>
    ensures { WritesWhole (notes.now ++ line.now) result (E.state err.old) (E.state err.new) }
{
    match write_whole(err, notes) {
        Err(stop) => Err(stop),
        Ok(()) => write_whole(err, line),
    }
}
