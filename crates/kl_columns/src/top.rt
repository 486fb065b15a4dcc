//! What the program does.
ghost use Rattle.std.specs.Prelude.{◌≡◌, ◌≢◌, ◌++◌, [], Err, map, string_bytes};
ghost use Rattle.kl_columns.specs.Answering.{Answers, Ends, Makes, Prints, PrintsNothing, Puts, TellsUsage};
ghost use Rattle.kl_outside.specs.Sinks.{WritesWhole};

use crate::listing::catalogue_of;
use crate::refusal::{OUT_OF_MEMORY, Refusal, put_line, status};
use crate::words::{are_files, paths_of, wants_sql};
use kl_base::{NoMemory, Text};
use kl_outside::{Files, Sink, Stop, write_whole};
use std::alloc::Global;

/// Prints on `out` the catalogue of the files that the words name, and answers the status. On `err` it tells what is left
/// out, and then why nothing is printed, if so it is. A write that `err` refuses changes no status.
pub fn klcat<F: Files, O: Sink, E: Sink>(
    alloc: Global,
    words: &[String],
    files: &mut F,
    out: &mut O,
    err: &mut E,
) -> u8
    ensures well { result ≡ 0 → Prints (F.state files.old).told (map string_bytes words.now) (O.state out.old) (O.state out.new) }
    ensures refused { result ≢ 0 → PrintsNothing (O.state out.old) (O.state out.new) }
    ensures usage { TellsUsage (map string_bytes words.now) result }
    ensures answers { Answers (map string_bytes words.now) result (F.state files.old) (F.state files.new)
        (O.state out.old) (O.state out.new) (E.state err.old) (E.state err.new) }
{
    let mut notes = Vec::new(alloc);
    let page = page_of(alloc, words, files, &mut notes);
    let ended = printed(page, out);
    end(alloc, ended, &notes, err)
}

// The status of how the call ended, which is told behind the notes.
fn end<E: Sink>(alloc: Global, ended: Result<(), Refusal>, notes: &[u8], err: &mut E) -> u8
    ensures { Ends ended notes.now result (E.state err.old) (E.state err.new) }
{
    match ended {
        Ok(()) => {
            let _told = tell(notes, b"", err);
            0
        }
        Err(refusal) => refused(alloc, &refusal, notes, err),
    }
}

// Tells of a refusal behind the notes, and answers its status.
fn refused<E: Sink>(alloc: Global, refusal: &Refusal, notes: &[u8], err: &mut E) -> u8
    ensures { Ends (Err refusal.now) notes.now result (E.state err.old) (E.state err.new) }
{
    let mut line = Vec::new(alloc);
    match put_line(refusal, &mut line) {
        Ok(()) => {
            let _told = tell(notes, &line, err);
            status(refusal)
        }
        Err(NoMemory) => {
            let _told = tell(notes, OUT_OF_MEMORY, err);
            status(&Refusal::NoMemory)
        }
    }
}

// The catalogue of the files that the words name.
fn page_of<F: Files>(
    alloc: Global,
    words: &[String],
    files: &mut F,
    notes: &mut Vec<u8>,
) -> Result<Text, Refusal>
    requires { notes.old.items ≡ [] }
    ensures { Makes result (map string_bytes words.now) (F.state files.old) (F.state files.new) notes.new.items }
{
    let paths = match paths_of(alloc, words) {
        Ok(paths) => paths,
        Err(NoMemory) => return Err(Refusal::NoMemory),
    };
    if !are_files(&paths) {
        return Err(Refusal::Usage);
    }
    catalogue_of(alloc, files, wants_sql(words), &paths, notes)
}

// Prints a page that was made.
fn printed<O: Sink>(page: Result<Text, Refusal>, out: &mut O) -> Result<(), Refusal>
    ensures { Puts page result (O.state out.old) (O.state out.new) }
{
    match page {
        Err(refusal) => Err(refusal),
        Ok(page) => match write_whole(out, page.slice()) {
            Ok(()) => Ok(()),
            Err(Stop::Failed) => Err(Refusal::Write),
            Err(Stop::NoMemory) => Err(Refusal::NoMemory),
        },
    }
}

// Writes a line behind the notes.
fn tell<E: Sink>(notes: &[u8], line: &[u8], err: &mut E) -> Result<(), Stop>
    ensures { WritesWhole (notes.now ++ line.now) result (E.state err.old) (E.state err.new) }
{
    match write_whole(err, notes) {
        Ok(()) => write_whole(err, line),
        Err(stop) => Err(stop),
    }
}
