//! What the program does.
ghost use Rattle.std.specs.Prelude.{◌≡◌, ◌<◌, ◌≤◌, ◌^◌, None, Some, IfOk, length, map, string_bytes};
ghost use Rattle.kl_sources.specs.Attaching.{HaveNone};
ghost use Rattle.kl_sources.specs.Sources.{kinds_of};
ghost use Rattle.kl_why.specs.Explaining.{Explains, Finds, FindsSources, ReadsText, SourcesIn, Tells};
ghost use Rattle.kl_why.specs.Words.{paths_of};
ghost use Rattle.kl_why.specs.declared.words.Paths.{Paths as APaths};

use crate::catalogue::read_sources;
use crate::drivers::{Drivers, SeenAll};
use crate::finding::find_in;
use crate::why::{Why, page_of, spot_of, status_of};
use crate::words::{Paths, paths_of};
use crate::wrong::Refusal;
use kl_base::{NoMemory, Text};
use kl_outside::{Files, Sink, Stop, Whole, read_whole, write_whole};
use kl_sources::Source;
use std::alloc::Global;

// How many bytes a program and a catalogue may have.
const MOST: u64 = 65_536;

const USAGE: &[u8] = b"usage: klwhy PROGRAM [CATALOGUE]\n";

const OUT_OF_MEMORY: &[u8] = b"out of memory\n";

/// Tells on `out` why `kleisli` refuses the program that the words name, or that nothing is wrong with it, and answers the
/// status: 1 where the words are no one or two paths, 8 where `out` refused a write, 9 for want of memory, and else that with
/// which `kleisli` refuses the program. The drivers are those that a catalogue may name.
pub fn klwhy<F: Files, O: Sink, E: Sink>(
    alloc: Global,
    words: &[String],
    files: &mut F,
    drivers: &mut Drivers,
    out: &mut O,
    err: &mut E,
) -> u8
    requires few { length drivers.old.items < 2 ^ 32 }
    requires clear { HaveNone (⟦<Drivers as SeenAll>⟧.states drivers.old) }
    ensures usage { result ≡ 1 → paths_of (map string_bytes words.now) ≡ None }
    ensures explains { (paths : APaths) → paths_of (map string_bytes words.now) ≡ Some paths → Explains (F.state files.old)
        (F.state files.new) (⟦<Drivers as SeenAll>⟧.states drivers.old) (⟦<Drivers as SeenAll>⟧.states drivers.new) paths result
        (O.state out.old) (O.state out.new) }
{
    match paths_of(alloc, words) {
        Ok(Some(paths)) => explain(alloc, &paths, files, drivers, out, err),
        Ok(None) => told(USAGE, 1, err),
        Err(NoMemory) => told(OUT_OF_MEMORY, 9, err),
    }
}

// Tells a line, and answers a status.
fn told<E: Sink>(line: &[u8], status: u8, err: &mut E) -> u8
    ensures { result ≡ status }
{
    let _told = write_whole(err, line);
    status
}

// Tells of the program of these paths.
fn explain<F: Files, O: Sink, E: Sink>(
    alloc: Global,
    paths: &Paths,
    files: &mut F,
    drivers: &mut Drivers,
    out: &mut O,
    err: &mut E,
) -> u8
    requires few { length drivers.old.items < 2 ^ 32 }
    requires clear { HaveNone (⟦<Drivers as SeenAll>⟧.states drivers.old) }
    ensures { Explains (F.state files.old) (F.state files.new) (⟦<Drivers as SeenAll>⟧.states drivers.old)
        (⟦<Drivers as SeenAll>⟧.states drivers.new) paths.now result (O.state out.old) (O.state out.new) }
{
    let found = find(alloc, paths, files, drivers);
    tell(alloc, &found, out, err)
}

// Prints what was found.
fn tell<O: Sink, E: Sink>(alloc: Global, found: &Result<(), Why>, out: &mut O, err: &mut E) -> u8
    ensures { Tells found.now result (O.state out.old) (O.state out.new) }
{
    match page_of(alloc, found) {
        Ok(page) => match write_whole(out, &page) {
            Ok(()) => status_of(found),
            Err(Stop::Failed) => told(b"write fault\n", 8, err),
            Err(Stop::NoMemory) => told(OUT_OF_MEMORY, 9, err),
        },
        Err(NoMemory) => told(OUT_OF_MEMORY, 9, err),
    }
}

// What is wrong with the program of these paths.
fn find<F: Files>(
    alloc: Global,
    paths: &Paths,
    files: &mut F,
    drivers: &mut Drivers,
) -> Result<(), Why>
    requires few { length drivers.old.items < 2 ^ 32 }
    requires clear { HaveNone (⟦<Drivers as SeenAll>⟧.states drivers.old) }
    ensures { Finds (F.state files.old) (F.state files.new) (⟦<Drivers as SeenAll>⟧.states drivers.old)
        (⟦<Drivers as SeenAll>⟧.states drivers.new) paths.now result }
{
    match read_text(alloc, &paths.program, files) {
        Ok(text) => match find_sources(alloc, &paths.catalogue, files, &*drivers) {
            Ok(sources) => find_in(alloc, &paths.program, text, sources, files, drivers),
            Err(why) => Err(why),
        },
        Err(why) => Err(why),
    }
}

// The text of a file.
fn read_text<F: Files>(alloc: Global, path: &Text, files: &mut F) -> Result<Text, Why>
    ensures text { ReadsText (F.state files.old) (F.state files.new) path.now result }
    ensures told { (F.state files.new).told ≡ (F.state files.old).told }
    ensures later { (F.state files.old).faults ≤ (F.state files.new).faults }
{
    match read_whole(alloc, files, path.slice(), MOST) {
        Ok(Whole::Bytes(text)) => Ok(text),
        Ok(Whole::TooLong) => Err(Why::TooLong(path.dup(alloc)?)),
        Err(Stop::Failed) => Err(Why::Unread(path.dup(alloc)?)),
        Err(Stop::NoMemory) => Err(Why::NoMemory),
    }
}

// The sources of the catalogue at a path, none where there is no path.
fn find_sources<F: Files>(
    alloc: Global,
    catalogue: &Option<Text>,
    files: &mut F,
    drivers: &Drivers,
) -> Result<Vec<Source>, Why>
    requires { length drivers.now.items < 2 ^ 32 }
    ensures finds { FindsSources (F.state files.old) (F.state files.new) (kinds_of (⟦<Drivers as SeenAll>⟧.states drivers.now)) catalogue.now result }
    ensures told { (F.state files.new).told ≡ (F.state files.old).told }
    ensures later { (F.state files.old).faults ≤ (F.state files.new).faults }
{
    match catalogue {
        None => Ok(Vec::new(alloc)),
        Some(path) => match read_text(alloc, path, files) {
            Ok(text) => sources_in(alloc, path, text, drivers),
            Err(why) => Err(why),
        },
    }
}

// The sources of the text of a catalogue, which stands at a path.
fn sources_in(alloc: Global, path: &Text, text: Text, drivers: &Drivers) -> Result<Vec<Source>, Why>
    requires few { length text ≤ 65536 }
    requires numbered { length drivers.now.items < 2 ^ 32 }
    ensures { SourcesIn path.now text (kinds_of (⟦<Drivers as SeenAll>⟧.states drivers.now)) result }
{
    match read_sources(alloc, text.slice(), drivers) {
        Ok(sources) => Ok(sources),
        Err(Refusal::Wrong { wrong, byte }) => Err(Why::Catalogue(
            wrong,
            spot_of(alloc, path, text, byte)?,
        )),
        Err(Refusal::NoMemory) => Err(Why::NoMemory),
    }
}
