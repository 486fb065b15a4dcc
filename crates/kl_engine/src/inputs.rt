//! The files that a command names: the text of its program, and the sources of its catalogue.
ghost use Rattle.std.specs.Prelude.{◌≡◌, ◌<◌, ◌≤◌, ◌^◌, length};
ghost use Rattle.kl_sources.specs.Sources.{kinds_of};
ghost use Rattle.kl_engine.specs.Catalogues.{place_fault};
ghost use Rattle.kl_outside.specs.Files.{FilesState};
ghost use Rattle.kl_engine.specs.Commands.{Files as FromFiles, Made};
ghost use Rattle.kl_engine.specs.Inputs.{ReadsInputs, ReadsSources, PlacesCatalogue};

use crate::drivers::{Drivers, SeenAll};
use crate::fault::Fault;
use kl_base::{NoMemory, Seq, Text};
use kl_catalogue::{CatalogueError, read_catalogue};
use kl_outside::{Files, Stop, Whole, read_whole};
use kl_sources::{PlaceError, Source, place_sources};
use kl_tools::gen_texts;
use std::alloc::Global;

// How many bytes a program and a catalogue may have.
const MOST: u64 = 65_536;

/// What a command on a program works on: the program's text, and the sources of its catalogue.
#[derive(Drop)]
pub struct Inputs {
    pub text: Text,
    pub sources: Seq<Source>,
}

/// The text of the program at a path, and the sources of the catalogue at another.
///
/// # Errors
/// The first that is wrong: the program's file is missing or could not be read, or has too many bytes; and then the same of
/// the catalogue's; its text is no catalogue; or an entry of it, in their order. Want of memory.
pub fn read_inputs<F: Files>(
    alloc: Global,
    program: &Text,
    catalogue: &Option<Text>,
    drivers: &Drivers,
    files: &mut F,
) -> Result<Inputs, Fault>
    requires { length drivers.now.items < 2 ^ 32 }
    ensures { ReadsInputs (FromFiles program.now catalogue.now) (kinds_of (⟦<Drivers as SeenAll>⟧.states drivers.now))
        result (F.state files.old) (F.state files.new) }
{
    match read_whole(alloc, files, program.slice(), MOST) {
        Ok(Whole::Bytes(text)) => match read_sources(alloc, catalogue, drivers, files) {
            Ok(sources) => Ok(Inputs {
                text,
                sources: Seq::of(sources),
            }),
            Err(fault) => Err(fault),
        },
        Ok(Whole::TooLong) => Err(Fault::ProgramBytes),
        Err(Stop::Failed) => Err(Fault::Read),
        Err(Stop::NoMemory) => Err(Fault::NoMemory),
    }
}

/// The text of the program over so many made rows of a seed, and its sources.
///
/// # Errors
/// No driver makes rows of their type; want of memory.
pub fn made_inputs(alloc: Global, seed: u32, size: u32, drivers: &Drivers) -> Result<Inputs, Fault>
    requires { length drivers.now.items < 2 ^ 32 }
    ensures { (files : FilesState) → ReadsInputs (Made seed size)
        (kinds_of (⟦<Drivers as SeenAll>⟧.states drivers.now)) result files files }
{
    match gen_texts(alloc, seed, size) {
        Ok(texts) => match catalogue_of(alloc, texts.catalogue.slice(), drivers) {
            Ok(sources) => Ok(Inputs {
                text: texts.program,
                sources: Seq::of(sources),
            }),
            Err(fault) => Err(fault),
        },
        Err(NoMemory) => Err(Fault::NoMemory),
    }
}

// The sources of the catalogue at this path, each at its driver; none where there is no path. The first that is wrong is
// told: the file is missing or could not be read, it has too many bytes, its text is no catalogue, or an entry of it.
fn read_sources<F: Files>(
    alloc: Global,
    catalogue: &Option<Text>,
    drivers: &Drivers,
    files: &mut F,
) -> Result<Vec<Source>, Fault>
    requires { length drivers.now.items < 2 ^ 32 }
    ensures { ReadsSources catalogue.now (kinds_of (⟦<Drivers as SeenAll>⟧.states drivers.now)) result
        (F.state files.old) (F.state files.new) }
{
    match catalogue {
        None => Ok(Vec::new(alloc)),
        Some(path) => match read_whole(alloc, files, path.slice(), MOST) {
            Ok(Whole::Bytes(text)) => catalogue_of(alloc, text.slice(), drivers),
            Ok(Whole::TooLong) => Err(Fault::CatalogueBytes),
            Err(Stop::Failed) => Err(Fault::Read),
            Err(Stop::NoMemory) => Err(Fault::NoMemory),
        },
    }
}

// The sources of a catalogue's text.
fn catalogue_of(alloc: Global, text: &[u8], drivers: &Drivers) -> Result<Vec<Source>, Fault>
    requires few { length text.now ≤ 65536 }
    requires drivers { length drivers.now.items < 2 ^ 32 }
    ensures { PlacesCatalogue (kinds_of (⟦<Drivers as SeenAll>⟧.states drivers.now)) text.now result }
{
    match read_catalogue(alloc, text) {
        Ok(entries) => match place_sources(alloc, entries.slice(), drivers) {
            Ok(sources) => Ok(sources),
            Err(error) => Err(place_fault(error)),
        },
        Err(CatalogueError::Bad { byte }) => Err(Fault::Catalogue(byte)),
        Err(CatalogueError::TooDeep { .. }) => Err(Fault::Nesting),
        Err(CatalogueError::NoMemory) => Err(Fault::NoMemory),
    }
}

// The fault of an entry of a catalogue.
fn place_fault(error: PlaceError) -> Fault
    ensures { result ≡ place_fault error }
{
    match error {
        PlaceError::Twice { name } => Fault::NameTwice(name),
        PlaceError::NoDriver { name } => Fault::NoDriver(name),
        PlaceError::Unsuited { name } => Fault::Unsuited(name),
        PlaceError::NoMemory => Fault::NoMemory,
    }
}
