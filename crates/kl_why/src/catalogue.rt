//! What is wrong with the text of a catalogue.
ghost use Rattle.std.specs.Prelude.{◌≡◌, ◌<◌, ◌≤◌, ◌^◌, [], List, Ok, Err, All, IfOk, length, map};
ghost use Rattle.kl_catalogue.specs.Reading.{IsCatalogue};
ghost use Rattle.kl_lex.specs.Lexing.{Tokens};
ghost use Rattle.kl_lex.specs.declared.token.Token.{Token as AToken};
ghost use Rattle.kl_sources.specs.Sources.{kinds_of, sources_of};
ghost use Rattle.kl_sources.specs.declared.source.Source.{Source as ASource};
ghost use Rattle.kl_type.specs.Ground.{IsProper};
ghost use Rattle.kl_why.specs.Catalogues.{Places, TellsEntry, entry_refusal};
ghost use Rattle.kl_why.specs.Tokens.{part_byte};

use crate::tokens::part_byte;
use crate::wrong::{Refusal, Wrong};
use kl_ask::Driver;
use kl_base::NoMemory;
use kl_catalogue::{CatalogueError, Entry, read_catalogue};
use kl_lex::lex;
use kl_sources::{PlaceError, Source, place_sources};
use std::alloc::Global;

/// The sources of the catalogue that a text is, each at its driver.
///
/// # Errors
/// What is wrong first, and the byte where it is: where the text is no catalogue, or nests too deep; or else where the first
/// entry begins that is wrong. Want of memory.
pub fn read_sources(
    alloc: Global,
    text: &[u8],
    drivers: &Vec<Box<dyn Driver>>,
) -> Result<Vec<Source>, Refusal>
    requires few { length text.now ≤ 65536 }
    requires numbered { length drivers.now.items < 2 ^ 32 }
    ensures { Places (kinds_of (map (λ d. state d) drivers.now.items)) text.now result }
{
    match read_catalogue(alloc, text) {
        Ok(entries) => match place_sources(alloc, entries.slice(), drivers) {
            Ok(sources) => Ok(sources),
            Err(PlaceError::NoMemory) => Err(Refusal::NoMemory),
            Err(_) => Err(wrong_entry(alloc, text, entries.slice(), drivers)),
        },
        Err(CatalogueError::Bad { byte }) => Err(Refusal::Wrong {
            wrong: Wrong::NoCatalogue,
            byte,
        }),
        Err(CatalogueError::TooDeep { byte }) => Err(Refusal::Wrong {
            wrong: Wrong::Nesting,
            byte,
        }),
        Err(CatalogueError::NoMemory) => Err(Refusal::NoMemory),
    }
}

// What is wrong with the first entry that is wrong.
fn wrong_entry(
    alloc: Global,
    text: &[u8],
    entries: &[Entry],
    drivers: &Vec<Box<dyn Driver>>,
) -> Refusal
    requires few { length text.now ≤ 65536 }
    requires numbered { length drivers.now.items < 2 ^ 32 }
    requires entries { IsCatalogue text.now entries.now }
    requires proper { All (λ e. IsProper e.ty) entries.now }
    requires wrong { (ss : List ASource) → sources_of (kinds_of (map (λ d. state d) drivers.now.items)) [] entries.now ≡ Ok ss → ⊥ }
    ensures { Places (kinds_of (map (λ d. state d) drivers.now.items)) text.now (Err result) }
{
    'entries: for number in 0..entries.len() {
        match place_sources(alloc, &entries[..number + 1], drivers) {
            Ok(_) => {}
            Err(error) => return told(alloc, text, number, error),
        }
    }
    unreachable!()
}

// How it is told that this is wrong with the entry of a number.
fn told(alloc: Global, text: &[u8], number: usize, error: PlaceError) -> Refusal
    requires { length text.now ≤ 65536 }
    ensures { TellsEntry text.now number error result }
{
    match entry_byte(alloc, text, number) {
        Ok(byte) => entry_refusal(error, byte),
        Err(NoMemory) => Refusal::NoMemory,
    }
}

fn entry_refusal(error: PlaceError, byte: u32) -> Refusal
    ensures { result ≡ entry_refusal error byte }
{
    match error {
        PlaceError::Twice { name } => Refusal::Wrong {
            wrong: Wrong::NameTwice(name),
            byte,
        },
        PlaceError::NoDriver { name } => Refusal::Wrong {
            wrong: Wrong::NoDriver(name),
            byte,
        },
        PlaceError::Unsuited { name } => Refusal::Wrong {
            wrong: Wrong::Unsuited(name),
            byte,
        },
        PlaceError::NoMemory => Refusal::NoMemory,
    }
}

// The byte at which the entry of a number begins. The bytes of a catalogue have tokens.
fn entry_byte(alloc: Global, text: &[u8], number: usize) -> Result<u32, NoMemory>
    requires { length text.now ≤ 65536 }
    ensures { IfOk result (λ byte. (ts : List AToken) → Tokens text.now ts → byte ≡ part_byte (length text.now) ts number) }
{
    match lex(alloc, text) {
        Ok(tokens) => Ok(part_byte(tokens.slice(), number, text.len() as u32)),
        Err(_) => Err(NoMemory),
    }
}
