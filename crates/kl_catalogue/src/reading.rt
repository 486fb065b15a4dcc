//! Catalogues, read off their text.

ghost use Rattle.std.specs.Prelude.{◌≡◌, ◌≤◌, ◌<◌, ◌^◌, [], List, length, map, All, IfOk};
ghost use Rattle.kl_lex.specs.Lexing.{PlacesRise};
ghost use Rattle.kl_lex.specs.Placing.{token_of};
ghost use Rattle.kl_lex.specs.declared.token.Placed.{Placed as APlaced};
ghost use Rattle.kl_phrase.specs.Gives.{Gives};
ghost use Rattle.kl_type.specs.Descent.{reads};
ghost use Rattle.kl_type.specs.Ground.{IsProper};
ghost use Rattle.kl_phrase.specs.FirstPlaces.{OnePlace};
ghost use Rattle.kl_type.specs.Texts.{byte_of, is_bracket};
ghost use Rattle.kl_catalogue.specs.declared.reading.Entry.{Entry as AnEntry};
ghost use Rattle.kl_catalogue.specs.declared.reading.CatalogueError.TheVariants.{NoMemory as WantOfMemory};
ghost use Rattle.kl_catalogue.specs.Grammar.{ReadsCatalogue};
ghost use Rattle.kl_catalogue.specs.Descent.{entry_rest, catalogue};
ghost use Rattle.kl_base.specs.Results.{OrMemory};
ghost use Rattle.kl_catalogue.specs.Reading.{IsCatalogue, SpellsCatalogue, IsToldOf, RefusesCatalogue, RefusesTokens};

use crate::front::{name, source, text};
use kl_base::{Label, NoMemory, Seq, Text};
use kl_lex::{Lexed, Placed, Sym, lex_all};
use kl_phrase::Fault;
use kl_type::{Ty, byte_of, read_front, want};
use std::alloc::Global;
use thiserror::Error;

/// A source that a program may name.
#[derive(Drop, PartialEq, Eq)]
pub struct Entry {
    /// The name by which programs speak of it.
    pub name: Label,
    /// The type of its value.
    pub ty: Ty,
    /// The name of the driver that reads it.
    pub driver: Label,
    /// Where the driver finds it.
    pub locator: Text,
}

/// Entries, in the order of their text. Two may have one name.
pub type Catalogue = Seq<Entry>;

/// Why bytes are no catalogue.
#[derive(Clone, Copy, Debug, PartialEq, Eq, Error)]
pub enum CatalogueError {
    /// At this byte a token is due, and none starts there; or else a token begins with which no catalogue goes on. The
    /// length of the text, where tokens are missing.
    #[error("syntax at byte {byte}")]
    Bad { byte: u32 },
    /// At this byte a bracket opens inside 256 others.
    #[error("nesting at byte {byte}")]
    TooDeep { byte: u32 },
    /// Want of memory.
    #[error("out of memory")]
    NoMemory,
}

impl From<NoMemory> for CatalogueError {
    ghost from_gives = { λ _ e. e ≡ WantOfMemory };

    fn from(_error: NoMemory) -> CatalogueError {
        CatalogueError::NoMemory
    }
}

/// What stands behind `source`: `NAME ":" type "=" NAME TEXT ";"`
fn entry_rest(alloc: Global, tokens: &[Placed]) -> Result<(Entry, &[Placed]), Fault<'_, Placed>>
    ensures { Gives (λ x. x.0) (λ x. x.1.now) result (entry_rest (reads 256) tokens.now) }
{
    let (called, rest) = name(tokens)?;
    let rest = want(rest, Sym::Colon)?;
    let (ty, rest) = read_front(alloc, rest)?;
    let rest = want(rest, Sym::Eq)?;
    let (driver, rest) = name(rest)?;
    let (locator, rest) = text(alloc, rest)?;
    let rest = want(rest, Sym::Semi)?;
    Ok((
        Entry {
            name: called,
            ty,
            driver,
            locator,
        },
        rest,
    ))
}

/// `{ "source" .. }`
fn entries(alloc: Global, tokens: &[Placed]) -> Result<(Vec<Entry>, &[Placed]), Fault<'_, Placed>>
    ensures { Gives (λ x. x.0.items) (λ x. x.1.now) result (catalogue 256 tokens.now) }
{
    let mut found = Vec::new(alloc);
    let mut rest = tokens;
    'entries: while let Some(after) = source(rest) {
        let (next, after) = entry_rest(alloc, after)?;
        found.push(next)?;
        rest = after;
    }
    Ok((found, rest))
}

/// The byte at which these last tokens of a text of so many bytes begin, which takes no more than 32 bits.
fn place_of(total: usize, tokens: &[Placed]) -> u32
    requires { byte_of total tokens.now < 2 ^ 32 }
    ensures { result ≡ byte_of total tokens.now }
{
    byte_of(total, tokens) as u32
}

/// The catalogue that the tokens of a text of so many bytes spell.
///
/// # Errors
/// As `read_catalogue`, which reads the tokens first.
fn catalogue_of(alloc: Global, total: usize, tokens: &[Placed]) -> Result<Catalogue, CatalogueError>
    requires short { total ≤ 65536 }
    requires places { PlacesRise 0 total (map token_of tokens.now) }
    ensures spells { IfOk result (SpellsCatalogue tokens.now) }
    ensures only { (c : List AnEntry) → SpellsCatalogue tokens.now c → OrMemory WantOfMemory result c }
    ensures refused { RefusesTokens total tokens.now result }
{
    match entries(alloc, tokens) {
        Ok((found, [])) => Ok(Seq::of(found)),
        Ok((_, rest)) => Err(CatalogueError::Bad {
            byte: place_of(total, rest),
        }),
        Err(Fault::Memory) => Err(CatalogueError::NoMemory),
        Err(Fault::Bad(rest)) => Err(CatalogueError::Bad {
            byte: place_of(total, rest),
        }),
        Err(Fault::Deep(rest)) => Err(CatalogueError::TooDeep {
            byte: place_of(total, rest),
        }),
    }
}

/// The catalogue that the bytes are, at most 65,536 of them: `{ "source" NAME ":" type "=" NAME TEXT ";" }`. White space
/// and comments may stand between tokens. A NAME is a word that is no keyword of the language; the fields of a type come in
/// any order, each label once, and types nest at most 256 deep. The types are proper.
///
/// # Errors
/// `Bad` exactly where the bytes are no catalogue: with the first byte where a token is due and none starts, else with the
/// first byte of the first token with which no catalogue goes on, or the length of the text where tokens are missing.
/// `TooDeep` with the first bracket that opens inside 256 others, where the tokens before it begin a catalogue that nests
/// at most 256 deep. Want of memory.
pub fn read_catalogue(alloc: Global, bytes: &[u8]) -> Result<Catalogue, CatalogueError>
    requires { length bytes.now ≤ 65536 }
    ensures reads { IfOk result (IsCatalogue bytes.now) }
    ensures proper { IfOk result (λ c. All (λ e. IsProper e.ty) c) }
    ensures only { (c : List AnEntry) → IsCatalogue bytes.now c → OrMemory WantOfMemory result c }
    ensures refused { RefusesCatalogue bytes.now result }
{
    match lex_all(alloc, bytes)? {
        Lexed::Bad { byte } => Err(CatalogueError::Bad { byte: byte as u32 }),
        Lexed::Tokens(tokens) => catalogue_of(alloc, bytes.len(), tokens.slice()),
    }
}

/// Laws of the texts of catalogues, for the layers above to cite: tokens are at most one catalogue, and go wrong at most at
/// one place, in at most one way, and nowhere where they are a catalogue; and one of the three they are.
pub fn catalogue_laws()
    ensures unique { (ts : List APlaced) (c d : List AnEntry) → SpellsCatalogue ts c → SpellsCatalogue ts d → c ≡ d }
    ensures told { (ts : List APlaced) → IsToldOf ts }
    ensures one_place { (ts : List APlaced) → OnePlace ReadsCatalogue is_bracket 256 ts }
{}
