//! Types, read off their text. `depth`: how much deeper they may nest.
ghost use Rattle.std.specs.Prelude.{◌≡◌, ◌∷◌, [], List, ℕ, length, IfOk, MatchOption, true, false};
ghost use Rattle.kl_phrase.specs.Words.{heads};
ghost use Rattle.kl_phrase.specs.Readers.{one};
ghost use Rattle.kl_lex.specs.declared.token.Placed.{Placed as APlaced};
ghost use Rattle.kl_lex.specs.declared.token.Sym.TheVariants as symbols;
ghost use Rattle.kl_type.specs.declared.ground.Ty.{Ty as AType};
ghost use Rattle.kl_type.specs.declared.reading.TypeError.TheVariants.{NoMemory as WantOfMemory};
ghost use Rattle.kl_phrase.specs.Gives.{Gives};
ghost use Rattle.kl_lex.specs.Brackets.{opener};
ghost use Rattle.kl_type.specs.Grammar.{Reads};
ghost use Rattle.kl_type.specs.Ground.{IsProper};
ghost use Rattle.kl_type.specs.Descent.{is_symbol, is_word, a_base, base_of, a_label, field, fields, in_coll, in_rec, in_var, reads};
ghost use Rattle.kl_phrase.specs.FirstPlaces.{OnePlace};
ghost use Rattle.kl_base.specs.Results.{OrMemory};
ghost use Rattle.kl_type.specs.Reading.{ReadsType, SpellsType, RefusesType, RefusesTokens};
ghost use Rattle.kl_type.specs.Texts.{is_bracket};

use crate::front::{byte_of, eat, want, word_at};
use crate::ground::{Ty, TyFields};
use kl_base::{Box, Label, NoMemory, Seq};
use kl_lex::{Lexed, Placed, Sym, Tok, closer, lex_all};
use kl_phrase::Fault;
use kl_value::Kind;
use std::alloc::{AllocFailed, Global};
use std::collections::BTreeMap;
use thiserror::Error;

/// Why bytes are no type.
#[derive(Clone, Copy, Debug, PartialEq, Eq, Error)]
pub enum TypeError {
    /// At this byte a token is due, and none starts there; or else a token begins with which no type goes on. The
    /// length of the text, where tokens are missing.
    #[error("syntax at byte {place}")]
    Bad { place: u64 },
    /// At this byte a bracket opens inside 256 others.
    #[error("nesting at byte {place}")]
    TooDeep { place: u64 },
    /// Want of memory.
    #[error("out of memory")]
    NoMemory,
}

impl From<NoMemory> for TypeError {
    ghost from_gives = { λ _ e. e ≡ WantOfMemory };

    fn from(_error: NoMemory) -> TypeError {
        TypeError::NoMemory
    }
}

/// How deep a type may nest.
const MOST_NESTED: u32 = 256;

/// Whether a word comes.
fn comes_word(tokens: &[Placed]) -> bool
    ensures { result ≡ heads is_word tokens.now }
{
    let [Placed { what, .. }, ..] = tokens else {
        return false;
    };
    matches!(what, Tok::Word(_))
}

/// The type with this name.
fn base_of(word: &[u8]) -> Option<Ty>
    ensures { result ≡ base_of word.now }
{
    if word == b"bool".as_slice() {
        Some(Ty::Bool)
    } else if word == b"int".as_slice() {
        Some(Ty::Int)
    } else if word == b"string".as_slice() {
        Some(Ty::Str)
    } else {
        None
    }
}

/// `"bool" | "int" | "string"`
fn base(tokens: &[Placed]) -> Result<(Ty, &[Placed]), Fault<'_, Placed>>
    ensures { Gives (λ x. x.0) (λ x. x.1.now) result (one a_base tokens.now) }
{
    match word_at(tokens) {
        None => Err(Fault::Bad(tokens)),
        Some((word, rest)) => match base_of(word.slice()) {
            None => Err(Fault::Bad(tokens)),
            Some(found) => Ok((found, rest)),
        },
    }
}

/// Any word, but no label of these fields.
fn label<'a>(
    found: &BTreeMap<Label, Ty>,
    tokens: &'a [Placed],
) -> Result<(Label, &'a [Placed]), Fault<'a, Placed>>
    ensures { Gives (λ x. x.0) (λ x. x.1.now) result (one (a_label found.now.entries) tokens.now) }
{
    match word_at(tokens) {
        None => Err(Fault::Bad(tokens)),
        Some((word, rest)) => {
            if found.contains_key(word) {
                return Err(Fault::Bad(tokens));
            }
            Ok((word.dup()?, rest))
        }
    }
}

/// The kind of collection that a bracket opens, and what stands behind it.
fn opened(tokens: &[Placed]) -> Option<(Kind, &[Placed])>
    ensures { MatchOption result
        ((heads (is_symbol symbols.OpenSet) tokens.now ≡ false) × (heads (is_symbol symbols.OpenBag) tokens.now ≡ false)
        × (heads (is_symbol symbols.OpenList) tokens.now ≡ false))
        (λ x. (t : APlaced) × (tokens.now ≡ t ∷ x.1.now) × (is_symbol (opener x.0) t ≡ true)) }
{
    if let Some(rest) = eat(tokens, Sym::OpenSet) {
        return Some((Kind::Set, rest));
    }
    if let Some(rest) = eat(tokens, Sym::OpenBag) {
        return Some((Kind::Bag, rest));
    }
    let rest = eat(tokens, Sym::OpenList)?;
    Some((Kind::List, rest))
}

/// The fields in their order.
fn in_order(alloc: Global, found: BTreeMap<Label, Ty>) -> Result<TyFields, NoMemory>
    ensures { IfOk result (λ fields. fields ≡ found.entries) }
{
    Ok(Seq::of(found.into_iter().collect(alloc)?))
}

/// `"{" type "}" | "{|" type "|}" | "[|" type "|]" | "[" [ fields ] "]" | "<" fields ">" | "bool" | "int" | "string"`
#[cycle(ty)]
fn read(alloc: Global, depth: u32, tokens: &[Placed]) -> Result<(Ty, &[Placed]), Fault<'_, Placed>>
    ensures { Gives (λ x. x.0) (λ x. x.1.now) result (reads depth tokens.now) }
{
    if let Some((kind, rest)) = opened(tokens) {
        if depth == 0 {
            return Err(Fault::Deep(tokens));
        }
        let (item, rest) = coll_rest(alloc, depth - 1, kind, rest)?;
        return Ok((Ty::Coll(kind, Box::new(alloc, item)?), rest));
    }
    if let Some(rest) = eat(tokens, Sym::OpenRec) {
        if depth == 0 {
            return Err(Fault::Deep(tokens));
        }
        let (fields, rest) = rec_rest(alloc, depth - 1, rest)?;
        return Ok((Ty::Rec(fields), rest));
    }
    if let Some(rest) = eat(tokens, Sym::Lt) {
        if depth == 0 {
            return Err(Fault::Deep(tokens));
        }
        let (cases, rest) = var_rest(alloc, depth - 1, rest)?;
        return Ok((Ty::Var(cases), rest));
    }
    base(tokens)
}

/// What stands behind the opener of a collection type.
#[cycle(ty)]
fn coll_rest(
    alloc: Global,
    depth: u32,
    kind: Kind,
    tokens: &[Placed],
) -> Result<(Ty, &[Placed]), Fault<'_, Placed>>
    ensures { Gives (λ x. x.0) (λ x. x.1.now) result (in_coll (reads depth) kind tokens.now) }
{
    let (item, rest) = read(alloc, depth, tokens)?;
    let rest = want(rest, closer(kind))?;
    Ok((item, rest))
}

/// `[ fields ] "]"`
#[cycle(ty)]
fn rec_rest(
    alloc: Global,
    depth: u32,
    tokens: &[Placed],
) -> Result<(TyFields, &[Placed]), Fault<'_, Placed>>
    ensures { Gives (λ x. x.0) (λ x. x.1.now) result (in_rec (reads depth) tokens.now) }
{
    if !comes_word(tokens) {
        let rest = want(tokens, Sym::CloseRec)?;
        return Ok((Seq::of(Vec::new(alloc)), rest));
    }
    let (found, rest) = fields(alloc, depth, tokens)?;
    let rest = want(rest, Sym::CloseRec)?;
    Ok((found, rest))
}

/// `fields ">"`
#[cycle(ty)]
fn var_rest(
    alloc: Global,
    depth: u32,
    tokens: &[Placed],
) -> Result<(TyFields, &[Placed]), Fault<'_, Placed>>
    ensures { Gives (λ x. x.0) (λ x. x.1.now) result (in_var (reads depth) tokens.now) }
{
    let (found, rest) = fields(alloc, depth, tokens)?;
    let rest = want(rest, Sym::Gt)?;
    Ok((found, rest))
}

/// `LABEL ":" type { "," LABEL ":" type }`, where no label repeats.
#[cycle(ty)]
fn fields(
    alloc: Global,
    depth: u32,
    tokens: &[Placed],
) -> Result<(TyFields, &[Placed]), Fault<'_, Placed>>
    ensures { Gives (λ x. x.0) (λ x. x.1.now) result (fields (reads depth) tokens.now) }
{
    let mut found = BTreeMap::new(alloc);
    let (first, behind) = field(alloc, depth, &found, tokens)?;
    let (name, inner) = first;
    found.insert(name, inner)?;
    let mut rest = behind;
    'fields: while let Some(after) = eat(rest, Sym::Comma) {
        let (next, after) = field(alloc, depth, &found, after)?;
        let (name, inner) = next;
        found.insert(name, inner)?;
        rest = after;
    }
    let sorted = in_order(alloc, found)?;
    Ok((sorted, rest))
}

/// `LABEL ":" type`, with no label of these fields.
#[cycle(ty)]
fn field<'a>(
    alloc: Global,
    depth: u32,
    found: &BTreeMap<Label, Ty>,
    tokens: &'a [Placed],
) -> Result<((Label, Ty), &'a [Placed]), Fault<'a, Placed>>
    ensures { Gives (λ x. x.0) (λ x. x.1.now) result (field (reads depth) found.now.entries tokens.now) }
{
    let (name, rest) = label(found, tokens)?;
    let rest = want(rest, Sym::Colon)?;
    let (inner, rest) = read(alloc, depth, rest)?;
    Ok(((name, inner), rest))
}

/// The type with which the tokens begin, and what stands behind it.
///
/// # Errors
/// As the descent over the grammar of types tells (`reads` in `specs/Descent.antt`): the tokens from the first one with
/// which no type goes on, or from the bracket that opens inside 256 others. Want of memory.
pub fn read_front(alloc: Global, tokens: &[Placed]) -> Result<(Ty, &[Placed]), Fault<'_, Placed>>
    ensures { Gives (λ x. x.0) (λ x. x.1.now) result (reads 256 tokens.now) }
{
    read(alloc, MOST_NESTED, tokens)
}

/// The type that the tokens of a text of so many bytes spell.
///
/// # Errors
/// As `read_type`, which reads the tokens first.
fn type_of(alloc: Global, total: usize, tokens: &[Placed]) -> Result<Ty, TypeError>
    ensures spells { IfOk result (SpellsType tokens.now) }
    ensures only { (t : AType) → SpellsType tokens.now t → OrMemory WantOfMemory result t }
    ensures refused { RefusesTokens total tokens.now result }
{
    match read_front(alloc, tokens) {
        Ok((found, [])) => Ok(found),
        Ok((_, rest)) => Err(TypeError::Bad {
            place: byte_of(total, rest),
        }),
        Err(Fault::Memory) => Err(TypeError::NoMemory),
        Err(Fault::Bad(rest)) => Err(TypeError::Bad {
            place: byte_of(total, rest),
        }),
        Err(Fault::Deep(rest)) => Err(TypeError::TooDeep {
            place: byte_of(total, rest),
        }),
    }
}

/// The type that the bytes are. White space and comments may stand between its tokens, and its fields come in any
/// order, each label once. It is proper.
///
/// # Errors
/// `Bad` exactly where the bytes are no type: with the first byte where a token is due and none starts, else with the
/// first byte of the first token with which no type goes on, or the length of the text where tokens are missing.
/// `TooDeep` with the first bracket that opens inside 256 others: the tokens before it begin a type that nests at most 256
/// deep, those through it one that nests 257 deep, and none that nests less. It comes before any refusal of a token behind it.
/// Want of memory.
pub fn read_type(alloc: Global, bytes: &[u8]) -> Result<Ty, TypeError>
    ensures reads { IfOk result (ReadsType bytes.now) }
    ensures proper { IfOk result IsProper }
    ensures only { (t : AType) → ReadsType bytes.now t → OrMemory WantOfMemory result t }
    ensures refused { RefusesType bytes.now result }
{
    match lex_all(alloc, bytes)? {
        Lexed::Bad { byte } => Err(TypeError::Bad { place: byte }),
        Lexed::Tokens(tokens) => type_of(alloc, bytes.len(), tokens.slice()),
    }
}

/// Laws of the texts of types, for the layers above to cite: tokens are at most one type, which is proper, and go wrong at
/// most at one place, in at most one way, and nowhere where they are a type.
pub fn type_laws()
    ensures unique { (ts : List APlaced) (t u : AType) → SpellsType ts t → SpellsType ts u → t ≡ u }
    ensures proper { (ts : List APlaced) (t : AType) → SpellsType ts t → IsProper t }
    ensures one_place { (ts : List APlaced) → OnePlace Reads is_bracket 256 ts }
{}
