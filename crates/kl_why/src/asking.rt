//! What types the parts of a declaration have, each behind the generators that bind its variables.
ghost use Rattle.std.specs.Prelude.{◌≡◌, ◌++◌, ℕ, List, All, IfOk, OnOk, drop, take, true};
ghost use Rattle.kl_infer.specs.Inferred.{types_of};
ghost use Rattle.kl_rows.specs.Schemes.{IsScheme};
ghost use Rattle.kl_type.specs.Ground.{IsProper};
ghost use Rattle.kl_why.specs.Untyped.{HasNoType};

use crate::place::put;
use crate::program::read_scope;
use crate::spans::Span;
use crate::wrong::Refusal;
use kl_base::{Label, NoMemory, Shared, Text};
use kl_infer::{InferError, infer, print_scheme};
use kl_lex::Token;
use kl_rows::Scheme;
use kl_type::Ty;
use std::alloc::Global;

// The greatest length of a program.
const MOST: usize = 65_536;

/// A declaration of a text, whose parts are asked for: the sources, the tokens, the number of that behind `==`, and of a function
/// the number of that behind `=>`.
#[derive(Clone, Copy)]
pub struct Asked<'a> {
    pub text: &'a [u8],
    pub names: &'a [Label],
    pub types: &'a [(Label, Ty)],
    pub tokens: &'a [Token],
    pub closers: &'a [usize],
    pub first: usize,
    pub body: Span,
    pub is_function: bool,
}

/// What stands at a byte of a text.
#[derive(Clone, Copy)]
pub struct Piece<'a> {
    pub byte: usize,
    pub bytes: &'a [u8],
}

/// Some tokens of a text.
pub fn piece_of<'a>(text: &'a [u8], tokens: &[Token], span: Span) -> Piece<'a>
    ensures { (n : ℕ) × (result.bytes.now ≡ take n (drop result.byte text.now)) }
{
    let end = text.len();
    let from = match tokens.get(span.from) {
        Some(token) => (token.from as usize).min(end),
        None => end,
    };
    let to = match tokens.get(span.to.saturating_sub(1)) {
        Some(token) => (token.to as usize).min(end).max(from),
        None => end,
    };
    Piece {
        byte: from,
        bytes: &text[from..to],
    }
}

/// The bytes of some tokens.
pub fn bytes_of<'a>(text: &'a [u8], tokens: &[Token], span: Span) -> &'a [u8] {
    piece_of(text, tokens, span).bytes
}

/// A program whose last declaration is a list of one part alone behind some generators, in place of the body of the declaration.
///
/// # Errors
/// Want of memory.
pub fn program_of(
    alloc: Global,
    asked: &Asked,
    generators: &[u8],
    part: &[u8],
) -> Result<Vec<u8>, NoMemory>
    ensures { IfOk result (λ text. (front : List ℕ) × (back : List ℕ) × (text.items ≡ front ++ part.now ++ back)) }
{
    let mut text = head_of(alloc, asked)?;
    put(b"[|(", &mut text)?;
    put_part(part, &mut text)?;
    put_tail(asked, generators, &mut text)?;
    Ok(text)
}

/// The same of a part that is a qualifier, or with this behind it, behind the generators.
///
/// # Errors
/// Want of memory.
pub fn program_by(
    alloc: Global,
    asked: &Asked,
    generators: &[u8],
    part: &[u8],
    behind: &[u8],
) -> Result<Vec<u8>, NoMemory>
    ensures { IfOk result (λ text. (front : List ℕ) × (back : List ℕ) × (text.items ≡ front ++ part.now ++ back)) }
{
    let mut text = head_of(alloc, asked)?;
    put(b"[|(0) | ", &mut text)?;
    put(generators, &mut text)?;
    if !generators.is_empty() {
        put(b", ", &mut text)?;
    }
    put_part(part, &mut text)?;
    put_end(asked, behind, &mut text)?;
    Ok(text)
}

// Puts a part behind a text.
fn put_part(part: &[u8], text: &mut Vec<u8>) -> Result<(), NoMemory>
    ensures { OnOk result ((front : List ℕ) × (text.new.items ≡ front ++ part.now)) }
{
    put(part, text)
}

// Puts what stands behind the last qualifier.
fn put_end(asked: &Asked, behind: &[u8], text: &mut Vec<u8>) -> Result<(), NoMemory>
    ensures { OnOk result ((back : List ℕ) × (text.new.items ≡ text.old.items ++ back)) }
{
    put(behind, text)?;
    put(b"\n|];", text)?;
    if asked.is_function {
        put(b" 0;", text)?;
    }
    Ok(())
}

// What stands before the list.
fn head_of(alloc: Global, asked: &Asked) -> Result<Vec<u8>, NoMemory> {
    let mut text = Vec::new(alloc);
    let front = match tokens_from(asked) {
        Some(byte) => byte.min(asked.text.len()),
        None => 0,
    };
    put(&asked.text[..front], &mut text)?;
    if asked.is_function {
        let head = Span {
            from: asked.first,
            to: asked.body.from,
        };
        put(bytes_of(asked.text, asked.tokens, head), &mut text)?;
        put(b" ", &mut text)?;
    }
    Ok(text)
}

// Puts what stands behind the item of the list.
fn put_tail(asked: &Asked, generators: &[u8], text: &mut Vec<u8>) -> Result<(), NoMemory>
    ensures { OnOk result ((back : List ℕ) × (text.new.items ≡ text.old.items ++ back)) }
{
    put(b"\n)", text)?;
    if !generators.is_empty() {
        put(b" | ", text)?;
        put(generators, text)?;
        put(b"\n", text)?;
    }
    put(b"|];", text)?;
    if asked.is_function {
        put(b" 0;", text)?;
    }
    Ok(())
}

fn tokens_from(asked: &Asked) -> Option<usize> {
    match asked.tokens.get(asked.first) {
        Some(token) => Some(token.from as usize),
        None => None,
    }
}

/// Whether a part has no type behind these generators.
///
/// # Errors
/// Want of memory.
pub fn is_untyped(
    alloc: Global,
    asked: &Asked,
    generators: &[u8],
    part: &[u8],
) -> Result<bool, NoMemory>
    requires { All (λ s. IsProper s.1) asked.now.types.now }
{
    let text = program_of(alloc, asked, generators, part)?;
    has_no_type(alloc, &text, asked.names, asked.types)
}

/// Whether a text is a program in scope without a typing.
///
/// # Errors
/// Want of memory.
pub fn has_no_type(
    alloc: Global,
    text: &[u8],
    names: &[Label],
    types: &[(Label, Ty)],
) -> Result<bool, NoMemory>
    requires { All (λ s. IsProper s.1) types.now }
    ensures { IfOk result (λ found. found ≡ true → HasNoType names.now (types_of types.now) text.now) }
{
    if text.len() > MOST {
        return Ok(false);
    }
    match read_scope(alloc, text, names) {
        Ok(read) => match infer(alloc, &read.scoped, types) {
            Ok(_) => Ok(false),
            Err(InferError::IllTyped { .. }) => Ok(true),
            Err(InferError::NoMemory) => Err(NoMemory),
        },
        Err(Refusal::Wrong { .. }) => Ok(false),
        Err(Refusal::NoMemory) => Err(NoMemory),
    }
}

/// The text of the type that a part has behind these generators, without the brackets of the list round it; empty where it has
/// none, or too long a one.
///
/// # Errors
/// Want of memory.
pub fn type_of(
    alloc: Global,
    asked: &Asked,
    generators: &[u8],
    part: &[u8],
) -> Result<Text, NoMemory>
    requires { All (λ s. IsProper s.1) asked.now.types.now }
{
    let text = program_of(alloc, asked, generators, part)?;
    if text.len() > MOST {
        return Ok(Text::of(Vec::new(alloc)));
    }
    match read_scope(alloc, &text, asked.names) {
        Ok(read) => match infer(alloc, &read.scoped, asked.types) {
            Ok(typed) => {
                let text = if asked.is_function {
                    last_text(alloc, typed.schemes.slice())?
                } else {
                    print_scheme(alloc, &typed.result)?
                };
                item_text(alloc, text)
            }
            Err(InferError::IllTyped { .. }) => Ok(Text::of(Vec::new(alloc))),
            Err(InferError::NoMemory) => Err(NoMemory),
        },
        Err(Refusal::Wrong { .. }) => Ok(Text::of(Vec::new(alloc))),
        Err(Refusal::NoMemory) => Err(NoMemory),
    }
}

// The text of the last scheme.
fn last_text(alloc: Global, schemes: &[Shared<Scheme>]) -> Result<Option<Text>, NoMemory>
    requires { All IsScheme schemes.now }
{
    if schemes.is_empty() {
        return Ok(None);
    }
    print_scheme(alloc, schemes[schemes.len() - 1].get())
}

// What stands in the list's brackets behind the last arrow.
fn item_text(alloc: Global, found: Option<Text>) -> Result<Text, NoMemory> {
    let Some(text) = found else {
        return Ok(Text::of(Vec::new(alloc)));
    };
    let bytes = text.slice();
    let mut from = 0;
    for at in 0..bytes.len() {
        if bytes[at..].starts_with(b" -> ") {
            from = at + 4;
        }
    }
    let list = &bytes[from.min(bytes.len())..];
    let item = match list {
        [b'[', b'|', item @ .., b'|', b']'] => item,
        _ => list,
    };
    Ok(Text::of(Vec::from_slice(alloc, item)?))
}
