//! Bytes to tokens.

ghost use Rattle.std.specs.Prelude.{◌≡◌, ◌≢◌, ◌≤◌, ◌<◌, ◌^◌, [], List, length, IsTrue, slice_index, IfOk, MatchOption};
ghost use Rattle.std.specs.Char.{is_ascii_alphabetic};
ghost use Rattle.std.specs.List.{prefix_len};
ghost use Rattle.kl_base.specs.Word.{is_word_byte};
ghost use Rattle.kl_lex.specs.Blank.{Gap, IsDue, is_white};
ghost use Rattle.kl_base.specs.Results.{OrMemory};
ghost use Rattle.kl_lex.specs.Lexing.{Starts, NoneStarts, Tokens as AreTokens, RefusedAt, PlacesRise};
ghost use Rattle.kl_lex.specs.Placing.{Comes, AreLexed, OnlyTokens, PlacedTokens, token_of};
ghost use Rattle.kl_lex.specs.Reading.{LineBefore};
ghost use Rattle.kl_lex.specs.declared.lexer.LexError.TheVariants.{NoMemory as WantOfMemory};
ghost use Rattle.kl_lex.specs.declared.token.Token.{Token as AToken};
ghost use Rattle.kl_lex.specs.declared.token.Placed.{Placed as APlaced};

use crate::number::number_at;
use crate::quoted::text_at;
use crate::symbol::symbol_at;
use crate::token::{Placed, Tok, Token, Tokens};
use kl_base::{Label, NoMemory, Seq};
use std::alloc::{AllocFailed, Global};
use thiserror::Error;

/// Why bytes are no tokens.
#[derive(Debug, Drop, PartialEq, Eq, Error)]
pub enum LexError {
    /// At this byte a token is due, and none starts there.
    #[error("no token starts at byte {byte}")]
    Bad { byte: u32 },
    /// Want of memory.
    #[error("out of memory")]
    NoMemory,
}

impl From<NoMemory> for LexError {
    ghost from_gives = { λ _ e. e ≡ WantOfMemory };

    fn from(_error: NoMemory) -> LexError {
        LexError::NoMemory
    }
}

impl<T: Drop> From<AllocFailed<T>> for LexError {
    ghost from_gives = { λ _ e. e ≡ WantOfMemory };

    fn from(_error: AllocFailed<T>) -> LexError {
        LexError::NoMemory
    }
}

/// The tokens of at most 65,536 bytes: each is the longest that starts at its byte, and between them stand white space
/// and comments alone. White space is tab, line feed, carriage return and space. A comment runs from `#` to the next
/// line feed or the end of the bytes.
///
/// # Errors
/// `Bad` with the first byte where a token is due and none starts: a digit that begins a number above
/// 9223372036854775808, a quote that begins no whole text, or a byte that begins nothing. Want of memory.
pub fn lex(alloc: Global, bytes: &[u8]) -> Result<Tokens, LexError>
    requires { length bytes.now ≤ 65536 }
    ensures tokens { IfOk result (AreTokens bytes.now) }
    ensures only { (ts : List AToken) → AreTokens bytes.now ts → OrMemory WantOfMemory result ts }
    ensures bad { RefusedAt bytes.now result }
    ensures places { IfOk result (PlacesRise 0 (length bytes.now)) }
{
    let mut tokens = Vec::new(alloc);
    let mut lexer = Lexer::new(bytes);
    'tokens: loop {
        match lexer.next(alloc)? {
            Next::End => return Ok(Seq::of(tokens)),
            Next::Bad { byte } => return Err(LexError::Bad { byte: byte as u32 }),
            Next::Token(token, after) => {
                tokens.push(narrow(token))?;
                lexer = after;
            }
        }
    }
}

/// A token whose places take no more than 32 bits, with such places.
fn narrow(token: Placed) -> Token
    requires from { token.from < 2 ^ 32 }
    requires to { token.to < 2 ^ 32 }
    ensures { result ≡ token_of token }
{
    let Placed { what, from, to } = token;
    Token {
        what,
        from: from as u32,
        to: to as u32,
    }
}

/// The tokens of bytes of any length, or where there are none.
#[derive(Drop)]
pub enum Lexed {
    /// The tokens, in their order.
    Tokens(Seq<Placed>),
    /// At this byte a token is due, and none starts there.
    Bad { byte: u64 },
}

/// The tokens of bytes of any length, by the same rules as those of `lex`.
///
/// # Errors
/// Want of memory. What `lex` refuses is an answer here: the first byte where a token is due and none starts.
pub fn lex_all(alloc: Global, bytes: &[u8]) -> Result<Lexed, NoMemory>
    ensures tokens { IfOk result (AreLexed bytes.now) }
    ensures only { (ts : List APlaced) → PlacedTokens bytes.now ts → IfOk result (λ found. OnlyTokens found ts) }
{
    let mut tokens = Vec::new(alloc);
    let mut lexer = Lexer::new(bytes);
    'tokens: loop {
        match lexer.next(alloc)? {
            Next::End => return Ok(Lexed::Tokens(Seq::of(tokens))),
            Next::Bad { byte } => return Ok(Lexed::Bad { byte }),
            Next::Token(token, after) => {
                tokens.push(token)?;
                lexer = after;
            }
        }
    }
}

/// What is left of some bytes, to be read token by token.
#[derive(Clone, Copy)]
pub struct Lexer<'a> {
    total: usize,
    rest: &'a [u8],
}

/// What comes next.
#[derive(Drop)]
pub enum Next<'a> {
    /// A token, and what is left behind it.
    Token(Placed, Lexer<'a>),
    /// No more tokens.
    End,
    /// At this byte a token is due, and none starts there.
    Bad { byte: u64 },
}

impl<'a> Lexer<'a> {
    /// Before the first token of the bytes, which are of any length.
    pub fn new(bytes: &'a [u8]) -> Lexer<'a>
        ensures total { result.total ≡ length bytes.now }
        ensures rest { result.rest.now ≡ bytes.now }
    {
        Lexer {
            total: bytes.len(),
            rest: bytes,
        }
    }

    /// What comes behind white space and comments: a token, the longest that starts there, the end, or the byte at
    /// which none starts. Reads no further than this.
    ///
    /// # Errors
    /// Want of memory.
    pub fn next(self, alloc: Global) -> Result<Next<'a>, NoMemory>
        requires { length self.rest.now ≤ self.total }
        ensures { IfOk result (Comes self.entry.total self.entry.rest.now) }
    {
        let rest = skip_blank(self.rest);
        if rest.is_empty() {
            return Ok(Next::End);
        }
        let from = (self.total - rest.len()) as u64;
        match token_at(alloc, rest)? {
            None => Ok(Next::Bad { byte: from }),
            Some((what, after)) => {
                let to = (self.total - after.len()) as u64;
                let lexer = Lexer {
                    total: self.total,
                    rest: after,
                };
                Ok(Next::Token(Placed { what, from, to }, lexer))
            }
        }
    }
}

/// The token at the front, and the bytes behind it.
fn token_at(alloc: Global, bytes: &[u8]) -> Result<Option<(Tok, &[u8])>, NoMemory>
    ensures { IfOk result (λ found. MatchOption found (NoneStarts bytes.now) (λ t. Starts bytes.now t.0 t.1.now)) }
{
    match bytes {
        [] => Ok(None),
        [first, rest @ ..] => {
            if first.is_ascii_alphabetic() {
                word_at(alloc, bytes)
            } else if first.is_ascii_digit() {
                Ok(number_at(bytes))
            } else if *first == b'"' {
                match text_at(alloc, rest)? {
                    None => Ok(None),
                    Some((text, rest)) => Ok(Some((Tok::Text(text), rest))),
                }
            } else {
                match symbol_at(bytes) {
                    None => Ok(None),
                    Some((sym, rest)) => Ok(Some((Tok::Sym(sym), rest))),
                }
            }
        }
    }
}

/// The word at the front, and the bytes behind it.
fn word_at(alloc: Global, bytes: &[u8]) -> Result<Option<(Tok, &[u8])>, NoMemory>
    requires { IsTrue (is_ascii_alphabetic (slice_index bytes.now 0)) }
    ensures { IfOk result (λ found. MatchOption found (NoneStarts bytes.now) (λ t. Starts bytes.now t.0 t.1.now)) }
{
    let (word, rest) = bytes.split_at(word_run(bytes));
    match Label::new(alloc, word)? {
        None => Ok(None),
        Some(label) => Ok(Some((Tok::Word(label), rest))),
    }
}

/// How many letters, digits and `_` are at the front.
fn word_run(bytes: &[u8]) -> usize
    ensures value { result ≡ prefix_len is_word_byte bytes.now }
    ensures within { result ≤ length bytes.now }
{
    bytes
        .iter()
        .take_while(|byte| byte.is_ascii_alphanumeric() || **byte == b'_')
        .count()
}

/// The bytes behind white space and comments.
fn skip_blank(bytes: &[u8]) -> &[u8]
    ensures gap { Gap bytes.now result.now }
    ensures due { result.now ≢ [] → IsDue result.now }
{
    let mut rest = bytes;
    'gap: while let [first, after @ ..] = rest {
        if is_white(*first) {
            rest = after;
        } else if *first == b'#' {
            rest = skip_line(after);
        } else {
            return rest;
        }
    }
    rest
}

fn is_white(byte: u8) -> bool
    ensures { result ≡ is_white byte }
{
    matches!(byte, b'\t' | b'\n' | b'\r' | b' ')
}

/// The bytes from the end of the line on.
fn skip_line(bytes: &[u8]) -> &[u8]
    ensures { LineBefore bytes.now result.now }
{
    let mut rest = bytes;
    'line: while let [first, after @ ..] = rest {
        if *first == b'\n' {
            return rest;
        }
        rest = after;
    }
    rest
}
