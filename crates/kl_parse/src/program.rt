//! Programs, read off their tokens.

ghost use Rattle.std.specs.Prelude.{◌≡◌, ◌<◌, ◌^◌, ℕ, List, length, IfOk};
ghost use Rattle.kl_lex.specs.declared.token.Token.{Token as AToken};
ghost use Rattle.kl_syntax.specs.declared.tree.Program.{Program as AProgram};
ghost use Rattle.kl_lex.specs.declared.token.Sym.TheVariants as symbols;
ghost use Rattle.kl_phrase.specs.Gives.{Gives};
ghost use Rattle.kl_phrase.specs.Readers.{before};
ghost use Rattle.kl_phrase.specs.Fronts.{told};
ghost use Rattle.kl_parse.specs.Telling.{Says, SaysAgain, Through};
ghost use Rattle.kl_parse.specs.Grammar.{whole};
ghost use Rattle.kl_parse.specs.Descent.{mark, name, read_pat, reads, plain_body, body, decl_rest, decls, program};
ghost use Rattle.kl_parse.specs.declared.program.ParseError.TheVariants.{NoMemory as WantOfMemory};
ghost use Rattle.kl_base.specs.Results.{OrMemory};
ghost use Rattle.kl_parse.specs.Parsing.{IsProgram, IsToldOf, OnePlace, RefusesProgram};

use crate::exprs::expr;
use crate::front::{boxed, closed, eat, eat_word, name, number, or_bad, or_deep};
use crate::patterns::pattern_before;
use kl_base::{Box, Seq};
use kl_lex::{Keyword, Sym, Token};
use kl_phrase::Fault;
use kl_syntax::{Decl, Expr, Pattern, Program, Word};
use std::alloc::Global;
use thiserror::Error;

/// Why tokens are no program.
#[derive(Clone, Copy, Debug, PartialEq, Eq, Error)]
pub enum ParseError {
    /// So many tokens begin a program nested at most 256 deep, and more of them begin none.
    #[error("syntax at token {token}")]
    Syntax { token: u32 },
    /// So many tokens begin a program nested at most 256 deep; with the next one they begin a program, but none nested so
    /// little.
    #[error("nesting at token {token}")]
    TooDeep { token: u32 },
    /// Want of memory.
    #[error("out of memory")]
    NoMemory,
}

/// How deep a program may nest.
const MOST_NESTED: u32 = 256;

/// An expression before a `;`.
fn plain_body(
    alloc: Global,
    total: u32,
    depth: u32,
    tokens: &[Token],
) -> Result<(Box<Expr>, &[Token]), Fault<'_, Token>>
    ensures { Gives (λ x. x.0) (λ x. x.1.now) result (plain_body (reads total depth whole) tokens.now) }
{
    let (found, rest) = expr(alloc, total, depth, tokens)?;
    if eat(rest, Sym::Semi).is_none() {
        return Err(Fault::Bad(rest));
    }
    Ok((found, rest))
}

/// `pat "=>" expr | expr`
fn body(
    alloc: Global,
    total: u32,
    depth: u32,
    tokens: &[Token],
) -> Result<((Option<Pattern>, Expr), &[Token]), Fault<'_, Token>>
    ensures { Gives (λ x. x.0) (λ x. x.1.now) result (body (read_pat total depth) (reads total depth whole) tokens.now) }
{
    match pattern_before(alloc, total, depth, Sym::Arrow, tokens) {
        Ok((bound, rest)) => {
            let (found, rest) = expr(alloc, total, depth, rest)?;
            Ok(((Some(bound.into_inner()), found.into_inner()), rest))
        }
        Err(Fault::Memory) => Err(Fault::Memory),
        Err(Fault::Bad(place)) => {
            let (found, rest) = or_bad(place, plain_body(alloc, total, depth, tokens))?;
            Ok(((None, found.into_inner()), rest))
        }
        Err(Fault::Deep(place)) => {
            let (found, rest) = or_deep(place, plain_body(alloc, total, depth, tokens))?;
            Ok(((None, found.into_inner()), rest))
        }
    }
}

/// `body ";"`
fn closed_body(
    alloc: Global,
    total: u32,
    depth: u32,
    tokens: &[Token],
) -> Result<((Option<Pattern>, Expr), &[Token]), Fault<'_, Token>>
    ensures { Gives (λ x. x.0) (λ x. x.1.now) result
        (before (body (read_pat total depth) (reads total depth whole)) (mark symbols.Semi) tokens.now) }
{
    let (found, rest) = body(alloc, total, depth, tokens)?;
    closed(found, rest, Sym::Semi)
}

/// `NAME "=="`
fn named(total: u32, tokens: &[Token]) -> Result<(Word, &[Token]), Fault<'_, Token>>
    ensures { Gives (λ x. x.0) (λ x. x.1.now) result (before (name total) (mark symbols.Equals) tokens.now) }
{
    let (word, rest) = name(total, tokens)?;
    closed(word, rest, Sym::Equals)
}

/// What stands behind `define`: `NAME "==" body ";"`
fn decl_rest(
    alloc: Global,
    total: u32,
    depth: u32,
    tokens: &[Token],
) -> Result<(Decl, &[Token]), Fault<'_, Token>>
    ensures { Gives (λ x. x.0) (λ x. x.1.now) result (decl_rest total depth tokens.now) }
{
    let (name, rest) = named(total, tokens)?;
    let ((param, body), rest) = closed_body(alloc, total, depth, rest)?;
    Ok((Decl { name, param, body }, rest))
}

/// `{ "define" .. }`
fn decls(
    alloc: Global,
    total: u32,
    depth: u32,
    tokens: &[Token],
) -> Result<(Vec<Decl>, &[Token]), Fault<'_, Token>>
    ensures { Gives (λ x. x.0.items) (λ x. x.1.now) result (decls total depth tokens.now) }
{
    let mut found = Vec::new(alloc);
    let mut rest = tokens;
    'decls: while let Some(after) = eat_word(rest, Keyword::Define) {
        let (next, after) = decl_rest(alloc, total, depth, after)?;
        found.push(next)?;
        rest = after;
    }
    Ok((found, rest))
}

/// `expr ";"`
fn last_rest(
    alloc: Global,
    total: u32,
    depth: u32,
    tokens: &[Token],
) -> Result<(Box<Expr>, &[Token]), Fault<'_, Token>>
    ensures { Gives (λ x. x.0) (λ x. x.1.now) result (before (reads total depth whole) (mark symbols.Semi) tokens.now) }
{
    let (found, rest) = expr(alloc, total, depth, tokens)?;
    closed(found, rest, Sym::Semi)
}

/// `{ define } expr ";"`
#[tactic(auto, unfolding(crate::specs::Descent::read_program))]
fn program(
    alloc: Global,
    total: u32,
    depth: u32,
    tokens: &[Token],
) -> Result<(Box<Program>, &[Token]), Fault<'_, Token>>
    ensures { Gives (λ x. x.0) (λ x. x.1.now) result (program total depth tokens.now) }
{
    let (defs, rest) = decls(alloc, total, depth, tokens)?;
    let (last, rest) = last_rest(alloc, total, depth, rest)?;
    let defs = Seq::of(defs);
    let last = last.into_inner();
    boxed(alloc, Program { defs, last }, rest)
}

/// What is told of the tokens before and at a place of nesting, by what is left of them: a program goes on through all of
/// them, or none does.
fn through(token: u32, rest: &[Token]) -> ParseError
    ensures { Through token rest.now result }
{
    if rest.is_empty() {
        ParseError::TooDeep { token }
    } else {
        ParseError::Syntax { token }
    }
}

/// Whether a program, however deep, goes on through all of these tokens, which are one more than so many.
fn again(alloc: Global, token: u32, front: &[Token]) -> ParseError
    requires { length front.now < 2 ^ 32 }
    ensures { SaysAgain token front.now result }
{
    let total = front.len() as u32;
    match program(alloc, total, total, front) {
        Err(Fault::Memory) => ParseError::NoMemory,
        Ok((_found, rest)) => through(token, rest),
        Err(Fault::Bad(rest)) => through(token, rest),
        Err(Fault::Deep(rest)) => through(token, rest),
    }
}

/// The program that the tokens are, if it nests at most 256 deep. The tokens through a place of nesting are read once more.
fn answer(alloc: Global, tokens: &[Token]) -> Result<Program, ParseError>
    requires { length tokens.now < 2 ^ 32 }
    ensures { Says result (told program 256 tokens.now) }
{
    let total = tokens.len() as u32;
    match program(alloc, total, MOST_NESTED, tokens) {
        Ok((found, rest)) => {
            if rest.is_empty() {
                return Ok(found.into_inner());
            }
            Err(ParseError::Syntax {
                token: number(total, rest),
            })
        }
        Err(Fault::Memory) => Err(ParseError::NoMemory),
        Err(Fault::Bad(rest)) => Err(ParseError::Syntax {
            token: number(total, rest),
        }),
        Err(Fault::Deep(rest)) => {
            let token = number(total, rest);
            match tokens.get(..token as usize + 1) {
                Some(front) => Err(again(alloc, token, front)),
                None => Err(ParseError::Syntax { token: total }),
            }
        }
    }
}

/// The program that the tokens spell, nested at most 256 deep. Nesting counts, of brackets, `if`, `let`, `case`, `not` and
/// unary minus, those that are not finished.
///
/// # Errors
/// The place is the first token such that no program nested at most 256 deep goes on through it. `TooDeep` with this token,
/// where a program nested deeper does; else `Syntax`, also where the tokens end before the program does, with their number.
/// The tokens before the place begin a program nested at most 256 deep, where a branch that is not reached yet counts as
/// left out: 255 times `{` and then `case 1 of )` is `Syntax` at the `)`, byte 265. Want of memory.
pub fn parse(alloc: Global, tokens: &[Token]) -> Result<Program, ParseError>
    requires { length tokens.now < 2 ^ 32 }
    ensures program { IfOk result (IsProgram tokens.now) }
    ensures only { (p : AProgram) → IsProgram tokens.now p → OrMemory WantOfMemory result p }
    ensures refused { RefusesProgram tokens.now result }
{
    answer(alloc, tokens)
}

/// Laws of programs, for the layers above to cite.
pub fn parse_laws()
    ensures unique { (ts : List AToken) (p q : AProgram) → IsProgram ts p → IsProgram ts q → p ≡ q }
    ensures told { (ts : List AToken) → IsToldOf ts }
    ensures one_place { (ts : List AToken) → OnePlace ts }
{}
