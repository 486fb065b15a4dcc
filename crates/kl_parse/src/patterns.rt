//! Patterns, read off their tokens. `total`: how many tokens there are in all; `depth`: how much deeper they may nest.

ghost use Rattle.std.specs.Prelude.{◌≡◌, ◌∷◌, []};
ghost use Rattle.kl_phrase.specs.Readers.{tails};
ghost use Rattle.kl_phrase.specs.Gives.{Gives};
ghost use Rattle.kl_parse.specs.Grammar.{tail_of};
ghost use Rattle.kl_parse.specs.Descent.{simple, pat_before, pat_field, pat_turn, rest_name, shape, in_shape, in_variant, read_pat};

use crate::front::{boxed, closed, constant, eat, is_word, labelled, name, negative, number};
use kl_base::{Box, Seq};
use kl_lex::{Sym, Token};
use kl_phrase::Fault;
use kl_syntax::{PatFields, Pattern, Tail, Word};
use std::alloc::Global;

/// What stands behind the dots of a record pattern: `[ "\" NAME ]`
fn rest_name(total: u32, tokens: &[Token]) -> Result<(Tail, &[Token]), Fault<'_, Token>>
    ensures { Gives (λ x. x.0) (λ x. x.1.now) result (rest_name total tokens.now) }
{
    match eat(tokens, Sym::Bind) {
        Some(rest) => {
            let (word, rest) = name(total, rest)?;
            Ok((Tail::Rest(word), rest))
        }
        None => Ok((Tail::Open, tokens)),
    }
}

/// How a record pattern ends, where its fields end so.
fn tail_of(tail: Option<Tail>) -> Tail
    ensures { result ≡ tail_of tail }
{
    match tail {
        Some(tail) => tail,
        None => Tail::Exact,
    }
}

/// A pattern that has no other inside.
#[tactic(auto, unfolding(crate::specs::Descent::simple))]
fn simple(
    alloc: Global,
    total: u32,
    tokens: &[Token],
) -> Result<(Pattern, &[Token]), Fault<'_, Token>>
    ensures { Gives (λ x. x.0) (λ x. x.1.now) result (simple total tokens.now) }
{
    if let Some(rest) = eat(tokens, Sym::Bind) {
        let (word, rest) = name(total, rest)?;
        return Ok((Pattern::Bind(word), rest));
    }
    if let Some(rest) = eat(tokens, Sym::Any) {
        return Ok((Pattern::Any, rest));
    }
    if let Some(rest) = eat(tokens, Sym::Sub) {
        let (value, rest) = negative(rest)?;
        return Ok((Pattern::Is(value, number(total, tokens)), rest));
    }
    if let Some((value, rest)) = constant(alloc, tokens)? {
        return Ok((Pattern::Is(value, number(total, tokens)), rest));
    }
    let (word, rest) = name(total, tokens)?;
    Ok((Pattern::Same(word), rest))
}

/// `"<" LABEL "=" pat ">" | "[" shape "]" | simple`
#[cycle(pattern)]
pub fn pattern(
    alloc: Global,
    total: u32,
    depth: u32,
    tokens: &[Token],
) -> Result<(Pattern, &[Token]), Fault<'_, Token>>
    ensures { Gives (λ x. x.0) (λ x. x.1.now) result (read_pat total depth tokens.now) }
{
    if let Some(rest) = eat(tokens, Sym::Lt) {
        if depth == 0 {
            return Err(Fault::Deep(tokens));
        }
        let ((label, inner), rest) = variant_rest(alloc, total, depth - 1, rest)?;
        return Ok((Pattern::Inj(label, inner), rest));
    }
    if let Some(rest) = eat(tokens, Sym::OpenRec) {
        if depth == 0 {
            return Err(Fault::Deep(tokens));
        }
        return shape_rest(alloc, total, depth - 1, rest);
    }
    simple(alloc, total, tokens)
}

/// What stands behind the `<` of a variant.
#[cycle(pattern)]
pub fn variant_rest(
    alloc: Global,
    total: u32,
    depth: u32,
    tokens: &[Token],
) -> Result<((Word, Box<Pattern>), &[Token]), Fault<'_, Token>>
    ensures { Gives (λ x. x.0) (λ x. x.1.now) result (in_variant total (read_pat total depth) tokens.now) }
{
    let (label, rest) = labelled(total, tokens)?;
    let (found, rest) = pattern_before(alloc, total, depth, Sym::Gt, rest)?;
    Ok(((label, found), rest))
}

/// What stands behind the `[` of a record pattern.
#[cycle(pattern)]
fn shape_rest(
    alloc: Global,
    total: u32,
    depth: u32,
    tokens: &[Token],
) -> Result<(Pattern, &[Token]), Fault<'_, Token>>
    ensures { Gives (λ x. x.0) (λ x. x.1.now) result (in_shape total (read_pat total depth) tokens.now) }
{
    let (found, rest) = shape(alloc, total, depth, tokens)?;
    closed(found, rest, Sym::CloseRec)
}

/// `field { "," field } [ "," others ] | [ others ]`
#[cycle(pattern)]
fn shape(
    alloc: Global,
    total: u32,
    depth: u32,
    tokens: &[Token],
) -> Result<(Pattern, &[Token]), Fault<'_, Token>>
    ensures { Gives (λ x. x.0) (λ x. x.1.now) result (shape total (read_pat total depth) tokens.now) }
{
    if is_word(tokens) {
        let (first, rest) = pat_field(alloc, total, depth, tokens)?;
        let ((fields, tail), rest) = more_fields(alloc, total, depth, first, rest)?;
        return Ok((Pattern::Rec(fields, tail_of(tail)), rest));
    }
    let none = Seq::of(Vec::new(alloc));
    match eat(tokens, Sym::Dots) {
        Some(rest) => {
            let (tail, rest) = rest_name(total, rest)?;
            Ok((Pattern::Rec(none, tail), rest))
        }
        None => Ok((Pattern::Rec(none, Tail::Exact), tokens)),
    }
}

#[cycle(pattern)]
fn pat_field(
    alloc: Global,
    total: u32,
    depth: u32,
    tokens: &[Token],
) -> Result<((Word, Pattern), &[Token]), Fault<'_, Token>>
    ensures { Gives (λ x. x.0) (λ x. x.1.now) result (pat_field total (read_pat total depth) tokens.now) }
{
    let (word, rest) = labelled(total, tokens)?;
    let (found, rest) = pattern(alloc, total, depth, rest)?;
    Ok(((word, found), rest))
}

/// The first field, those that follow, and what stands at their end.
#[cycle(pattern)]
fn more_fields(
    alloc: Global,
    total: u32,
    depth: u32,
    first: (Word, Pattern),
    tokens: &[Token],
) -> Result<((PatFields, Option<Tail>), &[Token]), Fault<'_, Token>>
    ensures { Gives (λ x. x.0) (λ x. x.1.now) result (tails (pat_turn total (read_pat total depth)) (first ∷ []) tokens.now) }
{
    let mut found = Vec::new(alloc);
    found.push(first)?;
    let mut rest = tokens;
    'fields: while let Some(after) = eat(rest, Sym::Comma) {
        if let Some(after) = eat(after, Sym::Dots) {
            let (tail, after) = rest_name(total, after)?;
            return Ok(((Seq::of(found), Some(tail)), after));
        }
        let (next, after) = pat_field(alloc, total, depth, after)?;
        found.push(next)?;
        rest = after;
    }
    Ok(((Seq::of(found), None), rest))
}

/// A pattern and this symbol.
#[cycle(pattern)]
pub fn pattern_before(
    alloc: Global,
    total: u32,
    depth: u32,
    symbol: Sym,
    tokens: &[Token],
) -> Result<(Box<Pattern>, &[Token]), Fault<'_, Token>>
    ensures { Gives (λ x. x.0) (λ x. x.1.now) result (pat_before (read_pat total depth) symbol tokens.now) }
{
    let (found, rest) = pattern(alloc, total, depth, tokens)?;
    let (found, rest) = boxed(alloc, found, rest)?;
    closed(found, rest, symbol)
}
