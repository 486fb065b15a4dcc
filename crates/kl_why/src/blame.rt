//! The smallest part of a declaration that has no type where it stands, and why.
//!
//! A part is asked for behind the generators that bind its variables: those of the comprehensions round it, and for each `let`
//! and each branch of a `case` round it one that draws from a list of one item. Nothing is promised of the way to it; what is
//! answered is asked once more.
ghost use Rattle.std.specs.Prelude.{All};
ghost use Rattle.kl_type.specs.Ground.{IsProper};

use crate::asking::{Asked, bytes_of, is_untyped, type_of};
use crate::place::put;
use crate::reasons::{
    branches, call, condition, drawn, field, items, lacking, matched, operand, sides,
};
use crate::spans::{
    Span, behind, closer_of, find_keyword, find_symbol, is_word, keyword_at, last_operator,
    stripped, symbol_at, up_to_comma,
};
use kl_base::{NoMemory, Text};
use kl_lex::{Keyword, Sym};
use std::alloc::Global;

/// A part without a type behind some generators. The reason says why it is the smallest; it is wanting as long as a part of it has
/// no type either.
#[derive(Drop)]
pub struct Part {
    pub span: Span,
    pub generators: Vec<u8>,
    pub role: Role,
    pub reason: Option<Text>,
}

/// How a part is asked for.
#[derive(Drop)]
pub enum Role {
    /// As the item of a list.
    Item,
    /// As a qualifier, with this behind it.
    Qualifier(Vec<u8>),
}

/// The smallest part of a declaration that has no type where it stands, from the left.
///
/// # Errors
/// Want of memory.
pub fn smallest(alloc: Global, asked: &Asked) -> Result<Part, NoMemory>
    requires { All (λ s. IsProper s.1) asked.now.types.now }
{
    let mut part = inside(asked.body, Vec::new(alloc));
    for _ in 0..asked.tokens.len() {
        if part.reason.is_some() {
            return Ok(part);
        }
        part = look(alloc, asked, part)?;
    }
    Ok(part)
}

fn inside(span: Span, generators: Vec<u8>) -> Part {
    Part {
        span,
        generators,
        role: Role::Item,
        reason: None,
    }
}

fn here(span: Span, generators: Vec<u8>, reason: Text) -> Part {
    Part {
        span,
        generators,
        role: Role::Item,
        reason: Some(reason),
    }
}

fn qualifier(span: Span, generators: Vec<u8>, behind: Vec<u8>, reason: Text) -> Part {
    Part {
        span,
        generators,
        role: Role::Qualifier(behind),
        reason: Some(reason),
    }
}

fn between(from: usize, to: usize) -> Span {
    Span { from, to }
}

// Whether a part has no type.
fn is_bad(alloc: Global, asked: &Asked, generators: &[u8], part: Span) -> Result<bool, NoMemory>
    requires { All (λ s. IsProper s.1) asked.now.types.now }
{
    is_untyped(
        alloc,
        asked,
        generators,
        bytes_of(asked.text, asked.tokens, part),
    )
}

// Whether generators have no types, whatever stands behind them.
fn are_bad(alloc: Global, asked: &Asked, generators: &[u8]) -> Result<bool, NoMemory>
    requires { All (λ s. IsProper s.1) asked.now.types.now }
{
    is_untyped(alloc, asked, generators, b"0")
}

fn type_at(alloc: Global, asked: &Asked, generators: &[u8], part: Span) -> Result<Text, NoMemory>
    requires { All (λ s. IsProper s.1) asked.now.types.now }
{
    type_of(
        alloc,
        asked,
        generators,
        bytes_of(asked.text, asked.tokens, part),
    )
}

// Generators with one more qualifier behind them.
fn with(alloc: Global, generators: &[u8], last: &[u8]) -> Result<Vec<u8>, NoMemory> {
    let mut more = Vec::from_slice(alloc, generators)?;
    if !generators.is_empty() {
        put(b", ", &mut more)?;
    }
    put(last, &mut more)?;
    Ok(more)
}

// Generators with one more behind them, by which a pattern takes one value.
fn with_match(
    alloc: Global,
    asked: &Asked,
    generators: &[u8],
    pattern: Span,
    value: Span,
) -> Result<Vec<u8>, NoMemory> {
    let mut draw = Vec::from_slice(alloc, bytes_of(asked.text, asked.tokens, pattern))?;
    put(&from_one(alloc, asked, value)?, &mut draw)?;
    with(alloc, generators, &draw)
}

// What stands behind a pattern that draws from a list of one value.
fn from_one(alloc: Global, asked: &Asked, value: Span) -> Result<Vec<u8>, NoMemory> {
    let mut draw = Vec::new(alloc);
    put(b" <- [|(", &mut draw)?;
    put(bytes_of(asked.text, asked.tokens, value), &mut draw)?;
    put(b"\n)|]", &mut draw)?;
    Ok(draw)
}

// What a look at a part without a type finds.
fn look(alloc: Global, asked: &Asked, part: Part) -> Result<Part, NoMemory>
    requires { All (λ s. IsProper s.1) asked.now.types.now }
{
    let whole = stripped(asked.tokens, asked.closers, part.span);
    let generators = part.generators;
    let ends = closer_of(asked.closers, whole.from).saturating_add(1) == whole.to;
    match keyword_at(asked.tokens, whole.from) {
        Some(Keyword::Let) => look_let(alloc, asked, whole, generators),
        Some(Keyword::If) => look_if(alloc, asked, whole, generators),
        Some(Keyword::Case) if ends => look_case(alloc, asked, whole, generators),
        _ => match last_operator(asked.tokens, asked.closers, whole) {
            Some(at) => look_sides(alloc, asked, whole, at, generators),
            None => look_operand(alloc, asked, whole, generators),
        },
    }
}

// `let p == a in b`
fn look_let(
    alloc: Global,
    asked: &Asked,
    whole: Span,
    generators: Vec<u8>,
) -> Result<Part, NoMemory>
    requires { All (λ s. IsProper s.1) asked.now.types.now }
{
    let end = closer_of(asked.closers, whole.from);
    let binding = between(whole.from.saturating_add(1), end);
    let equals = find_symbol(asked.tokens, asked.closers, binding, Sym::Equals).unwrap_or(end);
    let value = between(equals.saturating_add(1), end);
    if is_bad(alloc, asked, &generators, value)? {
        return Ok(inside(value, generators));
    }
    let pattern = between(binding.from, equals);
    let more = with_match(alloc, asked, &generators, pattern, value)?;
    if are_bad(alloc, asked, &more)? {
        let reason = matched(alloc, &type_at(alloc, asked, &generators, value)?)?;
        let behind = from_one(alloc, asked, value)?;
        return Ok(qualifier(pattern, generators, behind, reason));
    }
    Ok(inside(between(end.saturating_add(1), whole.to), more))
}

// `if c then a else b`
fn look_if(alloc: Global, asked: &Asked, whole: Span, generators: Vec<u8>) -> Result<Part, NoMemory>
    requires { All (λ s. IsProper s.1) asked.now.types.now }
{
    let then = closer_of(asked.closers, whole.from);
    let other = closer_of(asked.closers, then);
    let test = between(whole.from.saturating_add(1), then);
    if is_bad(alloc, asked, &generators, test)? {
        return Ok(inside(test, generators));
    }
    let more = with(alloc, &generators, bytes_of(asked.text, asked.tokens, test))?;
    if are_bad(alloc, asked, &more)? {
        let reason = condition(alloc, &type_at(alloc, asked, &generators, test)?)?;
        return Ok(qualifier(test, generators, Vec::new(alloc), reason));
    }
    look_pair(
        alloc,
        asked,
        whole,
        between(then.saturating_add(1), other),
        between(other.saturating_add(1), whole.to),
        generators,
    )
}

// The two branches of an `if`.
fn look_pair(
    alloc: Global,
    asked: &Asked,
    whole: Span,
    first: Span,
    second: Span,
    generators: Vec<u8>,
) -> Result<Part, NoMemory>
    requires { All (λ s. IsProper s.1) asked.now.types.now }
{
    if is_bad(alloc, asked, &generators, first)? {
        return Ok(inside(first, generators));
    }
    if is_bad(alloc, asked, &generators, second)? {
        return Ok(inside(second, generators));
    }
    let left = type_at(alloc, asked, &generators, first)?;
    let right = type_at(alloc, asked, &generators, second)?;
    let reason = branches(alloc, &left, &right)?;
    Ok(here(whole, generators, reason))
}

// Two operands and the operator between them.
fn look_sides(
    alloc: Global,
    asked: &Asked,
    whole: Span,
    at: usize,
    generators: Vec<u8>,
) -> Result<Part, NoMemory>
    requires { All (λ s. IsProper s.1) asked.now.types.now }
{
    let first = between(whole.from, at);
    let second = between(at.saturating_add(1), whole.to);
    if is_bad(alloc, asked, &generators, first)? {
        return Ok(inside(first, generators));
    }
    if is_bad(alloc, asked, &generators, second)? {
        return Ok(inside(second, generators));
    }
    let left = type_at(alloc, asked, &generators, first)?;
    let right = type_at(alloc, asked, &generators, second)?;
    let operator = bytes_of(asked.text, asked.tokens, between(at, at.saturating_add(1)));
    let reason = sides(alloc, operator, &left, &right)?;
    Ok(here(whole, generators, reason))
}

// `case e of b, .. otherwise c end`
fn look_case(
    alloc: Global,
    asked: &Asked,
    whole: Span,
    generators: Vec<u8>,
) -> Result<Part, NoMemory>
    requires { All (λ s. IsProper s.1) asked.now.types.now }
{
    let end = whole.to.saturating_sub(1);
    let inner = between(whole.from.saturating_add(1), end);
    let of = find_keyword(asked.tokens, asked.closers, inner, Keyword::Of).unwrap_or(end);
    let value = between(inner.from, of);
    if is_bad(alloc, asked, &generators, value)? {
        return Ok(inside(value, generators));
    }
    let rest = between(of.saturating_add(1), end);
    let last = find_keyword(asked.tokens, asked.closers, rest, Keyword::Otherwise);
    let among = between(rest.from, last.unwrap_or(end));
    match look_branches(alloc, asked, value, among, &generators)? {
        Some(found) => Ok(found),
        None => {
            let other = between(last.unwrap_or(end).saturating_add(1), end);
            if last.is_some() && is_bad(alloc, asked, &generators, other)? {
                return Ok(inside(other, generators));
            }
            let ty = type_at(alloc, asked, &generators, value)?;
            let reason = lacking(
                alloc,
                bytes_of(asked.text, asked.tokens, among),
                &ty,
                last.is_some(),
            )?;
            Ok(here(whole, generators, reason))
        }
    }
}

// The first branch of a `case` without a type.
fn look_branches(
    alloc: Global,
    asked: &Asked,
    value: Span,
    among: Span,
    generators: &[u8],
) -> Result<Option<Part>, NoMemory>
    requires { All (λ s. IsProper s.1) asked.now.types.now }
{
    let mut rest = among;
    for _ in among.from..among.to {
        if rest.from >= rest.to {
            return Ok(None);
        }
        let (branch, next) = up_to_comma(asked.tokens, asked.closers, rest);
        let arrow = behind(asked.closers, branch.from);
        let pattern = between(branch.from, arrow);
        let more = with_match(alloc, asked, generators, pattern, value)?;
        if are_bad(alloc, asked, &more)? {
            let reason = matched(alloc, &type_at(alloc, asked, generators, value)?)?;
            let generators = Vec::from_slice(alloc, generators)?;
            let behind = from_one(alloc, asked, value)?;
            return Ok(Some(qualifier(pattern, generators, behind, reason)));
        }
        let body = between(arrow.saturating_add(1), branch.to);
        if is_bad(alloc, asked, &more, body)? {
            return Ok(Some(inside(body, more)));
        }
        rest = between(next, among.to);
    }
    Ok(None)
}

// An operand, with what stands before or behind it.
fn look_operand(
    alloc: Global,
    asked: &Asked,
    whole: Span,
    generators: Vec<u8>,
) -> Result<Part, NoMemory>
    requires { All (λ s. IsProper s.1) asked.now.types.now }
{
    let is_not = keyword_at(asked.tokens, whole.from) == Some(Keyword::Not);
    if is_not || symbol_at(asked.tokens, whole.from) == Some(Sym::Sub) {
        let inner = between(whole.from.saturating_add(1), whole.to);
        if is_bad(alloc, asked, &generators, inner)? {
            return Ok(inside(inner, generators));
        }
        let ty = type_at(alloc, asked, &generators, inner)?;
        let reason = operand(alloc, is_not, &ty)?;
        return Ok(here(whole, generators, reason));
    }
    let dot = whole.to.saturating_sub(2);
    if dot > whole.from && symbol_at(asked.tokens, dot) == Some(Sym::Dot) {
        let inner = between(whole.from, dot);
        if is_bad(alloc, asked, &generators, inner)? {
            return Ok(inside(inner, generators));
        }
        let label = bytes_of(
            asked.text,
            asked.tokens,
            between(dot.saturating_add(1), whole.to),
        );
        let reason = field(alloc, label, &type_at(alloc, asked, &generators, inner)?)?;
        return Ok(here(whole, generators, reason));
    }
    look_bracket(alloc, asked, whole, generators)
}

// What stands in brackets: arguments, fields, items, or a comprehension.
fn look_bracket(
    alloc: Global,
    asked: &Asked,
    whole: Span,
    generators: Vec<u8>,
) -> Result<Part, NoMemory>
    requires { All (λ s. IsProper s.1) asked.now.types.now }
{
    let end = whole.to.saturating_sub(1);
    let inner = between(whole.from.saturating_add(1), end);
    match symbol_at(asked.tokens, whole.from) {
        Some(Sym::OpenSet | Sym::OpenBag | Sym::OpenList) => {
            match find_symbol(asked.tokens, asked.closers, inner, Sym::Bar) {
                Some(bar) => look_loop(alloc, asked, whole, bar, generators),
                None => look_items(alloc, asked, whole, inner, 0, generators),
            }
        }
        Some(Sym::OpenRec) => look_items(alloc, asked, whole, inner, 2, generators),
        Some(Sym::Lt) => look_items(alloc, asked, whole, inner, 2, generators),
        _ => {
            let arguments = between(inner.from.saturating_add(1), end);
            look_items(alloc, asked, whole, arguments, 0, generators)
        }
    }
}

// Parts with commas between them, each behind so many tokens, or behind `...`.
fn look_items(
    alloc: Global,
    asked: &Asked,
    whole: Span,
    inner: Span,
    before: usize,
    generators: Vec<u8>,
) -> Result<Part, NoMemory>
    requires { All (λ s. IsProper s.1) asked.now.types.now }
{
    let mut types = Vec::new(alloc);
    let mut rest = inner;
    for _ in inner.from..inner.to {
        if rest.from >= rest.to {
            break;
        }
        let (part, next) = up_to_comma(asked.tokens, asked.closers, rest);
        let skipped = if symbol_at(asked.tokens, part.from) == Some(Sym::Dots) {
            1
        } else {
            before
        };
        let part = between(part.from.saturating_add(skipped), part.to);
        if is_bad(alloc, asked, &generators, part)? {
            return Ok(inside(part, generators));
        }
        types.push(type_at(alloc, asked, &generators, part)?)?;
        rest = between(next, inner.to);
    }
    let reason = if is_word(asked.tokens, whole.from) {
        let name = bytes_of(
            asked.text,
            asked.tokens,
            between(whole.from, whole.from.saturating_add(1)),
        );
        call(alloc, name, &types)?
    } else {
        items(alloc, &types)?
    };
    Ok(here(whole, generators, reason))
}

// A comprehension, whose bar is the token of this number.
fn look_loop(
    alloc: Global,
    asked: &Asked,
    whole: Span,
    bar: usize,
    generators: Vec<u8>,
) -> Result<Part, NoMemory>
    requires { All (λ s. IsProper s.1) asked.now.types.now }
{
    let end = whole.to.saturating_sub(1);
    let mut rest = between(bar.saturating_add(1), end);
    let mut generators = generators;
    for _ in bar..end {
        if rest.from >= rest.to {
            break;
        }
        let (part, next) = up_to_comma(asked.tokens, asked.closers, rest);
        let Qualified { is_well, part } = look_qualifier(alloc, asked, part, generators)?;
        if !is_well {
            return Ok(part);
        }
        let Part {
            generators: more,
            ..
        } = part;
        generators = more;
        rest = between(next, end);
    }
    Ok(inside(between(whole.from.saturating_add(1), bar), generators))
}

// What comes of a look at a qualifier: where it has types, the generators of the part are those before it and itself.
#[derive(Drop)]
struct Qualified {
    is_well: bool,
    part: Part,
}

fn unwell(part: Part) -> Qualified {
    Qualified {
        is_well: false,
        part,
    }
}

fn look_qualifier(
    alloc: Global,
    asked: &Asked,
    part: Span,
    generators: Vec<u8>,
) -> Result<Qualified, NoMemory>
    requires { All (λ s. IsProper s.1) asked.now.types.now }
{
    let draw = find_symbol(asked.tokens, asked.closers, part, Sym::Draw);
    let asked_part = match draw {
        Some(at) => between(at.saturating_add(1), part.to),
        None => part,
    };
    if is_bad(alloc, asked, &generators, asked_part)? {
        return Ok(unwell(inside(asked_part, generators)));
    }
    let more = with(alloc, &generators, bytes_of(asked.text, asked.tokens, part))?;
    if !are_bad(alloc, asked, &more)? {
        return Ok(Qualified {
            is_well: true,
            part: inside(part, more),
        });
    }
    let ty = type_at(alloc, asked, &generators, asked_part)?;
    let reason = match draw {
        Some(_) => drawn(alloc, &ty)?,
        None => condition(alloc, &ty)?,
    };
    Ok(unwell(qualifier(part, generators, Vec::new(alloc), reason)))
}
