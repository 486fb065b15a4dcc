//! Copies of words and patterns.
ghost use Rattle.std.specs.Prelude.{◌≡◌, IfOk};

use kl_base::{Box, NoMemory, Seq};
use kl_syntax::{PatFields, Pattern, Tail, Word, Words};
use kl_value::dup;
use std::alloc::Global;

/// The same word.
pub fn word_copy(word: &Word) -> Result<Word, NoMemory>
    ensures { IfOk result (λ copy. copy ≡ word.now) }
{
    Ok(Word {
        text: word.text.dup()?,
        token: word.token,
        means: word.means,
    })
}

/// The same words, in the same order.
pub fn word_copies(alloc: Global, words: &[Word]) -> Result<Words, NoMemory>
    ensures { IfOk result (λ copies. copies ≡ words.now) }
{
    let mut copies = Vec::with_capacity(alloc, words.len())?;
    'words: for word in words {
        copies.push(word_copy(word)?)?;
    }
    Ok(Seq::of(copies))
}

/// The same pattern.
#[cycle(copy)]
pub fn pattern_copy(alloc: Global, pattern: &Pattern) -> Result<Pattern, NoMemory>
    ensures { IfOk result (λ copy. copy ≡ pattern.now) }
{
    match pattern {
        Pattern::Bind(word) => Ok(Pattern::Bind(word_copy(word)?)),
        Pattern::Any => Ok(Pattern::Any),
        Pattern::Same(word) => Ok(Pattern::Same(word_copy(word)?)),
        Pattern::Is(value, token) => Ok(Pattern::Is(dup(alloc, value)?, *token)),
        Pattern::Rec(fields, tail) => {
            let fields = pattern_copies(alloc, fields.slice())?;
            Ok(Pattern::Rec(fields, tail_copy(tail)?))
        }
        Pattern::Inj(label, inner) => {
            let label = word_copy(label)?;
            let inner = pattern_copy(alloc, inner.get())?;
            Ok(Pattern::Inj(label, Box::new(alloc, inner)?))
        }
    }
}

#[cycle(copy)]
fn pattern_copies(alloc: Global, fields: &[(Word, Pattern)]) -> Result<PatFields, NoMemory>
    ensures { IfOk result (λ copies. copies ≡ fields.now) }
{
    let mut copies = Vec::with_capacity(alloc, fields.len())?;
    'fields: for field in fields {
        let label = word_copy(&field.0)?;
        copies.push((label, pattern_copy(alloc, &field.1)?))?;
    }
    Ok(Seq::of(copies))
}

fn tail_copy(tail: &Tail) -> Result<Tail, NoMemory>
    ensures { IfOk result (λ copy. copy ≡ tail.now) }
{
    match tail {
        Tail::Exact => Ok(Tail::Exact),
        Tail::Open => Ok(Tail::Open),
        Tail::Rest(word) => Ok(Tail::Rest(word_copy(word)?)),
    }
}
