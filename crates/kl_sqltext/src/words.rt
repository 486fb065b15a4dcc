//! Taking the words of SQL text off the front of bytes.
ghost use Rattle.std.specs.Prelude.{◌≡◌, ◌++◌, ◌≤◌, ◌<◌, [], length, IsTrue, IfOk};
ghost use Rattle.std.specs.List.{prefix_len};
ghost use Rattle.kl_base.specs.Word.{is_word, is_word_byte};
ghost use Rattle.kl_phrase.specs.Readers.{ok};
ghost use Rattle.kl_sqltext.specs.Words.{is_blank};
ghost use Rattle.kl_sqltext.specs.Descent.{mark, code, gap, gaps, space, word, named, part, text, an_op};
ghost use Rattle.kl_phrase.specs.Gives.{Gives};
ghost use Rattle.kl_sqltext.specs.Turns.{text_turn};

use crate::ast::SqlOp;
use kl_base::{Label, Text};
use kl_phrase::Fault;
use std::alloc::Global;

/// This byte.
pub fn mark(bytes: &[u8], byte: u8) -> Result<&[u8], Fault<'_, u8>>
    ensures { Gives (λ x. tt) (λ x. x.now) result (mark byte bytes.now) }
{
    match bytes {
        [first, rest @ ..] if *first == byte => Ok(rest),
        _ => Err(Fault::Bad(bytes)),
    }
}

/// Exactly these bytes.
pub fn code<'a>(bytes: &'a [u8], letters: &[u8]) -> Result<&'a [u8], Fault<'a, u8>>
    ensures { Gives (λ x. tt) (λ x. x.now) result (code letters.now bytes.now) }
{
    let mut rest = bytes;
    'letters: for letter in letters {
        rest = mark(rest, *letter)?;
    }
    Ok(rest)
}

/// White space: tab, line feed, carriage return and space.
pub fn is_blank(byte: u8) -> bool
    ensures { result ≡ is_blank byte }
{
    matches!(byte, b'\t' | b'\n' | b'\r' | b' ')
}

/// What stands behind any white space.
pub fn gap(bytes: &[u8]) -> &[u8]
    ensures { gap bytes.now ≡ ok tt result.now }
{
    let mut rest = bytes;
    'blanks: while let [first, behind @ ..] = rest {
        if !is_blank(*first) {
            return rest;
        }
        rest = behind;
    }
    rest
}

/// What stands behind white space, of which there has to be some.
pub fn space(bytes: &[u8]) -> Result<&[u8], Fault<'_, u8>>
    ensures { Gives (λ x. tt) (λ x. x.now) result (space bytes.now) }
{
    match bytes {
        [first, rest @ ..] if is_blank(*first) => Ok(gap(rest)),
        _ => Err(Fault::Bad(bytes)),
    }
}

/// Whether there is white space, and what stands behind it.
pub fn gaps(bytes: &[u8]) -> (bool, &[u8])
    ensures { gaps bytes.now ≡ ok result.0 result.1.now }
{
    match bytes {
        [first, rest @ ..] if is_blank(*first) => (true, gap(rest)),
        _ => (false, bytes),
    }
}

/// How many bytes at the front can stand in a word behind its letter.
fn word_run(bytes: &[u8]) -> usize
    ensures value { result ≡ prefix_len is_word_byte bytes.now }
    ensures within { result ≤ length bytes.now }
{
    bytes.iter().take_while(|byte| is_word_byte(**byte)).count()
}

/// A word, and what stands behind it.
fn word(bytes: &[u8]) -> Result<(&[u8], &[u8]), Fault<'_, u8>>
    ensures gives { Gives (λ x. x.0.now) (λ x. x.1.now) result (word bytes.now) }
    ensures word { IfOk result (λ x. IsTrue (is_word x.0.now)) }
{
    match bytes {
        [first, rest @ ..] if first.is_ascii_alphabetic() => {
            let count = word_run(rest);
            Ok(bytes.split_at(count + 1))
        }
        _ => Err(Fault::Bad(bytes)),
    }
}

fn is_word_byte(byte: u8) -> bool
    ensures { result ≡ is_word_byte byte }
{
    byte.is_ascii_alphanumeric() || byte == b'_'
}

/// A word between double quotes.
pub fn named(alloc: Global, bytes: &[u8]) -> Result<(Label, &[u8]), Fault<'_, u8>>
    ensures { Gives (λ x. x.0) (λ x. x.1.now) result (named bytes.now) }
{
    let rest = mark(bytes, b'"')?;
    let (word, rest) = word(rest)?;
    let rest = mark(rest, b'"')?;
    match Label::new(alloc, word)? {
        Some(label) => Ok((label, rest)),
        None => unreachable!(),
    }
}

/// One byte of a text in single quotes, or none at its last quote.
fn part(bytes: &[u8]) -> Result<(Option<u8>, &[u8]), Fault<'_, u8>>
    ensures gives { Gives (λ x. text_turn x.0) (λ x. x.1.now) result (part bytes.now) }
    ensures less { IfOk result (λ x. length x.1.now < length bytes.now) }
{
    match bytes {
        [b'\'', b'\'', rest @ ..] => Ok((Some(b'\''), rest)),
        [b'\'', rest @ ..] => Ok((None, rest)),
        [byte, rest @ ..] => Ok((Some(*byte), rest)),
        [] => Err(Fault::Bad(bytes)),
    }
}

/// A text between single quotes, where two of them stand for one.
pub fn text(alloc: Global, bytes: &[u8]) -> Result<(Text, &[u8]), Fault<'_, u8>>
    ensures { Gives (λ x. x.0) (λ x. x.1.now) result (text bytes.now) }
{
    let inside = mark(bytes, b'\'')?;
    let mut found = Vec::new(alloc);
    let mut rest = inside;
    'parts: loop {
        let (next, more) = part(rest)?;
        match next {
            Some(byte) => {
                found.push(byte)?;
                rest = more;
            }
            None => return Ok((Text::of(found), more)),
        }
    }
}

/// A comparison.
pub fn an_op(bytes: &[u8]) -> Result<(SqlOp, &[u8]), Fault<'_, u8>>
    ensures { Gives (λ x. x.0) (λ x. x.1.now) result (an_op bytes.now) }
{
    match bytes {
        [b'=', rest @ ..] => Ok((SqlOp::Eq, rest)),
        [b'<', b'>', rest @ ..] => Ok((SqlOp::Ne, rest)),
        [b'<', b'=', rest @ ..] => Ok((SqlOp::Le, rest)),
        [b'<', rest @ ..] => Ok((SqlOp::Lt, rest)),
        [b'>', b'=', rest @ ..] => Ok((SqlOp::Ge, rest)),
        [b'>', rest @ ..] => Ok((SqlOp::Gt, rest)),
        _ => Err(Fault::Bad(bytes)),
    }
}
