//! Which value a JSON value is.
ghost use Rattle.std.specs.Prelude.{◌≡◌, IfOk};
ghost use Rattle.json.specs.Value.{value_view, items_view, members_view};
ghost use Rattle.kl_json.specs.Meaning.{meaning, each, items_meaning, members_meaning, null_meaning, number_meaning, label_meaning, record_of, letter_before, as_word, word_byte};

use crate::choices::{Choices, Refusal};
use json::Value as Json;
use kl_base::{Box, Label, NoMemory, Seq, Text};
use kl_prim::number_in;
use kl_value::Value;
use std::alloc::Global;

/// The value that a JSON value is: objects are records, arrays lists, strings texts in UTF-8.
///
/// # Errors
/// Want of memory. Within, the refusal that stands first in the text: where a label stands twice in an object, that is
/// told behind its members.
#[cycle(value_of)]
pub fn value_of(
    alloc: Global,
    choices: &Choices,
    json: &Json<'_>,
) -> Result<Result<Value, Refusal>, NoMemory>
    ensures { IfOk result (λ r. r ≡ meaning choices.now (value_view json.now)) }
{
    match json {
        Json::Null => null(alloc, choices),
        Json::Bool(b) => Ok(Ok(Value::Bool(*b))),
        Json::Number(text) => number(alloc, choices, text),
        Json::String(text) => Ok(Ok(Value::Text(Text::of(Vec::from_slice(
            alloc,
            text.as_bytes(),
        )?)))),
        Json::Array(items) => match items_of(alloc, choices, items)? {
            Ok(items) => Ok(Ok(Value::List(Seq::of(items)))),
            Err(refusal) => Ok(Err(refusal)),
        },
        Json::Object(members) => match members_of(alloc, choices, members)? {
            Ok(pairs) => record(pairs),
            Err(refusal) => Ok(Err(refusal)),
        },
    }
}

#[cycle(value_of)]
fn items_of(
    alloc: Global,
    choices: &Choices,
    items: &[Json<'_>],
) -> Result<Result<Vec<Value>, Refusal>, NoMemory>
    ensures { IfOk result (λ r. each (λ v. v.items) r ≡ items_meaning choices.now (items_view items.now)) }
{
    let mut values = Vec::with_capacity(alloc, items.len())?;
    for item in items {
        match value_of(alloc, choices, item)? {
            Ok(value) => values.push(value)?,
            Err(refusal) => return Ok(Err(refusal)),
        }
    }
    Ok(Ok(values))
}

#[cycle(value_of)]
fn members_of(
    alloc: Global,
    choices: &Choices,
    members: &[(&str, Json<'_>)],
) -> Result<Result<Vec<(Label, Value)>, Refusal>, NoMemory>
    ensures { IfOk result (λ r. each (λ v. v.items) r ≡ members_meaning choices.now (members_view members.now)) }
{
    let mut pairs = Vec::with_capacity(alloc, members.len())?;
    for member in members {
        let label = match label_of(alloc, choices, member.0.as_bytes())? {
            Ok(label) => label,
            Err(refusal) => return Ok(Err(refusal)),
        };
        match value_of(alloc, choices, &member.1)? {
            Ok(value) => pairs.push((label, value))?,
            Err(refusal) => return Ok(Err(refusal)),
        }
    }
    Ok(Ok(pairs))
}

fn null(alloc: Global, choices: &Choices) -> Result<Result<Value, Refusal>, NoMemory>
    ensures { IfOk result (λ r. r ≡ null_meaning choices.now.null) }
{
    match &choices.null {
        None => Ok(Err(Refusal::Null)),
        Some(label) => {
            let label = label.dup()?;
            let inner = Value::Rec(Seq::of(Vec::new(alloc)));
            Ok(Ok(Value::Inj(label, Box::new(alloc, inner)?)))
        }
    }
}

fn number(alloc: Global, choices: &Choices, text: &str) -> Result<Result<Value, Refusal>, NoMemory>
    ensures { IfOk result (λ r. r ≡ number_meaning choices.now text.now) }
{
    let bytes = text.as_bytes();
    match number_in(bytes) {
        Some(n) => Ok(Ok(Value::Int(n))),
        None => {
            if choices.text_numbers {
                Ok(Ok(Value::Text(Text::of(Vec::from_slice(alloc, bytes)?))))
            } else {
                Ok(Err(Refusal::Number))
            }
        }
    }
}

fn label_of(
    alloc: Global,
    choices: &Choices,
    bytes: &[u8],
) -> Result<Result<Label, Refusal>, NoMemory>
    ensures { IfOk result (λ r. r ≡ label_meaning choices.now bytes.now) }
{
    let label = if choices.words {
        Label::new(alloc, as_word(alloc, bytes)?.as_slice())?
    } else {
        Label::new(alloc, bytes)?
    };
    match label {
        Some(label) => Ok(Ok(label)),
        None => Ok(Err(Refusal::Word)),
    }
}

// The bytes as a word: `_` for each that stands in none, and an `x` before them where no letter is first.
fn as_word(alloc: Global, bytes: &[u8]) -> Result<Vec<u8>, NoMemory>
    ensures { IfOk result (λ word. word.items ≡ as_word bytes.now) }
{
    let mut word = letter_before(alloc, bytes)?;
    let letters: Vec<u8> = bytes.iter().map(|byte| word_byte(*byte)).collect(alloc)?;
    word.extend_from_slice(letters.as_slice())?;
    Ok(word)
}

fn letter_before(alloc: Global, bytes: &[u8]) -> Result<Vec<u8>, NoMemory>
    ensures { IfOk result (λ front. front.items ≡ letter_before bytes.now) }
{
    match bytes {
        [first, ..] if first.is_ascii_alphabetic() => Ok(Vec::new(alloc)),
        _ => Ok(Vec::from_slice(alloc, b"x")?),
    }
}

fn word_byte(byte: u8) -> u8
    ensures { result ≡ word_byte byte }
{
    if byte.is_ascii_alphanumeric() {
        byte
    } else {
        b'_'
    }
}

fn record(pairs: Vec<(Label, Value)>) -> Result<Result<Value, Refusal>, NoMemory>
    ensures { IfOk result (λ r. r ≡ record_of pairs.items) }
{
    match Seq::<(Label, Value)>::new(pairs)? {
        Some(fields) => Ok(Ok(Value::Rec(fields))),
        None => Ok(Err(Refusal::Twice)),
    }
}
