//! What is made of texts.
ghost use Rattle.std.specs.Prelude.{◌≡◌, ◌++◌, List, ℕ, ℤ, IfOk};
ghost use Rattle.std.specs.Fmt.{signed_decimal};
ghost use Rattle.kl_prim.specs.Meaning.{AnswersMeaning, gives, number_in, set_of_found};

use crate::stop::PrimStop;
use kl_value::{Seq, Text, Value};
use std::alloc::Global;
use std::str;

/// The bytes of one text, then those of another.
pub fn join(alloc: Global, s: &[u8], t: &[u8]) -> Result<Value, PrimStop>
    ensures { AnswersMeaning (gives (Value.Text (s.now ++ t.now))) result }
{
    let mut bytes = Vec::from_slice(alloc, s)?;
    bytes.extend_from_slice(t)?;
    Ok(Value::Text(Text::of(bytes)))
}

/// The number that the whole text writes: decimal digits, an optional `-` before them, within 64 bits. `parse` would take
/// a `+` too.
pub fn number_in(text: &[u8]) -> Option<i64>
    ensures { result ≡ number_in text.now }
{
    if text.starts_with(b"+") {
        return None;
    }
    match str::from_utf8(text) {
        Ok(text) => text.parse().ok(),
        Err(_) => None,
    }
}

/// The set of the number that the text writes, or the empty set.
pub fn to_int(alloc: Global, text: &[u8]) -> Result<Value, PrimStop>
    ensures { AnswersMeaning (gives (set_of_found (number_in text.now))) result }
{
    let mut found = Vec::new(alloc);
    if let Some(n) = number_in(text) {
        found.push(Value::Int(n))?;
    }
    Ok(Value::Set(Seq::of(found)))
}

/// The canonical text of an integer.
pub fn to_text(alloc: Global, n: i64) -> Result<Value, PrimStop>
    ensures { AnswersMeaning (gives (Value.Text (signed_decimal n))) result }
{
    Ok(Value::Text(Text::of(n.to_string(alloc)?.into_bytes())))
}
