ghost use Rattle.std.specs.Prelude.{◌≡◌, ◌<◌, ◌+◌, ◌*◌, ◌∷◌, ℕ, List, IfOk, MatchOption};
ghost use Rattle.std.specs.Char.{digit_value};
ghost use Rattle.std.specs.Option.{SomeIff};
ghost use Rattle.kl_lex.specs.Reading.{Closes, NoneCloses, PartFirst, NoPart};
ghost use Rattle.kl_value.specs.Quoted.{quote, backslash};

use kl_base::{NoMemory, Text};
use kl_value::escaped;
use std::alloc::Global;

/// What a text means whose opening quote stands before these bytes, and the bytes behind its closing quote.
pub fn text_at(alloc: Global, bytes: &[u8]) -> Result<Option<(Text, &[u8])>, NoMemory>
    ensures { IfOk result (λ found. MatchOption found (NoneCloses bytes.now) (λ text. Closes bytes.now text.0 text.1.now)) }
{
    let mut meant = Vec::new(alloc);
    let mut rest = bytes;
    'parts: while let Some((byte, after)) = part_at(rest) {
        meant.push(byte)?;
        rest = after;
    }
    match behind_quote(rest) {
        None => Ok(None),
        Some(after) => Ok(Some((Text::of(meant), after))),
    }
}

/// The bytes behind a quote at the front.
fn behind_quote(bytes: &[u8]) -> Option<&[u8]>
    ensures { MatchOption result ((rest : List ℕ) → bytes.now ≡ quote ∷ rest → ⊥) (λ rest. bytes.now ≡ quote ∷ rest.now) }
{
    match bytes {
        [b'"', rest @ ..] => Some(rest),
        _ => None,
    }
}

/// The byte that the part at the front means, and the bytes behind it.
fn part_at(bytes: &[u8]) -> Option<(u8, &[u8])>
    ensures { MatchOption result (NoPart bytes.now) (λ part. PartFirst bytes.now part.0 part.1.now) }
{
    match bytes {
        [] => None,
        [first, rest @ ..] => {
            if *first == b'"' {
                None
            } else if *first == b'\\' {
                escape_at(rest)
            } else {
                Some((*first, rest))
            }
        }
    }
}

/// The byte that a backslash and the bytes at the front mean, and the bytes behind them.
fn escape_at(bytes: &[u8]) -> Option<(u8, &[u8])>
    ensures { MatchOption result (NoPart (backslash ∷ bytes.now)) (λ part. PartFirst (backslash ∷ bytes.now) part.0 part.1.now) }
{
    match bytes {
        [] => None,
        [first, rest @ ..] => {
            if *first == b'x' {
                hex_at(rest)
            } else {
                Some((escaped(*first)?, rest))
            }
        }
    }
}

/// The byte with the two hexadecimal digits at the front, and the bytes behind them.
fn hex_at(bytes: &[u8]) -> Option<(u8, &[u8])>
    ensures { MatchOption result (NoPart (backslash ∷ 120 ∷ bytes.now))
        (λ part. PartFirst (backslash ∷ 120 ∷ bytes.now) part.0 part.1.now) }
{
    match bytes {
        [high, low, rest @ ..] => Some((hex(*high, *low)?, rest)),
        _ => None,
    }
}

/// The byte with these hexadecimal digits, of either case.
fn hex(high: u8, low: u8) -> Option<u8>
    ensures { SomeIff result ((digit_value high < 16) × (digit_value low < 16)) (digit_value high * 16 + digit_value low) }
{
    let high = char::from(high).to_digit(16)?;
    let low = char::from(low).to_digit(16)?;
    Some((high * 16 + low) as u8)
}
