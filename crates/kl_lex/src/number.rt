ghost use Rattle.std.specs.Prelude.{◌≡◌, ◌<◌, ◌≤◌, ◌+◌, ◌^◌, IsTrue, length, slice_index, MatchOption};
ghost use Rattle.std.specs.Char.{is_ascii_digit};
ghost use Rattle.std.specs.List.{list_all, prefix_len};
ghost use Rattle.std.specs.Str.Parse.{digits_value};
ghost use Rattle.kl_lex.specs.Lexing.{Starts, NoneStarts};
ghost use Rattle.kl_lex.specs.Reading.{HasValue};
ghost use Rattle.kl_lex.specs.Spelling.{int_max};

use crate::token::Tok;

/// One more than the greatest integer.
const BIG: u64 = 9_223_372_036_854_775_808;

/// The number at the front, which is all the digits that follow one another there, and the bytes behind it.
pub fn number_at(bytes: &[u8]) -> Option<(Tok, &[u8])>
    requires { IsTrue (is_ascii_digit (slice_index bytes.now 0)) }
    ensures { MatchOption result (NoneStarts bytes.now) (λ found. Starts bytes.now found.0 found.1.now) }
{
    let (digits, rest) = bytes.split_at(digit_run(bytes));
    let what = int_of(value_of(digits)?)?;
    Some((what, rest))
}

/// How many digits are at the front.
fn digit_run(bytes: &[u8]) -> usize
    ensures value { result ≡ prefix_len is_ascii_digit bytes.now }
    ensures within { result ≤ length bytes.now }
{
    bytes
        .iter()
        .take_while(|byte| byte.is_ascii_digit())
        .count()
}

/// The token of this value. None where it is no integer, with a minus or without.
fn int_of(value: u64) -> Option<Tok>
    ensures { MatchOption result (int_max + 1 < value) (HasValue value) }
{
    match i64::try_from(value) {
        Ok(value) => Some(Tok::Int(value)),
        Err(_) if value == BIG => Some(Tok::Big),
        Err(_) => None,
    }
}

/// The value of these digits, where it fits.
fn value_of(digits: &[u8]) -> Option<u64>
    requires { IsTrue (list_all is_ascii_digit digits.now) }
    ensures { MatchOption result (2 ^ 64 ≤ digits_value 10 digits.now) (λ value. value ≡ digits_value 10 digits.now) }
{
    let mut value: u64 = 0;
    'digits: for digit in digits {
        value = value
            .checked_mul(10)?
            .checked_add(u64::from(*digit - b'0'))?;
    }
    Some(value)
}
