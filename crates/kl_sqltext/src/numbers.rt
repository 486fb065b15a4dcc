//! Taking numbers off the front of bytes.
ghost use Rattle.std.specs.Prelude.{◌≡◌, ◌≤◌, ◌<◌, ◌^◌, ◌-◌, IfOk};
ghost use Rattle.std.specs.Char.{digit_value};
ghost use Rattle.kl_phrase.specs.Words.{heads};
ghost use Rattle.kl_phrase.specs.Readers.{ok};
ghost use Rattle.kl_sqltext.specs.Descent.{is_digit, is_more, digits, natural, place, lets};
ghost use Rattle.kl_phrase.specs.Gives.{Gives};

use kl_phrase::Fault;

fn is_digit(byte: u8) -> bool
    ensures { result ≡ is_digit byte }
{
    byte.is_ascii_digit()
}

/// The number that the digits write as long as it is at most `limit`, behind those that wrote `start`, and what stands
/// behind them.
fn digits(bytes: &[u8], limit: u64, start: u64) -> (u64, &[u8])
    requires fits { start ≤ limit }
    requires room { limit ≤ 2 ^ 63 }
    ensures gives { digits limit start bytes.now ≡ ok result.0 result.1.now }
    ensures within { result.0 ≤ limit }
{
    let mut value = start;
    let mut rest = bytes;
    'digits: while let [first, behind @ ..] = rest {
        if !is_digit(*first) {
            return (value, rest);
        }
        let digit = u64::from(*first - b'0');
        if value > limit / 10 || value * 10 + digit > limit {
            return (value, rest);
        }
        value = value * 10 + digit;
        rest = behind;
    }
    (value, rest)
}

/// One digit and any more, as long as the number is at most `limit`.
pub fn natural(bytes: &[u8], limit: u64) -> Result<(u64, &[u8]), Fault<'_, u8>>
    requires low { 9 ≤ limit }
    requires room { limit ≤ 2 ^ 63 }
    ensures gives { Gives (λ x. x.0) (λ x. x.1.now) result (natural limit bytes.now) }
    ensures within { IfOk result (λ x. x.0 ≤ limit) }
{
    match bytes {
        [first, rest @ ..] if is_digit(*first) => {
            Ok(digits(rest, limit, u64::from(*first - b'0')))
        }
        _ => Err(Fault::Bad(bytes)),
    }
}

/// The number of a table.
pub fn place(bytes: &[u8]) -> Result<(u32, &[u8]), Fault<'_, u8>>
    ensures { Gives (λ x. x.0) (λ x. x.1.now) result (place bytes.now) }
{
    match bytes {
        [b'0', rest @ ..] => Ok((0, rest)),
        [first, rest @ ..] if is_digit(*first) => {
            let (value, rest) = digits(rest, 9999, u64::from(*first - b'0'));
            Ok((value as u32, rest))
        }
        _ => Err(Fault::Bad(bytes)),
    }
}

/// Whether the bytes begin with a digit.
pub fn begins_digit(bytes: &[u8]) -> bool
    ensures { result ≡ heads is_digit bytes.now }
{
    match bytes {
        [first, ..] => is_digit(*first),
        [] => false,
    }
}
