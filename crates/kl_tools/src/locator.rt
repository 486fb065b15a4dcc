//! The locators of made sources.
ghost use Rattle.std.specs.Prelude.{◌≡◌, ◌<◌, ◌^◌, MatchOption, Some, None};
ghost use Rattle.kl_tools.specs.Made.{at_space, made_at, natural_in};

use kl_prim::number_in;

// The greatest seed, and the greatest number of rows.
const MOST_SEED: u64 = 4_294_967_295;

const MOST_ROWS: u64 = 1_000_000;

/// The seed and the number of rows that a locator names: two numbers in digits with one space between, the seed below
/// 2^32 and the rows at most 1,000,000. None exactly where it is something else.
pub fn read_locator(locator: &[u8]) -> Option<(u64, u64)>
    ensures { result ≡ made_at locator.now }
{
    let (seed, rows) = at_space(locator)?;
    let seed = natural(seed, MOST_SEED)?;
    let rows = natural(rows, MOST_ROWS)?;
    Some((seed, rows))
}

// The bytes before the first space, and those behind it.
fn at_space(bytes: &[u8]) -> Option<(&[u8], &[u8])>
    ensures { MatchOption result (at_space bytes.now ≡ None) (λ p. at_space bytes.now ≡ Some (p.0.now, p.1.now)) }
{
    for i in 0..bytes.len() {
        if bytes[i] == b' ' {
            return Some((&bytes[..i], &bytes[i + 1..]));
        }
    }
    None
}

// The number that the digits write, where it is no greater than this.
fn natural(digits: &[u8], most: u64) -> Option<u64>
    requires { most < 2 ^ 63 }
    ensures { result ≡ natural_in most digits.now }
{
    if digits.starts_with(b"-") {
        return None;
    }
    match number_in(digits) {
        Some(number) if number as u64 <= most => Some(number as u64),
        _ => None,
    }
}
