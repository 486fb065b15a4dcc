//! Cells of a table.
ghost use Rattle.std.specs.Prelude.{◌≡◌, IfSome, Some};
ghost use Rattle.std.specs.Option.{option_map};
ghost use Rattle.kl_value.specs.declared.Value.TheVariants as value;
ghost use Rattle.kl_prim.specs.Meaning.{number_in};
ghost use Rattle.kl_flat.specs.Cells.{is_blank, past_blanks, truth_in, without_blanks};

use kl_prim::number_in;

// Ten times as much and a digit are within 64 bits.
const MOST_BEFORE: u64 = 100_000_000_000_000_000;

/// The truth value that a cell writes.
pub fn truth_in(bytes: &[u8]) -> Option<bool>
    ensures { option_map value.Bool result ≡ truth_in bytes.now }
{
    if bytes == b"true".as_slice() {
        Some(true)
    } else if bytes == b"false".as_slice() {
        Some(false)
    } else {
        None
    }
}

/// The integer that a cell writes, with blanks around.
pub fn integer_in(bytes: &[u8]) -> Option<i64>
    ensures { result ≡ number_in (without_blanks bytes.now) }
{
    match short_number(bytes) {
        Some(number) => Some(number),
        None => number_in(without_blanks(bytes)),
    }
}

// The number that digits alone write, so few of them that it is within 64 bits. None tells nothing.
fn short_number(bytes: &[u8]) -> Option<i64>
    ensures { IfSome result (λ number. Some number ≡ number_in (without_blanks bytes.now)) }
{
    if bytes.is_empty() {
        return None;
    }
    let mut number: u64 = 0;
    for byte in bytes {
        if !byte.is_ascii_digit() || number >= MOST_BEFORE {
            return None;
        }
        number = number * 10 + (*byte - b'0') as u64;
    }
    Some(number as i64)
}

// The bytes without the spaces and tabs at both ends.
fn without_blanks(bytes: &[u8]) -> &[u8]
    ensures { result.now ≡ without_blanks bytes.now }
{
    let mut rest = past_blanks(bytes);
    'back: while let [front @ .., last] = rest {
        if !is_blank(*last) {
            return rest;
        }
        rest = front;
    }
    rest
}

fn past_blanks(bytes: &[u8]) -> &[u8]
    ensures { result.now ≡ past_blanks bytes.now }
{
    let mut rest = bytes;
    'front: while let [first, behind @ ..] = rest {
        if !is_blank(*first) {
            return rest;
        }
        rest = behind;
    }
    rest
}

fn is_blank(byte: u8) -> bool
    ensures { result ≡ is_blank byte }
{
    byte == b' ' || byte == b'\t'
}
