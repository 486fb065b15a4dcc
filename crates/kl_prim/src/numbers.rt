//! What is made of integers, and how many there are of something.
ghost use Rattle.std.specs.Prelude.{◌≡◌, ◌<◌, ◌^◌, ℤ, pos, ◌+ℤ◌, ◌-ℤ◌, ◌*ℤ◌, neg_ℤ, All, SomeIff, FitsSigned, length};
ghost use Rattle.std.specs.Int.{w64};
ghost use Rattle.kl_value.specs.Views.{IsInt};
ghost use Rattle.kl_prim.specs.Meaning.{AnswersMeaning, amount, exact, gives, number_of, with_some, all_some, total};
ghost use Rattle.kl_value.specs.Views.{as_int};

use crate::stop::PrimStop;
use kl_value::{Value, int_of};

// What a checked operation answers: none is an overflow.
fn checked(answer: Option<i64>) -> Result<Value, PrimStop>
    ensures { (z : ℤ) → SomeIff answer (FitsSigned w64 z) z → AnswersMeaning (exact z) result }
{
    match answer {
        Some(z) => Ok(Value::Int(z)),
        None => Err(PrimStop::Overflow),
    }
}

pub fn add(m: i64, n: i64) -> Result<Value, PrimStop>
    ensures { AnswersMeaning (exact (m +ℤ n)) result }
{
    checked(m.checked_add(n))
}

pub fn subtract(m: i64, n: i64) -> Result<Value, PrimStop>
    ensures { AnswersMeaning (exact (m -ℤ n)) result }
{
    checked(m.checked_sub(n))
}

pub fn multiply(m: i64, n: i64) -> Result<Value, PrimStop>
    ensures { AnswersMeaning (exact (m *ℤ n)) result }
{
    checked(m.checked_mul(n))
}

pub fn negate(n: i64) -> Result<Value, PrimStop>
    ensures { AnswersMeaning (exact (neg_ℤ n)) result }
{
    checked(n.checked_neg())
}

/// The exact total of integers. A list has fewer than 2^64 items, each within 64 bits, so no partial total leaves 128
/// bits; only the whole one may leave 64.
pub fn sum(items: &[Value]) -> Result<Value, PrimStop>
    requires { All IsInt items.now }
    ensures { AnswersMeaning (with_some (all_some as_int items.now) (λ ns. exact (total ns))) result }
{
    let mut total: i128 = 0;
    for item in items {
        total += i128::from(int_of(item));
    }
    checked(i64::try_from(total).ok())
}

/// How many items or bytes a list has.
pub fn amount<T>(items: &[T]) -> Value
    requires { length items.now < 2 ^ 63 }
    ensures { amount (length items.now) ≡ gives result }
{
    Value::Int(items.len() as i64)
}

/// An integer as a number of items: none below 0.
pub fn number_of(n: i64) -> usize
    ensures { result ≡ number_of n }
{
    if n < 0 { 0 } else { n as usize }
}
