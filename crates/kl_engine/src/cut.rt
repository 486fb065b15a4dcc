//! The first items of a result.
ghost use Rattle.std.specs.Prelude.{◌≡◌};
ghost use Rattle.kl_engine.specs.Verdict.{cut, first_of};

use kl_base::Seq;
use kl_value::{Items, Value};

/// A collection cut to its first items, where a number is given. Another value is not cut.
pub fn cut(value: Value, first: Option<u32>) -> Value
    ensures { result ≡ cut first value }
{
    match value {
        Value::Set(items) => Value::Set(first_of(items, first)),
        Value::Bag(items) => Value::Bag(first_of(items, first)),
        Value::List(items) => Value::List(first_of(items, first)),
        whole => whole,
    }
}

fn first_of(items: Items, first: Option<u32>) -> Items
    ensures { result ≡ first_of first items }
{
    match first {
        None => items,
        Some(most) => {
            let mut items = items.into_vec();
            items.truncate(most as usize);
            Seq::of(items)
        }
    }
}
