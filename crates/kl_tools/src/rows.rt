//! Rows that are made by a formula.
ghost use Rattle.std.specs.Prelude.{◌≡◌, ◌≤◌, ◌<◌, ◌^◌, ◌++◌, IfOk, codes, decimal, true};
ghost use Rattle.kl_tools.specs.Made.{made_row, most_rows};
ghost use Rattle.kl_tools.specs.Types.{are_made};

use itoa::Buffer;
use kl_base::{Label, NoMemory, Seq, Text};
use kl_type::Ty;
use kl_value::Value;
use std::alloc::Global;

/// The row of a number: its group, the number itself, and a name.
///
/// # Errors
/// Want of memory.
pub fn made_row(
    alloc: Global,
    columns: &[(Label, Ty)],
    seed: u64,
    number: u64,
) -> Result<Value, NoMemory>
    requires columns { are_made columns.now ≡ true }
    requires seed { seed < 2 ^ 32 }
    requires number { number ≤ most_rows }
    ensures { IfOk result (λ row. row ≡ made_row seed number) }
{
    let [group, id, name] = columns else {
        unreachable!()
    };
    let text = made_name(alloc, (seed + number) % 1000)?;
    let mut fields = Vec::with_capacity(alloc, 3)?;
    fields.push((
        group.0.dup()?,
        Value::Int(((seed + 7 * number) % 100) as i64),
    ))?;
    fields.push((id.0.dup()?, Value::Int(number as i64)))?;
    fields.push((name.0.dup()?, Value::Text(text)))?;
    Ok(Value::Rec(Seq::of(fields)))
}

// The byte `n` and the digits of a number.
fn made_name(alloc: Global, number: u64) -> Result<Text, NoMemory>
    ensures { IfOk result (λ text. text ≡ codes "n" ++ decimal number) }
{
    let mut bytes = Vec::from_slice(alloc, b"n")?;
    bytes.extend_from_slice(Buffer::new().format(number).as_bytes())?;
    Ok(Text::of(bytes))
}
