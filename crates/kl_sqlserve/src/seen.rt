//! Values that were seen before.
ghost use Rattle.std.specs.Prelude.{◌≡◌, ◌||◌, IfOk, not};
ghost use Rattle.std.specs.HashSet.{contains};
ghost use Rattle.kl_value.specs.declared.Value.{Value as AValue};
ghost use Rattle.kl_ask.specs.Driver.{same_value};
ghost use Rattle.kl_sqlserve.specs.Keys.{same_key};

use kl_base::NoMemory;
use kl_value::{Value, dup};
use std::alloc::Global;
use std::collections::HashSet;

/// Adds a value to those that were seen, and says whether it is new.
///
/// # Errors
/// Want of memory.
pub fn is_new(alloc: Global, seen: &mut HashSet<Value>, value: &Value) -> Result<bool, NoMemory>
    ensures new { IfOk result (λ new. new ≡ not (contains same_key seen.old value.now)) }
    ensures seen { IfOk result (λ _. (w : AValue) → contains same_key seen.new w
        ≡ (same_value value.now w || contains same_key seen.old w)) }
{
    if seen.contains(value) {
        return Ok(false);
    }
    let copy = dup(alloc, value)?;
    Ok(seen.insert(copy)?)
}

/// The same of a value that is given away, which is not copied.
///
/// # Errors
/// Want of memory.
pub fn takes_new(seen: &mut HashSet<Value>, value: Value) -> Result<bool, NoMemory>
    ensures new { IfOk result (λ new. new ≡ not (contains same_key seen.old value)) }
    ensures seen { IfOk result (λ _. (w : AValue) → contains same_key seen.new w
        ≡ (same_value value w || contains same_key seen.old w)) }
{
    Ok(seen.insert(value)?)
}
