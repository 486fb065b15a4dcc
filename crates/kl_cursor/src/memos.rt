//! Memos: parts whose values are kept.
ghost use Rattle.std.specs.Prelude.{◌≡◌, IfOk};
ghost use Rattle.kl_eval.specs.Values.{values};
ghost use Rattle.kl_plan.specs.Subqueries.{Covers, values_at};
ghost use Rattle.kl_scans.specs.Keeping.{subquery};
ghost use Rattle.kl_scans.specs.Over.{MayKeep};
ghost use Rattle.kl_cursor.specs.Memos.{KeepsCopy};

use crate::scans::Scans;
use kl_base::{NoMemory, Seq};
use kl_eval::{Env, Halt, variable};
use kl_memo::MemoKey;
use kl_value::{Value, dup};
use std::alloc::Global;

/// Under what the value of a memo is kept: its number, and copies of the values of its free positions.
///
/// # Errors
/// Want of memory.
pub fn key_of(alloc: Global, number: u32, frees: &[u32], env: &Env) -> Result<MemoKey, NoMemory>
    requires { Covers frees.now (values env.now) }
    ensures { IfOk result (λ key. subquery key ≡ (number, values_at (values env.now) frees.now)) }
{
    let mut found = Vec::with_capacity(alloc, frees.len())?;
    'frees: for at in frees {
        found.push(dup(alloc, variable(env, *at))?)?;
    }
    Ok(MemoKey {
        number,
        values: Seq::of(found),
    })
}

/// A value, of which a copy is kept.
///
/// # Errors
/// Want of memory; nothing is kept then.
pub fn keep_copy<C: Scans>(
    alloc: Global,
    key: MemoKey,
    value: Value,
    run: &mut C,
) -> Result<Value, Halt>
    requires { MayKeep (subquery key) value (C.world run.old) }
    ensures { KeepsCopy (subquery key) value result (C.world run.old) (C.world run.new) }
{
    match dup(alloc, &value) {
        Ok(copy) => match run.keep(key, copy) {
            Ok(()) => Ok(value),
            Err(_) => Err(Halt::NoMemory),
        },
        Err(_) => Err(Halt::NoMemory),
    }
}
