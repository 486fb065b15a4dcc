//! Attached sources by their names.
ghost use Rattle.std.specs.Prelude.{◌≡◌, ◌≤◌, ◌<◌, ◌^◌, IfOk, IsSome, OnErr, OnOk, Some, nat_eq, true};
ghost use Rattle.std.specs.Cmp.Lexicographic.{pointwise};
ghost use Rattle.std.specs.HashMap.{IsUnchanged, Updates};
ghost use Rattle.kl_ask.specs.Named.{asked_source};
ghost use Rattle.kl_tools.specs.Cursors.{OpensAt};
ghost use Rattle.kl_tools.specs.Made.{most_rows};
ghost use Rattle.kl_tools.specs.Types.{is_made_type};

use crate::parts::{Open, Source};
use kl_ask::{Ask, asked_source};
use kl_base::{Label, NoMemory, Shared};
use kl_type::Ty;
use std::alloc::Global;
use std::collections::HashMap;

/// A source of this type, with this seed and so many rows.
///
/// # Errors
/// Want of memory.
pub fn new_source(alloc: Global, ty: &Ty, seed: u64, rows: u64) -> Result<Source, NoMemory>
    requires typed { is_made_type ty.now ≡ true }
    requires small { seed < 2 ^ 32 }
    requires few { rows ≤ most_rows }
    ensures ty { IfOk result (λ source. source.ty ≡ ty.now) }
    ensures seed { IfOk result (λ source. source.seed ≡ seed) }
    ensures rows { IfOk result (λ source. source.rows ≡ rows) }
{
    let ty = Shared::new(alloc, ty.dup(alloc)?)?;
    Ok(Source { ty, seed, rows })
}

/// Attaches a source under a name.
///
/// # Errors
/// Want of memory; nothing is attached then.
pub fn add_source(
    sources: &mut HashMap<Label, Source>,
    name: &Label,
    source: Source,
) -> Result<(), NoMemory>
    ensures added { OnOk result (Updates (pointwise nat_eq) sources.old sources.new name.now (Some source)) }
    ensures refused { OnErr result (IsUnchanged sources.old sources.new) }
{
    let name = name.dup()?;
    sources.insert(name, source)?;
    Ok(())
}

/// A cursor at the first row of the source that is asked.
///
/// # Errors
/// Want of memory.
pub fn opened(alloc: Global, sources: &HashMap<Label, Source>, ask: &Ask) -> Result<Open, NoMemory>
    requires { IsSome (asked_source sources.now ask.now) }
    ensures { IfOk result (OpensAt sources.now ask.now) }
{
    let Some(source) = asked_source(sources, ask) else {
        unreachable!()
    };
    let source = source.dup()?;
    let ask = ask.dup(alloc)?;
    Ok(Open { ask, source, at: 0 })
}
