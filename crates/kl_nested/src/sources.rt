//! Attached sources by their names.
ghost use Rattle.std.specs.Prelude.{◌≡◌, ◌<◌, ◌^◌, IfOk, OnErr, OnOk, Some, nat_eq};
ghost use Rattle.std.specs.Cmp.Lexicographic.{pointwise};
ghost use Rattle.std.specs.HashMap.{IsUnchanged, Updates};
ghost use Rattle.kl_nested.specs.Reading.{AttachesFile};

use crate::parts::Source;
use crate::through::{Kept, read_file};
use crate::types::item_of;
use kl_ask::DriverError;
use kl_base::{Label, NoMemory, Shared, Text};
use kl_outside::Files;
use kl_type::Ty;
use std::alloc::Global;
use std::collections::HashMap;

/// Reads the file at a path through, and attaches it under a name. It answers how many items it has.
///
/// # Errors
/// As `Driver::attach`; nothing is attached then.
pub fn attach_file<F: Files>(
    alloc: Global,
    files: &mut F,
    sources: &mut HashMap<Label, Shared<Source>>,
    name: &Label,
    path: &Text,
    ty: &Ty,
    limit: u64,
) -> Result<u64, DriverError>
    requires { limit < 2 ^ 63 }
    ensures { AttachesFile limit name.now path.now ty.now result sources.old sources.new (F.state files.old) (F.state files.new) }
{
    match read_file(alloc, files, path.slice(), limit, item_of(ty)) {
        Ok(kept) => match add_source(alloc, sources, name, path, ty, kept) {
            Ok(()) => Ok(kept.count),
            Err(NoMemory) => Err(DriverError::NoMemory),
        },
        Err(error) => Err(error),
    }
}

// Attaches the file at a path under a name: its type, and what is kept of it.
fn add_source(
    alloc: Global,
    sources: &mut HashMap<Label, Shared<Source>>,
    name: &Label,
    path: &Text,
    ty: &Ty,
    kept: Kept,
) -> Result<(), NoMemory>
    ensures added { OnOk result (Updates (pointwise nat_eq) sources.old sources.new name.now
        (Some (record { path = path.now; ty = ty.now; stated = kept.stated; bytes = kept.bytes; count = kept.count }))) }
    ensures refused { OnErr result (IsUnchanged sources.old sources.new) }
{
    let source = new_source(alloc, path, ty, kept)?;
    let name = name.dup()?;
    sources.insert(name, source)?;
    Ok(())
}

fn new_source(alloc: Global, path: &Text, ty: &Ty, kept: Kept) -> Result<Shared<Source>, NoMemory>
    ensures { IfOk result (λ s. s ≡ record {
      path = path.now;
      ty = ty.now;
      stated = kept.stated;
      bytes = kept.bytes;
      count = kept.count;
    }) }
{
    let path = path.dup(alloc)?;
    let ty = ty.dup(alloc)?;
    Shared::new(
        alloc,
        Source {
            path,
            ty,
            stated: kept.stated,
            bytes: kept.bytes,
            count: kept.count,
        },
    )
}
