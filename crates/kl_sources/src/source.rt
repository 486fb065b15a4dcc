//! A source of a catalogue at its driver.
ghost use Rattle.std.specs.Prelude.{◌≡◌, IfOk};
ghost use Rattle.kl_sources.specs.Sources.{names_of, types_of};

use kl_base::{Label, NoMemory, Text};
use kl_type::Ty;
use std::alloc::Global;

/// A source: its name, the type of the whole collection, the place of its driver in the list of drivers, and where the
/// driver finds it.
#[derive(Drop, PartialEq, Eq)]
pub struct Source {
    pub name: Label,
    pub ty: Ty,
    pub driver: u32,
    pub locator: Text,
}

/// The names of the sources.
///
/// # Errors
/// Want of memory.
pub fn names_of(alloc: Global, sources: &[Source]) -> Result<Vec<Label>, NoMemory>
    ensures { IfOk result (λ names. names.items ≡ names_of sources.now) }
{
    let mut names = Vec::new(alloc);
    'names: for source in sources {
        names.push(source.name.dup()?)?;
    }
    Ok(names)
}

/// The names of the sources with their types.
///
/// # Errors
/// Want of memory.
pub fn types_of(alloc: Global, sources: &[Source]) -> Result<Vec<(Label, Ty)>, NoMemory>
    ensures { IfOk result (λ types. types.items ≡ types_of sources.now) }
{
    let mut types = Vec::new(alloc);
    'types: for source in sources {
        types.push((source.name.dup()?, source.ty.dup(alloc)?))?;
    }
    Ok(types)
}
