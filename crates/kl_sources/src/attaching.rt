//! Attaching the sources that a program mentions.
ghost use Rattle.std.specs.Prelude.{◌<◌, ℕ, Bool, length, map};
ghost use Rattle.kl_scope.specs.Breaches.{is_marked};
ghost use Rattle.kl_sources.specs.Sources.{ArePlaced, kinds_of};
ghost use Rattle.kl_sources.specs.Attaching.{AgreeBelow, AttachesAll, HaveNone};

use crate::source::Source;
use crate::walking::attach_listed;
use kl_ask::{Attached, Driver, DriverError};
use kl_base::{Label, Seq};
use kl_scope::Scoped;
use std::alloc::Global;

/// Why sources are not attached: the source that is refused, and its driver's answer. Want of memory may be told of any
/// source.
#[derive(Drop, PartialEq, Eq)]
pub struct AttachError {
    pub source: Label,
    pub error: DriverError,
}

/// Attaches the sources that the program mentions, in their order, and answers the list of all sources by their number.
/// One that the program does not mention is attached nowhere. Marks are any that say of each source whether the program
/// mentions it.
///
/// # Errors
/// What its driver answers of a mentioned source that is refused, with its cause; the mentioned sources before it stay
/// attached, and it and those behind it are attached nowhere. Where contents are told, it is the first that stands without
/// rows. Want of memory, and more sources than 32 bits can number, are told of any source.
pub fn attach_sources(
    alloc: Global,
    sources: Vec<Source>,
    scoped: &Scoped,
    drivers: &mut Vec<Box<dyn Driver>>,
) -> Result<Seq<Attached>, AttachError>
    requires placed { ArePlaced (kinds_of (map (λ d. state d) drivers.old.items)) sources.items }
    requires clear { HaveNone (map (λ d. state d) drivers.old.items) }
    ensures { (marks : ℕ → Bool) → AgreeBelow (length sources.items) marks (is_marked scoped.now)
        → AttachesAll marks sources.items result (map (λ d. state d) drivers.old.items) (map (λ d. state d) drivers.new.items) }
{
    match attach_listed(alloc, &sources, scoped, drivers) {
        Ok(list) => Ok(list),
        Err(refused) => {
            let mut sources = sources;
            let source = sources.swap_remove(refused.place);
            Err(AttachError {
                source: source.name,
                error: refused.error,
            })
        }
    }
}
