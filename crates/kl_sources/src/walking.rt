//! Sources are attached one by one.
ghost use Rattle.std.specs.Prelude.{◌≡◌, ◌<◌, ◌^◌, ◌++◌, ◌∷◌, [], length, map, true, None, OnOk, MatchResult};
ghost use Rattle.kl_type.specs.Ground.{IsProper};
ghost use Rattle.kl_scope.specs.Breaches.{is_marked};
ghost use Rattle.kl_ask.specs.Driver.{Attaches};
ghost use Rattle.kl_ask.specs.Lists.{AtIndex, StepsAt};
ghost use Rattle.kl_sources.specs.Sources.{ArePlaced, kinds_of};
ghost use Rattle.kl_sources.specs.Attaching.{HaveNone, list_of, listed};
ghost use Rattle.kl_sources.specs.Walking.{Walks, WalksAll, AttachesIf, IsWant};

use crate::source::Source;
use kl_ask::{Attached, Driver, DriverError, attach_boxed};
use kl_base::{NoMemory, Seq};
use kl_scope::Scoped;
use std::alloc::Global;

/// The number of a source that is refused, and why.
#[derive(Drop, PartialEq, Eq)]
pub struct Refused {
    pub place: usize,
    pub error: DriverError,
}

/// Attaches the sources that the program mentions, up to the first that is refused, and answers the list of all.
///
/// # Errors
/// The first source that its driver refuses, and why. Want of memory, told of any source.
pub fn attach_listed(
    alloc: Global,
    sources: &[Source],
    scoped: &Scoped,
    drivers: &mut Vec<Box<dyn Driver>>,
) -> Result<Seq<Attached>, Refused>
    requires placed { ArePlaced (kinds_of (map (λ d. state d) drivers.old.items)) sources.now }
    requires clear { HaveNone (map (λ d. state d) drivers.old.items) }
    ensures { WalksAll (is_marked scoped.now) sources.now result (map (λ d. state d) drivers.old.items)
        (map (λ d. state d) drivers.new.items) }
{
    if sources.len() > u32::MAX as usize {
        return Err(Refused {
            place: 0,
            error: DriverError::NoMemory,
        });
    }
    match attach_marked(sources, scoped, drivers) {
        Ok(()) => list(alloc, sources, scoped),
        Err(refused) => Err(refused),
    }
}

// Attaches the sources that the program mentions, in their order, up to the first that is refused.
fn attach_marked(
    sources: &[Source],
    scoped: &Scoped,
    drivers: &mut Vec<Box<dyn Driver>>,
) -> Result<(), Refused>
    requires numbered { length sources.now < 2 ^ 32 }
    requires placed { ArePlaced (kinds_of (map (λ d. state d) drivers.old.items)) sources.now }
    requires clear { HaveNone (map (λ d. state d) drivers.old.items) }
    ensures { Walks (is_marked scoped.now) sources.now result (map (λ d. state d) drivers.old.items)
        (map (λ d. state d) drivers.new.items) }
{
    'sources: for place in 0..sources.len() {
        match attach_if(scoped.mentions(place as u32), &sources[place], drivers) {
            Ok(()) => {}
            Err(error) => return Err(Refused { place, error }),
        }
    }
    Ok(())
}

// Attaches a source at its driver if it is marked.
fn attach_if(
    marked: bool,
    source: &Source,
    drivers: &mut Vec<Box<dyn Driver>>,
) -> Result<(), DriverError>
    requires place { source.now.driver < length drivers.old.items }
    requires proper { IsProper source.now.ty }
    requires suits { AtIndex source.now.driver (λ d. d.kind.suits source.now.ty ≡ true) (map (λ d. state d) drivers.old.items) }
    requires fresh { AtIndex source.now.driver (λ d. d.attached source.now.name ≡ None) (map (λ d. state d) drivers.old.items) }
    ensures { AttachesIf marked source.now result (map (λ d. state d) drivers.old.items) (map (λ d. state d) drivers.new.items) }
{
    if marked {
        match attach(source, drivers) {
            Ok(_) => Ok(()),
            Err(error) => Err(error),
        }
    } else {
        Ok(())
    }
}

// Attaches a source at its driver.
fn attach(source: &Source, drivers: &mut Vec<Box<dyn Driver>>) -> Result<u64, DriverError>
    requires place { source.now.driver < length drivers.old.items }
    requires proper { IsProper source.now.ty }
    requires suits { AtIndex source.now.driver (λ d. d.kind.suits source.now.ty ≡ true) (map (λ d. state d) drivers.old.items) }
    requires fresh { AtIndex source.now.driver (λ d. d.attached source.now.name ≡ None) (map (λ d. state d) drivers.old.items) }
    ensures { StepsAt source.now.driver (λ a b. Attaches source.now.name source.now.locator source.now.ty result a b)
        (map (λ d. state d) drivers.old.items) (map (λ d. state d) drivers.new.items) }
{
    attach_boxed(
        &mut drivers[source.driver as usize],
        &source.name,
        &source.locator,
        &source.ty,
    )
}

// The list of all sources for a session.
fn list(alloc: Global, sources: &[Source], scoped: &Scoped) -> Result<Seq<Attached>, Refused>
    requires { length sources.now < 2 ^ 32 }
    ensures { MatchResult result (λ list. list ≡ list_of (is_marked scoped.now) 0 sources.now) (IsWant (length sources.now)) }
{
    let mut list = Vec::new(alloc);
    'sources: for place in 0..sources.len() {
        match add(
            alloc,
            &mut list,
            &sources[place],
            scoped.mentions(place as u32),
        ) {
            Ok(()) => {}
            Err(NoMemory) => {
                return Err(Refused {
                    place,
                    error: DriverError::NoMemory,
                });
            }
        }
    }
    Ok(Seq::of(list))
}

// Adds what the list has of a source.
fn add(
    alloc: Global,
    list: &mut Vec<Attached>,
    source: &Source,
    marked: bool,
) -> Result<(), NoMemory>
    ensures { OnOk result (list.new.items ≡ list.old.items ++ listed marked source.now ∷ []) }
{
    let driver = if marked { Some(source.driver) } else { None };
    list.push(Attached {
        source: source.name.dup()?,
        ty: source.ty.dup(alloc)?,
        driver,
    })?;
    Ok(())
}
