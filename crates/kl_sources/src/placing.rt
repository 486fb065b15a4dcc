//! Which sources a catalogue names.
ghost use Rattle.std.specs.Prelude.{◌≡◌, ◌<◌, ◌^◌, ◌||◌, IfOk, All, length, map, [], None, is_some, true};
ghost use Rattle.std.specs.BTreeSet.{contains};
ghost use Rattle.kl_base.specs.Fields.{bytes_cmp};
ghost use Rattle.kl_type.specs.Ground.{IsProper};
ghost use Rattle.kl_scope.specs.Senses.{entry_named};
ghost use Rattle.kl_sources.specs.declared.placing.PlaceError.TheVariants.{NoMemory as WantOfMemory};
ghost use Rattle.kl_sources.specs.Sources.{ArePlaced, IsFit, kinds_of, same, driver_named, sources_of};
ghost use Rattle.kl_sources.specs.Sources as names;
ghost use Rattle.kl_sources.specs.Placing.{AnswersList, AnswersOne, Finds};

use crate::source::Source;
use kl_ask::{Driver, name_boxed, suits_boxed};
use kl_base::{Label, NoMemory};
use kl_catalogue::Entry;
use kl_scope::is_primitive;
use std::alloc::{AllocFailed, Global};
use std::collections::BTreeSet;
use thiserror::Error;

/// What is wrong with an entry of a catalogue.
#[derive(Debug, Drop, PartialEq, Eq, Error)]
pub enum PlaceError {
    /// Its name is that of an entry before it, or a primitive's.
    #[error("name twice")]
    Twice { name: Label },
    /// There is no driver of this name.
    #[error("no driver")]
    NoDriver { name: Label },
    /// The type of the source of this name does not suit its driver.
    #[error("type does not suit")]
    Unsuited { name: Label },
    /// Want of memory.
    #[error("out of memory")]
    NoMemory,
}

impl From<NoMemory> for PlaceError {
    ghost from_gives = { λ _ e. e ≡ WantOfMemory };

    fn from(_error: NoMemory) -> PlaceError {
        PlaceError::NoMemory
    }
}

impl<T: Drop> From<AllocFailed<T>> for PlaceError {
    ghost from_gives = { λ _ e. e ≡ WantOfMemory };

    fn from(_error: AllocFailed<T>) -> PlaceError {
        PlaceError::NoMemory
    }
}

/// The sources that the entries name, in their order, each at the first driver with its driver's name.
///
/// # Errors
/// What is wrong with the first entry that is wrong: first its name, then its driver, then its type. Want of memory.
pub fn place_sources(
    alloc: Global,
    entries: &[Entry],
    drivers: &Vec<Box<dyn Driver>>,
) -> Result<Vec<Source>, PlaceError>
    requires numbered { length drivers.now.items < 2 ^ 32 }
    requires proper { All (λ e. IsProper e.ty) entries.now }
    ensures exact { AnswersList (sources_of (kinds_of (map (λ d. state d) drivers.now.items)) [] entries.now) result }
    ensures placed { IfOk result (λ sources. ArePlaced (kinds_of (map (λ d. state d) drivers.now.items)) sources.items) }
{
    let mut taken = BTreeSet::new(alloc);
    let mut sources = Vec::new(alloc);
    'entries: for entry in entries {
        if is_taken(&taken, &entry.name) {
            return Err(PlaceError::Twice {
                name: entry.name.dup()?,
            });
        }
        let source = match place(alloc, entry, drivers) {
            Ok(source) => source,
            Err(error) => return Err(error),
        };
        let name = entry.name.dup()?;
        taken.insert(name)?;
        sources.push(source)?;
    }
    Ok(sources)
}

// Whether the name is one of these, or a primitive's.
fn is_taken(taken: &BTreeSet<Label>, name: &Label) -> bool
    ensures { result ≡ contains bytes_cmp taken.now name.now || is_some (entry_named name.now) }
{
    taken.contains(name) || is_primitive(name)
}

// An entry at its driver.
fn place(alloc: Global, entry: &Entry, drivers: &Vec<Box<dyn Driver>>) -> Result<Source, PlaceError>
    requires { length drivers.now.items < 2 ^ 32 }
    ensures answer { AnswersOne (names.at_driver entry.now
        (driver_named entry.now.driver (kinds_of (map (λ d. state d) drivers.now.items)))) result }
    ensures fit { IfOk result (IsFit (kinds_of (map (λ d. state d) drivers.now.items))) }
{
    let driver = match find_driver(drivers, &entry.driver) {
        Some(driver) => driver,
        None => {
            return Err(PlaceError::NoDriver {
                name: entry.driver.dup()?,
            });
        }
    };
    if !suits_boxed(&drivers[driver], &entry.ty) {
        return Err(PlaceError::Unsuited {
            name: entry.name.dup()?,
        });
    }
    Ok(Source {
        name: entry.name.dup()?,
        ty: entry.ty.dup(alloc)?,
        driver: driver as u32,
        locator: entry.locator.dup(alloc)?,
    })
}

// The place of the first driver with the name.
fn find_driver(drivers: &Vec<Box<dyn Driver>>, name: &Label) -> Option<usize>
    ensures { Finds name.now (kinds_of (map (λ d. state d) drivers.now.items)) result }
{
    'drivers: for i in 0..drivers.len() {
        if name_boxed(&drivers[i]) == name.slice() {
            return Some(i);
        }
    }
    None
}
