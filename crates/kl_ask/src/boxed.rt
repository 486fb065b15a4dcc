//! The calls of a driver in a box. Code above makes its calls here, so that it meets no `dyn` but in clauses.
ghost use Rattle.std.specs.Prelude.{◌≡◌, ◌<◌, true, None, IsSome};
ghost use Rattle.kl_type.specs.Ground.{IsProper, ground_of};
ghost use Rattle.kl_ask.specs.Driver.{CanStart, Suits, Attaches, Starts, Pulls, Finishes};

use crate::ask::{Abilities, Ask, DriverError};
use crate::driver::Driver;
use kl_base::{Label, Text};
use kl_type::Ty;
use kl_value::Value;

/// The name of a driver.
pub fn name_boxed(driver: &Box<dyn Driver>) -> &[u8]
    ensures { result.now ≡ (state driver.now).kind.name }
{
    driver.name()
}

/// What a driver can do.
pub fn abilities_boxed(driver: &Box<dyn Driver>) -> Abilities
    ensures { result ≡ (state driver.now).kind.abilities }
{
    driver.abilities()
}

/// Whether a driver can hold a source of a type.
pub fn suits_boxed(driver: &Box<dyn Driver>, ty: &Ty) -> bool
    ensures gives { result ≡ (state driver.now).kind.suits ty.now }
    ensures only { result ≡ true → Suits (state driver.now).kind.abilities (ground_of ty.now) }
{
    driver.suits(ty)
}

/// How many rows a driver handed.
pub fn handed_boxed(driver: &Box<dyn Driver>) -> u64
    ensures { result ≡ (state driver.now).handed }
{
    driver.handed()
}

/// Attaches a source.
///
/// # Errors
/// Those of `Driver::attach`.
pub fn attach_boxed(
    driver: &mut Box<dyn Driver>,
    source: &Label,
    locator: &Text,
    ty: &Ty,
) -> Result<u64, DriverError>
    requires proper { IsProper ty.now }
    requires suits { (state driver.old).kind.suits ty.now ≡ true }
    requires fresh { (state driver.old).attached source.now ≡ None }
    ensures { Attaches source.now locator.now ty.now result (state driver.old) (state driver.new) }
{
    driver.attach(source, locator, ty)
}

/// Opens a cursor.
///
/// # Errors
/// Those of `Driver::start`.
pub fn start_boxed(driver: &mut Box<dyn Driver>, ask: &Ask) -> Result<u64, DriverError>
    requires { CanStart (state driver.old) ask.now }
    ensures { Starts ask.now result (state driver.old) (state driver.new) }
{
    driver.start(ask)
}

/// Appends the next rows of a cursor, or answers that none is left.
///
/// # Errors
/// Those of `Driver::pull`.
pub fn pull_boxed(
    driver: &mut Box<dyn Driver>,
    cursor: u64,
    most: u32,
    into: &mut Vec<Value>,
) -> Result<bool, DriverError>
    requires is_open { IsSome ((state driver.old).cursors cursor) }
    requires room { 0 < most }
    ensures { Pulls cursor most into.old.items into.new.items result (state driver.old) (state driver.new) }
{
    driver.pull(cursor, most, into)
}

/// Closes a cursor.
pub fn finish_boxed(driver: &mut Box<dyn Driver>, cursor: u64)
    requires { IsSome ((state driver.old).cursors cursor) }
    ensures { Finishes cursor (state driver.old) (state driver.new) }
{
    driver.finish(cursor)
}
