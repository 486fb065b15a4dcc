//! The calls for scans, of the driver at a place of a list.
ghost use Rattle.std.specs.Prelude.{◌≡◌, ◌<◌, IsSome, length, map};
ghost use Rattle.kl_ask.specs.Driver.{CanStart, Starts, Pulls, Finishes};
ghost use Rattle.kl_ask.specs.Lists.{AtIndex, StepsAt};

use kl_ask::{
    Abilities, Driver, DriverError, abilities_boxed, finish_boxed, pull_boxed, start_boxed,
};
use kl_plan::Scan;
use kl_value::Value;

/// What the scan's driver can do.
pub fn abilities_at(drivers: &[Box<dyn Driver>], scan: &Scan) -> Abilities
    requires { scan.now.driver < length drivers.now }
    ensures { AtIndex scan.now.driver (λ s. result ≡ s.kind.abilities) (map (λ d. state d) drivers.now) }
{
    abilities_boxed(&drivers[scan.driver as usize])
}

/// Opens a cursor of the scan's driver for its ask.
///
/// # Errors
/// Those of `Driver::start`.
pub fn start_at(drivers: &mut Vec<Box<dyn Driver>>, scan: &Scan) -> Result<u64, DriverError>
    requires place { scan.now.driver < length drivers.old.items }
    requires can { AtIndex scan.now.driver (λ s. CanStart s scan.now.ask) (map (λ d. state d) drivers.old.items) }
    ensures { StepsAt scan.now.driver (λ a b. Starts scan.now.ask result a b) (map (λ d. state d) drivers.old.items)
        (map (λ d. state d) drivers.new.items) }
{
    start_boxed(&mut drivers[scan.driver as usize], &scan.ask)
}

/// Appends the next rows of a cursor of the scan's driver, or answers that none is left.
///
/// # Errors
/// Those of `Driver::pull`.
pub fn pull_at(
    drivers: &mut Vec<Box<dyn Driver>>,
    scan: &Scan,
    cursor: u64,
    fetch: u32,
    into: &mut Vec<Value>,
) -> Result<bool, DriverError>
    requires place { scan.now.driver < length drivers.old.items }
    requires is_open { AtIndex scan.now.driver (λ s. IsSome (s.cursors cursor)) (map (λ d. state d) drivers.old.items) }
    requires room { 0 < fetch }
    ensures { StepsAt scan.now.driver (λ a b. Pulls cursor fetch into.old.items into.new.items result a b)
        (map (λ d. state d) drivers.old.items) (map (λ d. state d) drivers.new.items) }
{
    pull_boxed(&mut drivers[scan.driver as usize], cursor, fetch, into)
}

/// Closes a cursor of the scan's driver.
pub fn finish_at(drivers: &mut Vec<Box<dyn Driver>>, scan: &Scan, cursor: u64)
    requires place { scan.now.driver < length drivers.old.items }
    requires is_open { AtIndex scan.now.driver (λ s. IsSome (s.cursors cursor)) (map (λ d. state d) drivers.old.items) }
    ensures { StepsAt scan.now.driver (λ a b. Finishes cursor a b) (map (λ d. state d) drivers.old.items)
        (map (λ d. state d) drivers.new.items) }
{
    finish_boxed(&mut drivers[scan.driver as usize], cursor)
}
