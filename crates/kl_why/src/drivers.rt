//! The drivers that a catalogue may name.
ghost use Rattle.std.specs.Prelude.{◌≡◌, ◌+◌, List, None, OnOk, length};
ghost use Rattle.kl_ask.specs.Driver.{State};
ghost use Rattle.kl_outcome.specs.Outcome.{Name};
ghost use Rattle.kl_sources.specs.Attaching.{HaveNone};

use kl_ask::Driver;
use std::alloc::AllocError;

/// The drivers that a catalogue may name.
pub type Drivers = Vec<Box<dyn Driver>>;

/// What contracts see of drivers, through their boxes: what each of them means.
pub trait SeenAll {
    ghost states: { Self → List State };
}

impl SeenAll for Drivers {
    ghost use Rattle.std.specs.Prelude.{map};

    ghost states = { λ ds. map (λ d. (Driver-box d).state d.value) ds.items };
}

/// Adds a driver behind the others. Nothing is attached at any.
///
/// # Errors
/// Want of memory; the driver is dropped then.
pub fn add_driver(drivers: &mut Drivers, driver: Box<dyn Driver>) -> Result<(), AllocError>
    requires fresh { (x : Name) → (state driver).attached x ≡ None }
    requires clear { HaveNone (⟦<Drivers as SeenAll>⟧.states drivers.old) }
    ensures clear { OnOk result (HaveNone (⟦<Drivers as SeenAll>⟧.states drivers.new)) }
    ensures count { OnOk result (length drivers.new.items ≡ length drivers.old.items + 1) }
{
    drivers.push(driver)?;
    Ok(())
}
