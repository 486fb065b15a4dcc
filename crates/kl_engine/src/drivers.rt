//! The drivers that are handed in.
ghost use Rattle.std.specs.Prelude.{◌≡◌, All, ◌<◌, ◌+◌, ◌^◌, List, length, OnOk};
ghost use Rattle.kl_ask.specs.Driver.{State};
ghost use Rattle.kl_engine.specs.Answering.{AddsDriver, IsIdle};

use kl_ask::Driver;
use std::alloc::AllocError;

/// The drivers that a program may ask.
pub type Drivers = Vec<Box<dyn Driver>>;

/// What contracts see of drivers, through their boxes: what each of them means.
pub trait SeenAll {
    ghost states: { Self → List State };
}

impl SeenAll for Drivers {
    ghost use Rattle.std.specs.Prelude.{map};

    ghost states = { λ ds. map (λ d. (Driver-box d).state d.value) ds.items };
}

/// Adds a driver behind the others, to the list that `kleisli` takes.
///
/// # Errors
/// Want of memory; the driver is dropped then.
pub fn add_driver(drivers: &mut Drivers, driver: Box<dyn Driver>) -> Result<(), AllocError>
    requires idle { IsIdle (state driver) }
    requires others { All IsIdle (⟦<Drivers as SeenAll>⟧.states drivers.old) }
    requires few { length drivers.old.items + 1 < 2 ^ 32 }
    ensures added { OnOk result (AddsDriver (state driver) (⟦<Drivers as SeenAll>⟧.states drivers.old)
        (⟦<Drivers as SeenAll>⟧.states drivers.new)) }
    ensures count { OnOk result (length drivers.new.items ≡ length drivers.old.items + 1) }
{
    drivers.push(driver)?;
    Ok(())
}
