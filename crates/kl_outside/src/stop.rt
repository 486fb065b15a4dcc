ghost use Rattle.std.specs.Prelude.{◌≡◌};
ghost use Rattle.kl_outside.specs.declared.stop.Stop.TheVariants.{NoMemory as OutOfMemory};

use kl_base::NoMemory;
use std::alloc::{AllocError, AllocFailed};

/// Why a call of the outside stopped.
#[derive(Clone, Copy, Debug, PartialEq, Eq)]
pub enum Stop {
    /// Reading or writing failed. Each such failure is counted by the object that failed, but for the opening of a
    /// path of which the files tell that it is missing.
    Failed,
    /// A growth was refused.
    NoMemory,
}

impl From<NoMemory> for Stop {
    ghost from_gives = { λ _ e. e ≡ OutOfMemory };

    fn from(_: NoMemory) -> Self {
        Stop::NoMemory
    }
}

impl From<AllocError> for Stop {
    ghost from_gives = { λ _ e. e ≡ OutOfMemory };

    fn from(_: AllocError) -> Self {
        Stop::NoMemory
    }
}

impl<T: Drop> From<AllocFailed<T>> for Stop {
    ghost from_gives = { λ _ e. e ≡ OutOfMemory };

    fn from(_: AllocFailed<T>) -> Self {
        Stop::NoMemory
    }
}
