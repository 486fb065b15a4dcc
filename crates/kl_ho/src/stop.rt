//! Why there is no expansion.
ghost use Rattle.std.specs.Prelude.{◌≡◌};
ghost use Rattle.kl_ho.specs.declared.stop.Stop.TheVariants.{NoMemory as WantOfMemory};

use kl_base::NoMemory;
use std::alloc::{AllocError, AllocFailed};
use thiserror::Error;

/// Why an expression has no expansion.
#[derive(Debug, Drop, PartialEq, Eq, Error)]
pub(crate) enum Stop {
    /// More expressions than are let in.
    #[error("too many expressions")]
    TooBig,
    /// Want of memory; also where a program does not keep to the rules.
    #[error("out of memory")]
    NoMemory,
}

impl From<NoMemory> for Stop {
    ghost from_gives = { λ _ e. e ≡ WantOfMemory };

    fn from(_error: NoMemory) -> Stop {
        Stop::NoMemory
    }
}

impl From<AllocError> for Stop {
    ghost from_gives = { λ _ e. e ≡ WantOfMemory };

    fn from(_error: AllocError) -> Stop {
        Stop::NoMemory
    }
}

impl<T: Drop> From<AllocFailed<T>> for Stop {
    ghost from_gives = { λ _ e. e ≡ WantOfMemory };

    fn from(_error: AllocFailed<T>) -> Stop {
        Stop::NoMemory
    }
}
