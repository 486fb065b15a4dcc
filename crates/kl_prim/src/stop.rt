ghost use Rattle.std.specs.Prelude.{◌≡◌};
ghost use Rattle.kl_prim.specs.declared.stop.PrimStop.TheVariants.{NoMemory as OutOfMemory};

use kl_value::NoMemory;
use std::alloc::{AllocError, AllocFailed};

/// Why a primitive has no answer.
#[derive(Clone, Copy, PartialEq, Eq)]
pub enum PrimStop {
    /// The exact result leaves the 64-bit integers.
    Overflow,
    /// A growth was refused.
    NoMemory,
}

impl From<NoMemory> for PrimStop {
    ghost from_gives = { λ _ e. e ≡ OutOfMemory };

    fn from(_: NoMemory) -> Self {
        PrimStop::NoMemory
    }
}

impl From<AllocError> for PrimStop {
    ghost from_gives = { λ _ e. e ≡ OutOfMemory };

    fn from(_: AllocError) -> Self {
        PrimStop::NoMemory
    }
}

impl<T: Drop> From<AllocFailed<T>> for PrimStop {
    ghost from_gives = { λ _ e. e ≡ OutOfMemory };

    fn from(_: AllocFailed<T>) -> Self {
        PrimStop::NoMemory
    }
}
