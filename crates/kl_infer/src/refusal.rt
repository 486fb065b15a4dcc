//! Why an inference goes no further.
ghost use Rattle.std.specs.Prelude.{◌≡◌, MatchResult, Some, None, true, false};
ghost use Rattle.kl_infer.specs.declared.refusal.Refusal.TheVariants.{NoType, NoMemory as WantOfMemory};

use kl_base::NoMemory;
use std::alloc::{AllocError, AllocFailed};

/// Why no more is asked.
#[derive(Drop)]
pub enum Refusal {
    /// Nothing meets what was asked.
    NoType,
    /// Want of memory.
    NoMemory,
}

impl From<NoMemory> for Refusal {
    ghost from_gives = { λ _ e. e ≡ WantOfMemory };

    fn from(_error: NoMemory) -> Refusal {
        Refusal::NoMemory
    }
}

impl From<AllocError> for Refusal {
    ghost from_gives = { λ _ e. e ≡ WantOfMemory };

    fn from(_error: AllocError) -> Refusal {
        Refusal::NoMemory
    }
}

impl<T: Drop> From<AllocFailed<T>> for Refusal {
    ghost from_gives = { λ _ e. e ≡ WantOfMemory };

    fn from(_error: AllocFailed<T>) -> Refusal {
        Refusal::NoMemory
    }
}

/// Refuses what does not hold.
pub fn met(holds: bool) -> Result<(), Refusal>
    ensures { MatchResult result (λ _. holds ≡ true) (λ e. (holds ≡ false) × (e ≡ NoType)) }
{
    if holds { Ok(()) } else { Err(Refusal::NoType) }
}

/// The number, if there is one.
pub fn found(number: Option<u64>) -> Result<u64, Refusal>
    ensures { MatchResult result (λ n. number ≡ Some n) (λ e. (number ≡ None) × (e ≡ NoType)) }
{
    match number {
        Some(number) => Ok(number),
        None => Err(Refusal::NoType),
    }
}
