//! Why a program is not in scope.
ghost use Rattle.std.specs.Prelude.{◌≡◌};
ghost use Rattle.kl_scope.specs.declared.refusal.ScopeError.TheVariants.{NoMemory as WantOfMemory};

use kl_base::{Label, NoMemory};
use thiserror::Error;

/// Why a program is not in scope. Tokens are counted from 0.
#[derive(Debug, Drop, PartialEq, Eq, Error)]
pub enum ScopeError {
    /// A name that is no variable in scope, no earlier definition, no source and, where it is called, no primitive.
    #[error("unknown name at token {token}")]
    Unknown { name: Label, token: u32 },
    /// The later one of two: a variable that one pattern binds twice, a label in one record, record pattern or `case`,
    /// or a definition that is named like an earlier one, a source or a primitive.
    #[error("name twice at token {token}")]
    Twice { name: Label, token: u32 },
    /// A function without its argument, a function or a primitive with another number of them, or any other name with
    /// arguments. A primitive's name that is not called is unknown.
    #[error("name misapplied at token {token}")]
    Misapplied { name: Label, token: u32 },
    /// The first token of a constant, a bare name or a variant pattern where the pattern has to match: in a parameter,
    /// a `let` or the payload of a `case`.
    #[error("refutable pattern at token {token}")]
    Refutable { token: u32 },
    /// Want of memory.
    #[error("out of memory")]
    NoMemory,
}

impl From<NoMemory> for ScopeError {
    ghost from_gives = { λ _ e. e ≡ WantOfMemory };

    fn from(_error: NoMemory) -> ScopeError {
        ScopeError::NoMemory
    }
}
