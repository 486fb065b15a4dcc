ghost use Rattle.std.specs.Prelude.{◌≡◌};

use kl_outside::Stop;
use thiserror::Error;

/// Why a reader answers no item.
#[derive(Clone, Copy, Debug, PartialEq, Eq, Error)]
pub enum ReadError {
    /// The bytes are in no exchange text. The place is the length of the longest prefix that begins one.
    #[error("no exchange text from byte {place} on")]
    Bad { place: u64 },
    /// The byte at the place opens a bracket inside 256 others.
    #[error("more than 256 brackets are open at byte {place}")]
    TooDeep { place: u64 },
    #[error("out of memory")]
    NoMemory,
}

/// Why a reader of an open file answers no item.
#[derive(Clone, Copy, Debug, PartialEq, Eq, Error)]
pub enum FileError {
    #[error("a read failed")]
    Read,
    #[error("out of memory")]
    NoMemory,
    /// The file is no exchange text. The place is the length of its longest front that begins one.
    #[error("no exchange text from byte {place} on")]
    Bad { place: u64 },
    /// The byte at the place opens a bracket inside 256 others.
    #[error("more than 256 brackets are open at byte {place}")]
    TooDeep { place: u64 },
    /// The file has more bytes than are looked at, and less than an item stands behind the items up to there.
    #[error("the file has more bytes than are looked at")]
    TooLong,
}

/// Why a value is not printed.
#[derive(Clone, Copy, Debug, PartialEq, Eq, Error)]
pub enum PrintError {
    #[error("a write failed")]
    Failed,
    #[error("out of memory")]
    NoMemory,
}

impl From<Stop> for PrintError {
    ghost use Rattle.kl_exchange.specs.Printing.{error_of};

    ghost from_gives = { λ stop e. e ≡ error_of stop };

    fn from(stop: Stop) -> PrintError {
        match stop {
            Stop::Failed => PrintError::Failed,
            Stop::NoMemory => PrintError::NoMemory,
        }
    }
}
