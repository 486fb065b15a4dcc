//! A machine over several bytes.
ghost use Rattle.std.specs.Prelude.{◌≡◌};
ghost use Rattle.kl_heads.specs.Machine.{run};
ghost use Rattle.kl_heads.specs.Scan.{Scans};

use crate::machine::{Machine, Stop, advance};
use kl_type::Ty;
use std::alloc::Global;

#[derive(Drop)]
pub enum Scanned {
    /// All bytes have been taken, and the head has not ended.
    More,
    /// The head has ended, with so many bytes.
    Ends(Ty, usize),
    /// The bytes are no head, and may be an item.
    NoHead,
}

/// Why a scan stops, and how many bytes were taken before.
#[derive(Clone, Copy)]
pub enum Halt {
    Bad(usize),
    TooDeep(usize),
    NoMemory,
}

/// Takes bytes up to a head's end, or to where they show that no head is begun.
///
/// # Errors
/// `Bad` and `TooDeep` with the place among the bytes at which a head cannot go on, or nests too deep; `NoMemory`.
pub fn scan(alloc: Global, machine: &mut Machine, bytes: &[u8]) -> Result<Scanned, Halt>
    ensures { Scans bytes.now machine.new result (run 256 bytes.now machine.old) }
{
    for (at, byte) in bytes.iter().enumerate() {
        match advance(alloc, machine, *byte) {
            Ok(None) => {}
            Ok(Some(ty)) => return Ok(Scanned::Ends(ty, at + 1)),
            Err(Stop::NoHead) => return Ok(Scanned::NoHead),
            Err(Stop::Bad) => return Err(Halt::Bad(at)),
            Err(Stop::TooDeep) => return Err(Halt::TooDeep(at)),
            Err(Stop::NoMemory) => return Err(Halt::NoMemory),
        }
    }
    Ok(Scanned::More)
}
