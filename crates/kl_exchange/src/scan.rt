//! A machine over several bytes.
ghost use Rattle.std.specs.Prelude.{◌≡◌};
ghost use Rattle.kl_exchange.specs.Machine.{IsSound, run};
ghost use Rattle.kl_exchange.specs.Scan.{Scans};

use crate::machine::{Machine, Stop, advance};
use crate::memo::Memo;
use crate::spans::take_span;
use kl_base::NoMemory;
use kl_value::Value;
use std::alloc::Global;

#[derive(Drop)]
pub enum Scanned {
    /// All bytes have been taken, and the item has not ended.
    More,
    /// The item has ended, with so many bytes.
    Ends(Value, usize),
}

/// Why a scan stops, and how many bytes were taken before.
#[derive(Clone, Copy)]
pub enum Halt {
    Bad(usize),
    TooDeep(usize),
    NoMemory,
}

impl From<NoMemory> for Halt {
    ghost use Rattle.kl_exchange.specs.declared.scan.Halt.TheVariants as halt;

    ghost from_gives = { λ _ e. e ≡ halt.NoMemory };

    fn from(_error: NoMemory) -> Halt {
        Halt::NoMemory
    }
}

/// Takes bytes up to an item's end. Behind it the machine stands before the next item.
pub fn scan(
    alloc: Global,
    memo: &mut Memo,
    machine: &mut Machine,
    bytes: &[u8],
) -> Result<Scanned, Halt>
    requires { IsSound 256 machine.old.stack machine.old.phase }
    ensures { Scans bytes.now machine.new result (run 256 bytes.now machine.old) }
{
    let mut at = 0;
    'bytes: while at < bytes.len() {
        let count = take_span(alloc, memo, machine, &bytes[at..])?;
        at += count;
        if count > 0 {
            continue;
        }
        match advance(alloc, memo, machine, bytes[at]) {
            Ok(None) => at += 1,
            Ok(Some(value)) => return Ok(Scanned::Ends(value, at + 1)),
            Err(Stop::Bad) => return Err(Halt::Bad(at)),
            Err(Stop::TooDeep) => return Err(Halt::TooDeep(at)),
            Err(Stop::NoMemory) => return Err(Halt::NoMemory),
        }
    }
    Ok(Scanned::More)
}
