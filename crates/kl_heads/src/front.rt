//! The front of a text, which may be a head.
ghost use Rattle.std.specs.Prelude.{◌≡◌};
ghost use Rattle.kl_heads.specs.Fronts.{HasTaken, IsUnsaid, Looks, look_at};
ghost use Rattle.kl_heads.specs.Machine.{run, start};

use crate::machine::Machine;
use crate::scan::{Halt, Scanned, scan};
use kl_type::Ty;
use std::alloc::Global;

/// What the first bytes of a text have come to, as far as they may begin a head.
#[derive(Drop)]
pub struct Front {
    alloc: Global,
    machine: Machine,
    // Up to where the machine has taken the bytes.
    scanned: usize,
}

/// What stands at the front of a text.
#[derive(Drop)]
pub enum Look {
    /// A head, with so many bytes.
    Head(Ty, usize),
    /// No head: what stands there is for the reader of items.
    Items,
    /// The front of a head, and perhaps of an item.
    Unknown,
}

impl Front {
    /// Before any bytes. Takes no memory.
    pub fn new(alloc: Global) -> Front
        ensures machine { result.machine ≡ start }
        ensures scanned { result.scanned ≡ 0 }
    {
        Front {
            alloc,
            machine: Machine::new(alloc),
            scanned: 0,
        }
    }

    /// What stands at the front of all bytes that have come. `finished`: no more come. From call to call the bytes only
    /// grow.
    ///
    /// # Errors
    /// - `Bad`, `TooDeep`: with the place of the byte that cannot follow, or opens a bracket inside 256 others.
    /// - `NoMemory`: want of memory; all bytes are taken again at the next call.
    pub fn look(&mut self, bytes: &[u8], finished: bool) -> Result<Look, Halt>
        requires { HasTaken bytes.now self.old.scanned self.old.machine }
        ensures looks { Looks result (look_at bytes.now finished (run 256 bytes.now start)) }
        ensures taken { IsUnsaid result → HasTaken bytes.now self.new.scanned self.new.machine }
    {
        let before = self.scanned;
        match scan(self.alloc, &mut self.machine, &bytes[before..]) {
            Ok(Scanned::More) => {
                self.scanned = bytes.len();
                if !finished {
                    Ok(Look::Unknown)
                } else if self.machine.may_be_item() {
                    Ok(Look::Items)
                } else {
                    Err(Halt::Bad(bytes.len()))
                }
            }
            Ok(Scanned::Ends(ty, count)) => Ok(Look::Head(ty, before + count)),
            Ok(Scanned::NoHead) => Ok(Look::Items),
            Err(Halt::Bad(count)) => Err(Halt::Bad(before + count)),
            Err(Halt::TooDeep(count)) => Err(Halt::TooDeep(before + count)),
            Err(Halt::NoMemory) => {
                self.machine.restart(self.alloc);
                self.scanned = 0;
                Err(Halt::NoMemory)
            }
        }
    }
}
