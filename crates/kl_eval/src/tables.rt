//! Where an evaluation has the values of sources from.
ghost use Rattle.std.specs.Prelude.{IsSome};
ghost use Rattle.kl_ask.specs.World.{IsReady, types_of};
ghost use Rattle.kl_eval.specs.World.{Tabled};

use crate::scans::{no_rows, scan_attached};
use crate::stop::EvalStop;
use kl_ask::{Driver, Seen, Session};
use kl_value::Value;
use std::alloc::Global;

/// What gives the value of each source, each time anew.
pub trait Tables: Seen {
    /// The value of a source, by its number. One that no driver has attached is empty.
    ///
    /// # Errors
    /// `Driver` where the source's driver refused to go on; want of memory; and never an overflow.
    fn table(&mut self, alloc: Global, source: u32) -> Result<Value, EvalStop>
        requires ready { IsReady (Self.world self.old) }
        requires there { IsSome (types_of (Self.world self.old) source) }
        ensures { Tabled source result (Self.world self.old) (Self.world self.new) };
}

impl Tables for Session {
    fn table(&mut self, alloc: Global, source: u32) -> Result<Value, EvalStop> {
        let attached = &self.sources.slice()[source as usize];
        match attached.driver {
            Some(place) => scan_attached(
                alloc,
                &mut self.drivers,
                place as usize,
                attached,
                self.settings.fetch,
            ),
            None => no_rows(alloc, attached),
        }
    }
}
