ghost use Rattle.std.specs.Prelude.{◌≡◌, ◌↔◌, [], Some, length, IfOk, IsErrOf, IsTrue, MatchResult};
ghost use Rattle.kl_outside.specs.Sinks.{Writes};

use crate::schedule::Schedule;
use crate::{Sink, Stop};
use kl_base::NoMemory;
use std::alloc::Global;

/// A sink in memory, which tells its bytes and can be told to fail. It takes every piece whole.
#[derive(Drop)]
pub struct MemSink {
    taken: Vec<u8>,
    schedule: Schedule,
    wants: u64,
}

impl MemSink {
    ghost use Rattle.kl_outside.specs.Schedule.{list_call};
    ghost use Rattle.kl_outside.specs.MemorySink.{sink_state, sink_calls};

    /// A sink that took nothing yet, with no call listed to fail.
    pub fn new(alloc: Global) -> MemSink
        ensures state { sink_state result ≡ record { taken = Some []; faults = 0; wants = 0 } }
        ensures calls { sink_calls result ≡ record { listed = []; made = 0; faults = 0 } }
    {
        MemSink {
            taken: Vec::new(alloc),
            schedule: Schedule::new(alloc),
            wants: 0,
        }
    }

    /// Has a call of `write` fail, counted from 1.
    ///
    /// # Errors
    /// Want of memory; the sink is as it was then.
    pub fn fail_at(&mut self, call: u64) -> Result<(), NoMemory>
        ensures state { sink_state self.new ≡ sink_state self.old }
        ensures calls { MatchResult result (λ _. sink_calls self.new ≡ list_call call (sink_calls self.old))
            (λ _. sink_calls self.new ≡ sink_calls self.old) }
    {
        self.schedule.list(call)
    }

    /// The bytes that the sink took, in their order.
    pub fn bytes(&self) -> &[u8]
        ensures { (sink_state self.now).taken ≡ Some result.now }
    {
        &self.taken
    }
}

impl Sink for MemSink {
    ghost use Rattle.kl_outside.specs.Schedule.{is_next_listed, after_call};
    ghost use Rattle.kl_outside.specs.MemorySink.{sink_state, sink_calls};

    ghost state = { λ m. sink_state m };

    /// Takes the whole piece. It is `Failed` exactly where the call is listed.
    fn write(&mut self, piece: &[u8]) -> Result<usize, Stop>
        ensures writes { Writes piece.now result (sink_state self.old) (sink_state self.new) }
        ensures whole { IfOk result (λ count. count ≡ length piece.now) }
        ensures failed { IsErrOf result Stop.Failed ↔ IsTrue (is_next_listed (sink_calls self.old)) }
        ensures calls { sink_calls self.new ≡ after_call (sink_calls self.old) }
    {
        if self.schedule.make_call() {
            self.schedule.fail_call();
            return Err(Stop::Failed);
        }
        if self.taken.extend_from_slice(piece).is_err() {
            self.wants = self.wants.saturating_add(1);
            return Err(Stop::NoMemory);
        }
        Ok(piece.len())
    }
}
