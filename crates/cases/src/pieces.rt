//! A sink that takes small pieces.

use kl_outside::{MemSink, Sink, Stop};

/// Takes at most so many bytes of a piece, and one at least.
#[derive(Drop)]
pub struct Pieces {
    pub sink: MemSink,
    pub most: usize,
}

impl Sink for Pieces {
    ghost use Rattle.kl_outside.specs.MemorySink.{sink_state};

    ghost state = { λ p. sink_state p.sink };

    fn write(&mut self, piece: &[u8]) -> Result<usize, Stop> {
        let count = piece.len().min(self.most.max(1));
        self.sink.write(&piece[..count])
    }
}
