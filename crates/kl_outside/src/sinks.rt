ghost use Rattle.kl_outside.specs.Sinks.{SinkState, Writes, WritesWhole};

use crate::Stop;

/// What takes bytes, a piece at a time.
pub trait Sink {
    /// What is known of the sink. `taken`: the bytes that it took so far, where it tells them; no call changes whether
    /// it does. `faults`: how often a write failed. `wants`: how often a write found no memory. No count falls, and
    /// one that has reached the greatest u64 stays there.
    ghost state: { Self → SinkState };

    /// Takes the first bytes of a piece, at least one where the piece has any, and answers how many.
    ///
    /// # Errors
    /// After an error nothing was taken.
    /// - `Failed`: the write failed, and `faults` rose. So it is where the sink would take nothing of a piece that is
    ///   not empty.
    /// - `NoMemory`: the sink found no memory for the piece, and `wants` rose.
    fn write(&mut self, piece: &[u8]) -> Result<usize, Stop>
        ensures { Writes piece.now result (state self.old) (state self.new) };
}

/// Writes a whole piece. It takes no memory of its own.
///
/// # Errors
/// After an error the sink took the first bytes of the piece, and perhaps all.
/// - `Failed`: a write failed, and the sink's count of faults rose.
/// - `NoMemory`: the sink found no memory, and its count of wants rose.
pub fn write_whole<S: Sink>(sink: &mut S, piece: &[u8]) -> Result<(), Stop>
    ensures { WritesWhole piece.now result (S.state sink.old) (S.state sink.new) }
{
    let mut rest = piece;
    while !rest.is_empty() {
        let count = sink.write(rest)?;
        rest = &rest[count..];
    }
    Ok(())
}
