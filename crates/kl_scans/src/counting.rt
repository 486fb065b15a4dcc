//! Counts of the starts of scans.
ghost use Rattle.kl_scans.specs.Log.{CountsStart};

use kl_base::Seq;

/// Counts one start more in the entry at a place, where there is one. A count stands still at its greatest value.
pub fn count_start(starts: &mut Seq<(u32, u64)>, number: u32)
    ensures { CountsStart number starts.old starts.new }
{
    let starts = starts.slice_mut();
    if (number as usize) < starts.len() {
        let entry = &mut starts[number as usize];
        entry.1 = entry.1.saturating_add(1);
    }
}
