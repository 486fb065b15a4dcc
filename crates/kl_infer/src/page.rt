//! A page of limited size, on which variables get their numbers as they appear.
ghost use Rattle.std.specs.Prelude.{◌≡◌, ◌++◌, ◌+◌, ◌<◌, ◌≤◌, ◌==◌, ◌∷◌, [], cond, decimal, false, not, length, OnOk, IfOk};
ghost use Rattle.kl_infer.specs.Numbers.{Writes, has, number, add};

use itoa::Buffer;
use kl_base::NoMemory;
use std::alloc::Global;

const LIMIT: usize = 65_536;

/// What is written, up to the limit. Once something did not fit, nothing is written any more.
#[derive(Drop)]
pub struct Page {
    /// The variables so far, by their places, in the order of first appearance.
    pub seen: Vec<usize>,
    pub out: Vec<u8>,
    pub full: bool,
}

impl Page {
    pub fn new(alloc: Global) -> Page
        ensures seen { result.seen.items ≡ [] }
        ensures out { result.out.items ≡ [] }
        ensures full { result.full ≡ false }
    {
        Page {
            seen: Vec::new(alloc),
            out: Vec::new(alloc),
            full: false,
        }
    }

    /// Writes a piece.
    pub fn put(&mut self, piece: &[u8]) -> Result<(), NoMemory>
        ensures { OnOk result (Writes self.old self.new [] (λ all. piece.now)) }
    {
        if self.full {
            return Ok(());
        }
        if piece.len() > LIMIT.saturating_sub(self.out.len()) {
            self.full = true;
            return Ok(());
        }
        self.out.extend_from_slice(piece)?;
        Ok(())
    }

    /// Writes a variable behind its mark.
    pub fn name(&mut self, mark: &[u8], place: usize) -> Result<(), NoMemory>
        ensures { OnOk result (Writes self.old self.new (place ∷ []) (λ all. mark.now ++ decimal (number place all))) }
    {
        let number = self.number(place)?;
        self.put(mark)?;
        let mut buffer = Buffer::new();
        self.put(buffer.format(number).as_bytes())
    }

    // The number of a variable, which is seen from then on.
    fn number(&mut self, place: usize) -> Result<usize, NoMemory>
        ensures seen { OnOk result (self.new.seen.items ≡ cond self.old.full self.old.seen.items (add place self.old.seen.items)) }
        ensures out { self.new.out.items ≡ self.old.out.items }
        ensures full { self.new.full ≡ self.old.full }
        ensures number { IfOk result (λ n. self.old.full ≡ false → n ≡ number place (add place self.old.seen.items)) }
    {
        if self.full {
            return Ok(1);
        }
        let at = place_in(&self.seen, place);
        if at == self.seen.len() {
            self.seen.push(place)?;
        }
        Ok(at + 1)
    }
}

// The place of a variable in a list, or the list's length.
fn place_in(seen: &[usize], place: usize) -> usize
    ensures number { result + 1 ≡ number place seen.now }
    ensures has { (result == length seen.now) ≡ not (has place seen.now) }
    ensures within { result ≤ length seen.now }
{
    'seen: for i in 0..seen.len() {
        if seen[i] == place {
            return i;
        }
    }
    seen.len()
}
