//! Texts one behind another in one list of bytes.
ghost use Rattle.std.specs.Prelude.{ℕ, ◌<◌, ◌≤◌, ◌≡◌, length, slice_index};
ghost use Rattle.kl_flat.specs.Texts.{start};

use kl_base::NoMemory;
use std::alloc::Global;

/// Texts one behind another: each ends where its end says, and the next begins there.
#[derive(Drop)]
pub struct Texts {
    bytes: Vec<u8>,
    ends: Vec<usize>,
    ghost ordered: { (i : ℕ) → i < length ends.items → start ends.items i ≤ slice_index ends.items i },
    ghost within: { (i : ℕ) → i < length ends.items → slice_index ends.items i ≤ length bytes.items },
    ghost whole: { start ends.items (length ends.items) ≡ length bytes.items },
}

impl Texts {
    ghost use Rattle.std.specs.Prelude.{[], ◌∷◌, ◌++◌, All, IfOk};
    ghost use Rattle.kl_flat.specs.Held.{text_at};
    ghost use Rattle.kl_flat.specs.Picking.{Picks};
    ghost use Rattle.kl_flat.specs.declared.held.Cells.TheVariants as cells;

    /// No text.
    pub(crate) fn new(alloc: Global) -> Texts
        ensures { result.ends.items ≡ [] }
    {
        Texts {
            bytes: Vec::new(alloc),
            ends: Vec::new(alloc),
        }
    }

    /// Puts a text behind the others.
    ///
    /// # Errors
    /// Want of memory.
    pub(crate) fn push(&mut self, text: &[u8]) -> Result<(), NoMemory>
        ensures bytes { IfOk result (λ _. self.new.bytes.items ≡ self.old.bytes.items ++ text.now) }
        ensures ends { IfOk result (λ _. self.new.ends.items ≡ self.old.ends.items ++ length self.new.bytes.items ∷ []) }
    {
        self.ends.reserve(1)?;
        self.bytes.extend_from_slice(text)?;
        self.ends.push_reserved(self.bytes.len());
        Ok(())
    }

    /// The text at a place.
    pub fn get(&self, at: usize) -> &[u8]
        requires { at < length self.now.ends.items }
        ensures { result.now ≡ text_at self.now at }
    {
        let start = if at == 0 { 0 } else { self.ends[at - 1] };
        let bytes = self.bytes.as_slice();
        &bytes[start..self.ends[at]]
    }

    /// The texts of these places, in this order.
    ///
    /// # Errors
    /// Want of memory.
    pub(crate) fn picked(&self, alloc: Global, places: &[usize]) -> Result<Texts, NoMemory>
        requires { All (λ p. p < length self.now.ends.items) places.now }
        ensures { IfOk result (λ picked. Picks places.now (length places.now) (cells.Text self.now) (cells.Text picked)) }
    {
        let mut picked = Texts::new(alloc);
        for place in places {
            picked.push(self.get(*place))?;
        }
        Ok(picked)
    }
}
