//! The parts of the driver of made rows: attached sources and open cursors.
ghost use Rattle.std.specs.Prelude.{◌≡◌, ◌≤◌, ◌<◌, ◌^◌, IfOk, true};
ghost use Rattle.kl_tools.specs.Made.{most_rows};
ghost use Rattle.kl_tools.specs.Types.{is_made_type};

use kl_ask::Ask;
use kl_base::{NoMemory, Shared};
use kl_type::Ty;

/// A source: its type, which is shared with the cursors over it, its seed, and how many rows it has.
#[derive(Drop)]
pub struct Source {
    pub ty: Shared<Ty>,
    pub seed: u64,
    pub rows: u64,
    ghost typed: { is_made_type ty ≡ true },
    ghost small: { seed < 2 ^ 32 },
    ghost few: { rows ≤ most_rows },
}

/// An open cursor: its ask, its source, and the first row that it has not handed.
#[derive(Drop)]
pub struct Open {
    pub ask: Ask,
    pub source: Source,
    pub at: u64,
    ghost within: { at ≤ source.rows },
}

impl Source {
    /// An equal source, which shares the type.
    ///
    /// # Errors
    /// Where as many copies share the type as a count can hold.
    pub fn dup(&self) -> Result<Source, NoMemory>
        ensures ty { IfOk result (λ source. source.ty ≡ self.now.ty) }
        ensures seed { IfOk result (λ source. source.seed ≡ self.now.seed) }
        ensures rows { IfOk result (λ source. source.rows ≡ self.now.rows) }
    {
        let ty = self.ty.dup()?;
        Ok(Source {
            ty,
            seed: self.seed,
            rows: self.rows,
        })
    }
}
