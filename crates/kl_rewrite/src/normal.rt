//! Rewriting a whole term.
ghost use Rattle.std.specs.Prelude.{◌≡◌, ◌≤◌, ◌⊎◌, ◌↔◌, IsTrue, IfOk};
ghost use Rattle.kl_core.specs.Trees.{view};
ghost use Rattle.kl_rewrite.specs.Steps.{IsClosed, IsWithin, IsNormal, Steps};

use crate::walk::Walk;
use kl_base::NoMemory;
use kl_core::Term;
use std::alloc::Global;

/// So many steps are made at most.
pub const MOST_STEPS: u32 = 65_536;

/// What a term was rewritten to, and in how many steps.
#[derive(Drop)]
pub struct Normal {
    pub term: Term,
    pub steps: u32,
}

/// Rewrites the term until no rule makes anything of it that keeps the whole within 16,384 nodes and depth 512, or
/// `MOST_STEPS` steps are made.
///
/// # Errors
/// Want of memory.
pub fn rewrite(alloc: Global, term: Term) -> Result<Normal, NoMemory>
    requires closed { IsClosed (view term) }
    requires within { IsWithin (view term) }
    ensures steps { IfOk result (λ n. Steps n.steps (view term) (view n.term)) }
    ensures few { IfOk result (λ n. n.steps ≤ 65536) }
    ensures ends { IfOk result (λ n. IsNormal (view n.term) ⊎ (n.steps ≡ 65536)) }
    ensures stays_within { IfOk result (λ n. IsWithin (view n.term)) }
    ensures stays_closed { IfOk result (λ n. IsClosed (view n.term)) }
{
    let mut term = term;
    let mut walk = Walk::new(alloc, &term);
    let mut steps = 0;
    'steps: while steps < MOST_STEPS {
        if !walk.advance(&mut term)? {
            return Ok(Normal { term, steps });
        }
        steps += 1;
    }
    Ok(Normal { term, steps })
}

/// Whether no rule makes anything anywhere in the term that keeps the whole within 16,384 nodes and depth 512.
///
/// # Errors
/// Want of memory.
pub fn is_normal(alloc: Global, term: &Term) -> Result<bool, NoMemory>
    requires closed { IsClosed (view term.now) }
    requires within { IsWithin (view term.now) }
    ensures { IfOk result (λ b. IsTrue b ↔ IsNormal (view term.now)) }
{
    let mut copy = term.dup(alloc)?;
    let mut walk = Walk::new(alloc, &copy);
    let stepped = walk.advance(&mut copy)?;
    Ok(!stepped)
}
