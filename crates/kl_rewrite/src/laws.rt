//! The law of steps.
ghost use Rattle.std.specs.Prelude.{ℕ};
ghost use Rattle.kl_core.specs.Trees.{Tree};
ghost use Rattle.kl_rules.specs.Preserving.{Preserves};
ghost use Rattle.kl_rewrite.specs.Steps.{Step, Steps};

/// What steps lead to makes sense wherever what they start from does, at the same types, and has the same items and end
/// over all tables and values of these types.
pub fn step_laws()
    ensures one { (t u : Tree) → Step t u → Preserves t u }
    ensures many { (n : ℕ) (t u : Tree) → Steps n t u → Preserves t u }
{}
