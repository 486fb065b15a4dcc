//! The law of the rules.
ghost use Rattle.std.specs.Prelude.{ℕ};
ghost use Rattle.kl_core.specs.Trees.{Tree};
ghost use Rattle.kl_rules.specs.Rules.{RewriteRule};
ghost use Rattle.kl_rules.specs.Preserving.{Preserves};

/// What a rule makes of a term makes sense wherever that does, at the same types, and has the same items and end over all
/// tables and values of these types.
pub fn rule_laws()
    ensures keeps { (i : ℕ) (t u : Tree) → RewriteRule i t u → Preserves t u }
{}
