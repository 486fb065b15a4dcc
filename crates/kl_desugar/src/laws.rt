//! What terms of programs mean, and that they make sense.
ghost use Rattle.std.specs.Prelude.{List, map};
ghost use Rattle.kl_type.specs.Ground.{Ground};
ghost use Rattle.kl_outcome.specs.Outcome.{Name};
ghost use Rattle.kl_syntax.specs.declared.tree.Program.{Program};
ghost use Rattle.kl_syntax.specs.Syntax.{Decls, Exp};
ghost use Rattle.kl_syntax.specs.View.{view, decls_of};
ghost use Rattle.kl_scope.specs.declared.scoped.Scoped.{Scoped};
ghost use Rattle.kl_scope.specs.Breaches.{Resolves};
ghost use Rattle.kl_meaning.specs.Tidy.{IsTidyProgram};
ghost use Rattle.kl_desugar.specs.Sense.{MakesSense};
ghost use Rattle.kl_desugar.specs.Translation.{term_of, Means};

/// The law of translation: wherever the program makes sense, its term means what the program means.
pub fn translation_laws()
    ensures { (ds : Decls) (e : Exp) (sources : List Name) → Means ds e sources (term_of ds e sources) }
{}

/// The laws of sense: a program that is in scope is tidy, and the term of a tidy program has, over sources of the
/// language's types, each type that the program has.
pub fn sense_laws()
    ensures tidy { (p : Program) (sources : List Name) (s : Scoped) → Resolves p sources s
        → IsTidyProgram (decls_of s.program.defs) (view s.program.last) }
    ensures makes_sense { (ds : Decls) (e : Exp) (sources : List (Name × Ground)) → MakesSense ds e sources }
{}
