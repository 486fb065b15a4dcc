//! Programs as terms.
ghost use Rattle.std.specs.Prelude.{◌≡◌, ℕ, [], false, map, reverse, IfOk};
ghost use Rattle.kl_syntax.specs.Syntax.{no_decls};
ghost use Rattle.kl_syntax.specs.View.{view, decl_of, decls_of};
ghost use Rattle.kl_core.specs.Positions.{occurs_in};
ghost use Rattle.kl_core.specs.Trees as term;
ghost use Rattle.kl_desugar.specs.Sense.{HasSense};
ghost use Rattle.kl_desugar.specs.Small.{StaysSmall};
ghost use Rattle.kl_desugar.specs.Mentioned.{ReadsMentioned};
ghost use Rattle.kl_desugar.specs.Translation.{tree, with_code, codes_after, codes_first, term_of, Means};
ghost use Rattle.kl_desugar.specs.States.{codes_of, definition_code};

use crate::codes::{Codes, Definition, Found, find};
use crate::expressions::{tree, tree_within};
use crate::reach::reached;
use kl_base::{Label, NoMemory, Shared};
use kl_core::Term;
use kl_scope::Scoped;
use kl_syntax::{Decl, Expr, Program};
use std::alloc::Global;

// What a definition stands for, over those before it.
fn define(alloc: Global, def: &Decl, codes: &Codes) -> Result<Definition, NoMemory>
    ensures { IfOk result (λ d. with_code d.name (definition_code d.function (term.view d.term)) (codes_of codes.now)
        ≡ codes_after (decl_of def.now.param def.now no_decls) (codes_of codes.now)) }
{
    let name = def.name.text.dup()?;
    let scope = Vec::new(alloc);
    match &def.param {
        Some(param) => {
            let term = tree_within(alloc, &def.body, param, codes, &scope)?;
            Ok(Definition {
                name,
                function: true,
                term: Shared::new(alloc, term.into_inner())?,
            })
        }
        None => Ok(Definition {
            name,
            function: false,
            term: constant(alloc, &def.body, codes)?,
        }),
    }
}

// The term of a definition without a parameter. Where that is the name of another one, the two share a term.
#[tactic(auto, using(crate::proofs::Naming::other_name))]
fn constant(alloc: Global, body: &Expr, codes: &Codes) -> Result<Shared<Term>, NoMemory>
    ensures { IfOk result (λ t. term.view t ≡ tree (view body.now) (codes_of codes.now) []) }
{
    if let Expr::Name(word) = body {
        if let Found::Value(term) = find(codes, &word.text)? {
            return term.dup();
        }
    }
    let scope = Vec::new(alloc);
    Shared::new(alloc, tree(alloc, body, codes, &scope)?)
}

// What definitions stand for, of which the last is first.
#[tactic(auto, using(crate::proofs::Naming::define_next))]
fn define_all<'a>(
    alloc: Global,
    defs: Vec<&Decl>,
    sources: &'a [Label],
) -> Result<Codes<'a>, NoMemory>
    ensures { IfOk result (λ codes. codes_of codes
        ≡ codes_after (decls_of (reverse (map (λ d. d.now) defs.entry.items))) (codes_first sources.now)) }
{
    let mut defs = defs;
    let mut codes = Codes {
        sources,
        definitions: Vec::new(alloc),
    };
    'defs: while let Some(def) = defs.pop() {
        let definition = define(alloc, def, &codes)?;
        codes.definitions.insert(0, definition)?;
    }
    Ok(codes)
}

// The term of the last expression, over the definitions that it reaches.
#[tactic(auto, using(crate::proofs::Reaching::reached_term))]
fn last_term(alloc: Global, program: &Program, sources: &[Label]) -> Result<Term, NoMemory>
    ensures { IfOk result (λ t. term.view t ≡ term_of (decls_of program.now.defs) (view program.now.last) sources.now) }
{
    let defs = reached(alloc, program)?;
    let codes = define_all(alloc, defs, sources)?;
    let scope = Vec::new(alloc);
    tree(alloc, &program.last, &codes, &scope)
}

/// The term of a program: over values of the program's sources, by their numbers, with which the program makes sense, the
/// term means what the program means. Over sources of the language's types it has each type that the program has, and no
/// position is free in it. It reads only sources that the program mentions. Terms are made of the definitions alone that
/// the last expression reaches. The term of a definition stands at each of its uses, so that the term of a short program
/// can be too large for any memory: whoever must not wait for that asks `kl_scope::sizes` first. Where it tells of no
/// declaration, the term is within its limits.
///
/// # Errors
/// Want of memory, and more positions or sources than 32 bits can number.
#[tactic(auto, using(crate::proofs::Law::means_by, crate::proofs::Sense::sense_by, crate::proofs::Closing::closed_by))]
pub fn translate(alloc: Global, scoped: &Scoped) -> Result<Term, NoMemory>
    ensures term { IfOk result (λ t. term.view t ≡ term_of (decls_of scoped.now.program.defs)
        (view scoped.now.program.last) scoped.now.sources) }
    ensures means { IfOk result (λ t. Means (decls_of scoped.now.program.defs) (view scoped.now.program.last) scoped.now.sources
        (term.view t)) }
    ensures sense { IfOk result (λ t. HasSense (decls_of scoped.now.program.defs) (view scoped.now.program.last) scoped.now.sources
        (term.view t)) }
    ensures closed { IfOk result (λ t. (n : ℕ) → occurs_in n (term.view t) ≡ false) }
    ensures small { IfOk result (λ t. StaysSmall scoped.now (term.view t)) }
    ensures mentioned { IfOk result (λ t. ReadsMentioned scoped.now (term.view t)) }
{
    last_term(alloc, scoped.program(), scoped.sources())
}
