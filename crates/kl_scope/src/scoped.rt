//! Programs in scope.
ghost use Rattle.std.specs.Prelude.{◌≡◌, ◌↔◌, IsTrue, IfOk, IfErr};
ghost use Rattle.kl_scope.specs.Breaches.{Resolves, IsRefusal, is_marked};

use crate::refusal::ScopeError;
use crate::walk::{Walk, walk_through};
use kl_base::{Box, Label, Seq};
use kl_syntax::Program;
use std::alloc::Global;

/// A program in scope, each of whose names carries what it means.
#[derive(Drop)]
pub struct Scoped {
    program: Box<Program>,
    sources: Seq<Label>,
    mentioned: Vec<bool>,
}

impl Scoped {
    /// The program. Takes no memory.
    pub fn program(&self) -> &Program
        ensures { result.now ≡ self.now.program }
    {
        self.program.get()
    }

    /// The names of the sources, in their order. Takes no memory.
    pub fn sources(&self) -> &[Label]
        ensures { result.now ≡ self.now.sources }
    {
        self.sources.slice()
    }

    /// Whether the source of this number is named anywhere in the program. Takes no memory.
    pub fn mentions(&self, source: u32) -> bool
        ensures { result ≡ is_marked self.now source }
    {
        match self.mentioned.get(source as usize) {
            Some(mentioned) => *mentioned,
            None => false,
        }
    }
}

/// The program with what each of its names means. A name means the innermost variable, then a definition before it,
/// then a source, then, where it is called, a primitive. A bare name in a pattern is looked up outside the pattern.
/// Where a name is defined or is a source twice, the last definition and the first source count.
///
/// # Errors
/// The breach with the least token, and of those on one token the one that `ScopeError` lists first. Want of memory,
/// and more definitions or sources than 32 bits can number.
pub fn resolve(alloc: Global, program: Program, sources: &[Label]) -> Result<Scoped, ScopeError>
    ensures resolved { IfOk result (Resolves program sources.now) }
    ensures refused { IfErr result (IsRefusal program sources.now) }
{
    let mut program = Box::new(alloc, program)?;
    let (sources, mentioned) = names_found(alloc, program.get_mut(), sources)?;
    Ok(Scoped {
        program,
        sources,
        mentioned,
    })
}

// Writes into the names what they mean, and answers the sources and which of them are named.
fn names_found(
    alloc: Global,
    program: &mut Program,
    sources: &[Label],
) -> Result<(Seq<Label>, Vec<bool>), ScopeError>
    ensures resolved { IfOk result (λ r. Resolves program.old sources.now
        (record { program = program.new; sources = r.0; mentioned = r.1 })) }
    ensures refused { IfErr result (IsRefusal program.old sources.now) }
{
    let walk = walk_through(alloc, program, sources)?;
    let (first, mentioned) = walk.findings.into_parts();
    match first {
        None => Ok((walk.names.into_sources(), mentioned)),
        Some(first) => Err(first),
    }
}
