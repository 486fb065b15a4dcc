//! The rules of names, in programs with function parameters.
ghost use Rattle.std.specs.Prelude.{IfOk, IfErr};
ghost use Rattle.kl_functions.specs.Named.{IsNamed, IsNameRefusal};

use crate::functions::{Known, known_in};
use crate::programs::plain_program;
use kl_base::Label;
use kl_scope::{ScopeError, resolve};
use kl_syntax::Program;
use std::alloc::Global;

/// What is known of the definitions of a program that keeps to the rules of names: a function parameter may be a head with
/// one argument, and a function may stand bare at a function field of a call's literal.
///
/// # Errors
/// The breach with the least token, and of those on one token the one that `ScopeError` lists first. Want of memory,
/// and more definitions or sources than 32 bits can number.
pub fn named(alloc: Global, program: &Program, sources: &[Label]) -> Result<Vec<Known>, ScopeError>
    ensures named { IfOk result (λ known. IsNamed program.now sources.now known.items) }
    ensures refused { IfErr result (IsNameRefusal program.now sources.now) }
{
    let known = known_in(alloc, program, sources)?;
    let copy = plain_program(alloc, &known, program, sources)?;
    match resolve(alloc, copy, sources) {
        Ok(_) => Ok(known),
        Err(error) => Err(error),
    }
}
