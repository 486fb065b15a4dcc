//! Reading a program: its bytes as tokens, these as a tree, and what its names mean; and its types.
ghost use Rattle.std.specs.Prelude.{◌≡◌, ◌≤◌, All, length};
ghost use Rattle.kl_infer.specs.Inferred.{types_of};
ghost use Rattle.kl_sources.specs.Sources.{grounds_of, names_of};
ghost use Rattle.kl_type.specs.Ground.{IsProper};
ghost use Rattle.kl_engine.specs.Reading.{byte_of, scope_fault, ReadsText};
ghost use Rattle.kl_syntax.specs.View.{view, decls_of};
ghost use Rattle.kl_engine.specs.Typing.{AnswersTypes, TypesOfAny};

use crate::fault::{Fault, Wrong};
use kl_base::Label;
use kl_infer::{InferError, Typed, infer};
use kl_lex::{LexError, Token, lex};
use kl_parse::{ParseError, parse};
use kl_scope::{ScopeError, Scoped, SizeBreach, resolve, sizes};
use kl_sources::{Source, names_of, types_of};
use kl_type::Ty;
use std::alloc::Global;

/// The program in scope that a text is, over these sources.
///
/// # Errors
/// As `read_program`.
pub fn read_over(alloc: Global, text: &[u8], sources: &[Source]) -> Result<Scoped, Fault>
    requires { length text.now ≤ 65536 }
    ensures { ReadsText (names_of sources.now) text.now result }
{
    match names_of(alloc, sources) {
        Ok(names) => read_program(alloc, text, &names),
        Err(_) => Err(Fault::NoMemory),
    }
}

/// The program in scope that a text is, over sources of these names.
///
/// # Errors
/// What is wrong with the text, and where: the first refusal in the order of bytes without a token, tokens that are no
/// program or nest too deep, and rules of scope. Want of memory.
pub fn read_program(alloc: Global, text: &[u8], names: &[Label]) -> Result<Scoped, Fault>
    requires { length text.now ≤ 65536 }
    ensures { ReadsText names.now text.now result }
{
    let tokens = match lex(alloc, text) {
        Ok(tokens) => tokens,
        Err(LexError::Bad { byte }) => return Err(Fault::Text(Wrong::NoToken, byte)),
        Err(LexError::NoMemory) => return Err(Fault::NoMemory),
    };
    let end = text.len() as u32;
    let program = match parse(alloc, tokens.slice()) {
        Ok(program) => program,
        Err(ParseError::Syntax { token }) => {
            return Err(Fault::Text(Wrong::Syntax, byte_of(tokens.slice(), token, end)));
        }
        Err(ParseError::TooDeep { .. }) => return Err(Fault::Nesting),
        Err(ParseError::NoMemory) => return Err(Fault::NoMemory),
    };
    match resolve(alloc, program, names) {
        Ok(scoped) => Ok(scoped),
        Err(error) => Err(scope_fault(error, tokens.slice(), end)),
    }
}

/// The types of a program in scope, over these sources.
///
/// # Errors
/// As `infer_types`.
pub fn infer_over(alloc: Global, scoped: &Scoped, sources: &[Source]) -> Result<Typed, Fault>
    requires { All (λ s. IsProper s.ty) sources.now }
    ensures { AnswersTypes (grounds_of sources.now) (decls_of scoped.now.program.defs) (view scoped.now.program.last) result }
{
    match types_of(alloc, sources) {
        Ok(types) => infer_types(alloc, scoped, &types),
        Err(_) => Err(Fault::NoMemory),
    }
}

/// The types of a program in scope, over sources of these types.
///
/// # Errors
/// The first declaration whose term is too large; then the first that has no type. Want of memory.
pub fn infer_types(alloc: Global, scoped: &Scoped, sources: &[(Label, Ty)]) -> Result<Typed, Fault>
    requires { All (λ s. IsProper s.1) sources.now }
    ensures { AnswersTypes (types_of sources.now) (decls_of scoped.now.program.defs) (view scoped.now.program.last) result }
{
    match sizes(alloc, scoped) {
        Ok(None) => infer_any_size(alloc, scoped, sources),
        Ok(Some(SizeBreach::Nodes { .. })) => Err(Fault::TermNodes),
        Ok(Some(SizeBreach::Depth { .. })) => Err(Fault::TermDepth),
        Err(_) => Err(Fault::NoMemory),
    }
}

// The same of whatever size.
fn infer_any_size(alloc: Global, scoped: &Scoped, sources: &[(Label, Ty)]) -> Result<Typed, Fault>
    requires { All (λ s. IsProper s.1) sources.now }
    ensures { TypesOfAny (types_of sources.now) (decls_of scoped.now.program.defs) (view scoped.now.program.last) result }
{
    match infer(alloc, scoped, sources) {
        Ok(typed) => Ok(typed),
        Err(InferError::IllTyped { decl }) => Err(Fault::IllTyped(decl)),
        Err(InferError::NoMemory) => Err(Fault::NoMemory),
    }
}

// The first byte of the token of this number, or the end of the text where there is none.
fn byte_of(tokens: &[Token], number: u32, end: u32) -> u32
    ensures { result ≡ byte_of tokens.now number end }
{
    match tokens.get(number as usize) {
        Some(token) => token.from,
        None => end,
    }
}

// How a breach of the rules of scope is told.
fn scope_fault(error: ScopeError, tokens: &[Token], end: u32) -> Fault
    ensures { result ≡ scope_fault tokens.now end error }
{
    match error {
        ScopeError::Unknown { name, token } => Fault::Text(
            Wrong::Unknown(name),
            byte_of(tokens, token, end),
        ),
        ScopeError::Twice { name, token } => Fault::Text(
            Wrong::Twice(name),
            byte_of(tokens, token, end),
        ),
        ScopeError::Misapplied { name, token } => Fault::Text(
            Wrong::Misapplied(name),
            byte_of(tokens, token, end),
        ),
        ScopeError::Refutable { token } => Fault::Text(
            Wrong::Refutable,
            byte_of(tokens, token, end),
        ),
        ScopeError::NoMemory => Fault::NoMemory,
    }
}
