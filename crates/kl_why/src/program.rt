//! What is wrong with the text of a program.
ghost use Rattle.std.specs.Prelude.{◌≡◌, ◌≤◌, All, length};
ghost use Rattle.kl_infer.specs.Inferred.{types_of};
ghost use Rattle.kl_type.specs.Ground.{IsProper};
ghost use Rattle.kl_why.specs.Programs.{Judges, JudgesTypes, Reads, ReadsScope, scope_refusal};

use crate::tokens::{part_byte, token_byte};
use crate::wrong::{Refusal, Wrong};
use kl_base::Label;
use kl_infer::{InferError, infer};
use kl_lex::{LexError, Token, Tokens, lex};
use kl_parse::{ParseError, parse};
use kl_scope::{ScopeError, Scoped, SizeBreach, resolve, sizes};
use kl_type::Ty;
use std::alloc::Global;

/// A program in scope with its tokens.
#[derive(Drop)]
pub struct Read {
    pub tokens: Tokens,
    pub scoped: Scoped,
}

/// The program that a text is over sources of these names and types: in scope, no term of it too large, and with types.
///
/// # Errors
/// What is wrong first, in the order of `kleisli`, and the byte where it is. Want of memory.
pub fn read_program(
    alloc: Global,
    text: &[u8],
    names: &[Label],
    types: &[(Label, Ty)],
) -> Result<Scoped, Refusal>
    requires few { length text.now ≤ 65536 }
    requires proper { All (λ s. IsProper s.1) types.now }
    ensures { Reads names.now (types_of types.now) text.now result }
{
    match read_scope(alloc, text, names) {
        Ok(Read { tokens, scoped }) => {
            match judge(alloc, tokens.slice(), text.len() as u32, &scoped, types) {
                Ok(()) => Ok(scoped),
                Err(refusal) => Err(refusal),
            }
        }
        Err(refusal) => Err(refusal),
    }
}

/// The program in scope that a text is, over sources of these names.
///
/// # Errors
/// What is wrong first, in the order of `kleisli`, and the byte where it is. Want of memory.
pub fn read_scope(alloc: Global, text: &[u8], names: &[Label]) -> Result<Read, Refusal>
    requires { length text.now ≤ 65536 }
    ensures { ReadsScope names.now text.now result }
{
    let tokens = match lex(alloc, text) {
        Ok(tokens) => tokens,
        Err(LexError::Bad { byte }) => {
            return Err(Refusal::Wrong {
                wrong: Wrong::NoToken,
                byte,
            });
        }
        Err(LexError::NoMemory) => return Err(Refusal::NoMemory),
    };
    let end = text.len() as u32;
    let program = match parse(alloc, tokens.slice()) {
        Ok(program) => program,
        Err(ParseError::Syntax { token }) => {
            return Err(Refusal::Wrong {
                wrong: Wrong::Syntax,
                byte: token_byte(tokens.slice(), token, end),
            });
        }
        Err(ParseError::TooDeep { token }) => {
            return Err(Refusal::Wrong {
                wrong: Wrong::Nesting,
                byte: token_byte(tokens.slice(), token, end),
            });
        }
        Err(ParseError::NoMemory) => return Err(Refusal::NoMemory),
    };
    match resolve(alloc, program, names) {
        Ok(scoped) => Ok(Read { tokens, scoped }),
        Err(error) => Err(scope_refusal(error, tokens.slice(), end)),
    }
}

// How a breach of the rules of scope is told.
fn scope_refusal(error: ScopeError, tokens: &[Token], end: u32) -> Refusal
    ensures { result ≡ scope_refusal end tokens.now error }
{
    match error {
        ScopeError::Unknown { name, token } => Refusal::Wrong {
            wrong: Wrong::Unknown(name),
            byte: token_byte(tokens, token, end),
        },
        ScopeError::Twice { name, token } => Refusal::Wrong {
            wrong: Wrong::Twice(name),
            byte: token_byte(tokens, token, end),
        },
        ScopeError::Misapplied { name, token } => Refusal::Wrong {
            wrong: Wrong::Misapplied(name),
            byte: token_byte(tokens, token, end),
        },
        ScopeError::Refutable { token } => Refusal::Wrong {
            wrong: Wrong::Refutable,
            byte: token_byte(tokens, token, end),
        },
        ScopeError::NoMemory => Refusal::NoMemory,
    }
}

// Whether the terms of a program in scope are small enough, and have types.
fn judge(
    alloc: Global,
    tokens: &[Token],
    end: u32,
    scoped: &Scoped,
    types: &[(Label, Ty)],
) -> Result<(), Refusal>
    requires { All (λ s. IsProper s.1) types.now }
    ensures { Judges end tokens.now (types_of types.now) scoped.now result }
{
    match sizes(alloc, scoped) {
        Ok(None) => judge_types(alloc, tokens, end, scoped, types),
        Ok(Some(SizeBreach::Nodes { decl })) => Err(Refusal::Wrong {
            wrong: Wrong::TermNodes,
            byte: part_byte(tokens, decl as usize, end),
        }),
        Ok(Some(SizeBreach::Depth { decl })) => Err(Refusal::Wrong {
            wrong: Wrong::TermDepth,
            byte: part_byte(tokens, decl as usize, end),
        }),
        Err(_) => Err(Refusal::NoMemory),
    }
}

// Whether a program in scope has types.
fn judge_types(
    alloc: Global,
    tokens: &[Token],
    end: u32,
    scoped: &Scoped,
    types: &[(Label, Ty)],
) -> Result<(), Refusal>
    requires { All (λ s. IsProper s.1) types.now }
    ensures { JudgesTypes end tokens.now (types_of types.now) scoped.now result }
{
    match infer(alloc, scoped, types) {
        Ok(_) => Ok(()),
        Err(InferError::IllTyped { decl }) => Err(Refusal::Wrong {
            wrong: Wrong::NoTyping,
            byte: part_byte(tokens, decl as usize, end),
        }),
        Err(InferError::NoMemory) => Err(Refusal::NoMemory),
    }
}
