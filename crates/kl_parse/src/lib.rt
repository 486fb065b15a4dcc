//! The grammar of the language: `parse` reads a program off its tokens, and tells where tokens that spell none go wrong.
//!
//! The grammar is `ReadsProgram` in `specs/Grammar.antt`, line by line. The trees are those of `kl_syntax`.
#![tactic(auto)]

mod exprs;
mod front;
mod operator;
mod patterns;
mod program;

pub use kl_syntax::{
    Branch, Branches, Decl, Decls, Expr, ExprFields, Exprs, Meaning, Op, PatFields, Pattern,
    Program, Qual, Quals, Steps, Tail, Word, Words,
};
pub use program::{ParseError, parse, parse_laws};
