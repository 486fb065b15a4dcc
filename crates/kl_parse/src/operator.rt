//! Operators and their levels.

ghost use Rattle.std.specs.Prelude.{◌≡◌, true, false, MatchOption};
ghost use Rattle.kl_phrase.specs.Words.{heads};
ghost use Rattle.kl_phrase.specs.Readers.{one, ok};
ghost use Rattle.kl_parse.specs.Kinds.{among, op_kinds, op_at, of_level, an_op};
ghost use Rattle.kl_parse.specs.Lexemes.{level_of};

use kl_lex::{Keyword, Sym, Tok, Token, keyword_of};
use kl_syntax::Op;

/// Which operators bind alike, from the loosest to the tightest.
#[derive(Clone, Copy, Debug, PartialEq, Eq)]
pub enum Level {
    /// `or`
    Or,
    /// `and`
    And,
    /// `=`, `<>`, `<`, `<=`, `>` and `>=`, one alone.
    Compare,
    /// `+`, `-`, `++` and `^`
    Add,
    /// `*`
    Mul,
}

fn level_of(op: Op) -> Level
    ensures { result ≡ level_of op }
{
    match op {
        Op::Or => Level::Or,
        Op::And => Level::And,
        Op::Eq | Op::Ne | Op::Lt | Op::Le | Op::Gt | Op::Ge => Level::Compare,
        Op::Add | Op::Sub | Op::Append | Op::Cat => Level::Add,
        Op::Mul => Level::Mul,
    }
}

fn symbol_op(symbol: Sym) -> Option<Op>
    ensures { result ≡ Rattle.kl_parse.specs.Kinds.symbol_op symbol }
{
    match symbol {
        Sym::Eq => Some(Op::Eq),
        Sym::Ne => Some(Op::Ne),
        Sym::Lt => Some(Op::Lt),
        Sym::Le => Some(Op::Le),
        Sym::Gt => Some(Op::Gt),
        Sym::Ge => Some(Op::Ge),
        Sym::Add => Some(Op::Add),
        Sym::Sub => Some(Op::Sub),
        Sym::Append => Some(Op::Append),
        Sym::Cat => Some(Op::Cat),
        Sym::Mul => Some(Op::Mul),
        _ => None,
    }
}

fn keyword_op(keyword: Option<Keyword>) -> Option<Op>
    ensures { result ≡ Rattle.kl_parse.specs.Kinds.key_op keyword }
{
    match keyword {
        Some(Keyword::Or) => Some(Op::Or),
        Some(Keyword::And) => Some(Op::And),
        _ => None,
    }
}

fn operator_of(what: &Tok) -> Option<Op>
    ensures { result ≡ op_at what.now }
{
    match what {
        Tok::Sym(symbol) => symbol_op(*symbol),
        Tok::Word(word) => keyword_op(keyword_of(word.slice())),
        _ => None,
    }
}

fn operator_at(what: &Tok, level: Level) -> Option<Op>
    ensures { result ≡ of_level level (op_at what.now) }
{
    let op = operator_of(what)?;
    if level_of(op) == level {
        Some(op)
    } else {
        None
    }
}

/// An operator of this level and what stands behind it, if the tokens begin with one.
pub fn operator(tokens: &[Token], level: Level) -> Option<(Op, &[Token])>
    ensures { MatchOption result (heads (among (op_kinds level)) tokens.now ≡ false)
        (λ x. (heads (among (op_kinds level)) tokens.now ≡ true)
        × (one (an_op level) tokens.now ≡ ok x.0 x.1.now)) }
{
    let [Token { what, .. }, rest @ ..] = tokens else {
        return None;
    };
    match operator_at(what, level) {
        None => None,
        Some(op) => Some((op, rest)),
    }
}
