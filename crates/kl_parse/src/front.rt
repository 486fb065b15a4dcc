//! Taking tokens off the front of a list. `total`: how many tokens there are in all.

ghost use Rattle.std.specs.Prelude.{◌≡◌, ◌-◌, ◌∷◌, length, true, false, MatchOption, IfOk};
ghost use Rattle.kl_lex.specs.declared.token.Token.{Token as AToken};
ghost use Rattle.kl_phrase.specs.Words.{heads};
ghost use Rattle.kl_lex.specs.declared.token.Sym.TheVariants as symbols;
ghost use Rattle.kl_phrase.specs.Readers.{after, before, one, ok, bad, deep, farther};
ghost use Rattle.kl_parse.specs.Kinds.{is_symbol, is_key, among, label_kinds, constant_kinds, big_kinds, a_constant, a_negative};
ghost use Rattle.kl_phrase.specs.Gives.{Gives};
ghost use Rattle.kl_parse.specs.Instead.{Instead};
ghost use Rattle.kl_parse.specs.Descent.{mark, word_mark, name, label, least_at};

use kl_base::{Box, NoMemory};
use kl_lex::{Keyword, Sym, Tok, Token, keyword_of};
use kl_phrase::Fault;
use kl_syntax::{Expr, Meaning, Word};
use kl_value::Value;
use std::alloc::Global;

/// What stands behind this symbol, if the tokens begin with it.
pub fn eat(tokens: &[Token], symbol: Sym) -> Option<&[Token]>
    ensures { MatchOption result (heads (is_symbol symbol) tokens.now ≡ false) (λ rest. (t : AToken) × (tokens.now ≡ t ∷ rest.now)
        × (is_symbol symbol t ≡ true)) }
{
    let [Token { what, .. }, rest @ ..] = tokens else {
        return None;
    };
    let Tok::Sym(found) = what else {
        return None;
    };
    if *found == symbol { Some(rest) } else { None }
}

/// What stands behind this keyword, if the tokens begin with it.
pub fn eat_word(tokens: &[Token], keyword: Keyword) -> Option<&[Token]>
    ensures { MatchOption result (heads (is_key keyword) tokens.now ≡ false)
        (λ rest. (t : AToken) × (tokens.now ≡ t ∷ rest.now) × (is_key keyword t ≡ true)) }
{
    let [
        Token {
            what: Tok::Word(word),
            ..
        },
        rest @ ..,
    ] = tokens
    else {
        return None;
    };
    match keyword_of(word.slice()) {
        Some(found) if found == keyword => Some(rest),
        _ => None,
    }
}

/// What stands behind this symbol, which has to come.
///
/// # Errors
/// `Fault::Bad` with these tokens, where it does not come.
pub fn want(tokens: &[Token], symbol: Sym) -> Result<&[Token], Fault<'_, Token>>
    ensures { Gives (λ x. tt) (λ x. x.now) result (mark symbol tokens.now) }
{
    match eat(tokens, symbol) {
        None => Err(Fault::Bad(tokens)),
        Some(rest) => Ok(rest),
    }
}

/// What was found, where this symbol comes next, and what stands behind the symbol.
///
/// # Errors
/// `Fault::Bad` with these tokens, where it does not come.
pub fn closed<'a, X: Drop>(
    found: X,
    tokens: &'a [Token],
    symbol: Sym,
) -> Result<(X, &'a [Token]), Fault<'a, Token>>
    ensures { Gives (λ x. x.0) (λ x. x.1.now) result (after (mark symbol tokens.now) (λ _ rest. ok found rest)) }
{
    match eat(tokens, symbol) {
        None => Err(Fault::Bad(tokens)),
        Some(rest) => Ok((found, rest)),
    }
}

/// What was found, where this keyword comes next, and what stands behind the keyword.
///
/// # Errors
/// `Fault::Bad` with these tokens, where it does not come.
pub fn closed_word<'a, X: Drop>(
    found: X,
    tokens: &'a [Token],
    keyword: Keyword,
) -> Result<(X, &'a [Token]), Fault<'a, Token>>
    ensures { Gives (λ x. x.0) (λ x. x.1.now) result (after (word_mark keyword tokens.now) (λ _ rest. ok found rest)) }
{
    match eat_word(tokens, keyword) {
        None => Err(Fault::Bad(tokens)),
        Some(rest) => Ok((found, rest)),
    }
}

/// What was found, in a box.
///
/// # Errors
/// `Fault::Memory`.
pub fn boxed<X: Drop>(
    alloc: Global,
    found: X,
    rest: &[Token],
) -> Result<(Box<X>, &[Token]), Fault<'_, Token>>
    ensures { Gives (λ x. x.0) (λ x. x.1.now) result (ok found rest.now) }
{
    Ok((Box::new(alloc, found)?, rest))
}

/// How many tokens stand before these.
pub fn number(total: u32, tokens: &[Token]) -> u32
    ensures { result ≡ total - length tokens.now }
{
    (total as usize).saturating_sub(tokens.len()) as u32
}

/// A word that is no keyword.
///
/// # Errors
/// `Fault::Bad` with these tokens, where none comes. `Fault::Memory`.
pub fn name(total: u32, tokens: &[Token]) -> Result<(Word, &[Token]), Fault<'_, Token>>
    ensures { Gives (λ x. x.0) (λ x. x.1.now) result (name total tokens.now) }
{
    match tokens {
        [
            Token {
                what: Tok::Word(word),
                ..
            },
            rest @ ..,
        ] if keyword_of(word.slice()).is_none() => {
            let token = number(total, tokens);
            Ok((
                Word {
                    text: word.dup()?,
                    token,
                    means: Meaning::Open,
                },
                rest,
            ))
        }
        _ => Err(Fault::Bad(tokens)),
    }
}

/// Any word.
///
/// # Errors
/// `Fault::Bad` with these tokens, where none comes. `Fault::Memory`.
pub fn label(total: u32, tokens: &[Token]) -> Result<(Word, &[Token]), Fault<'_, Token>>
    ensures { Gives (λ x. x.0) (λ x. x.1.now) result (label total tokens.now) }
{
    match tokens {
        [
            Token {
                what: Tok::Word(word),
                ..
            },
            rest @ ..,
        ] => {
            let token = number(total, tokens);
            Ok((
                Word {
                    text: word.dup()?,
                    token,
                    means: Meaning::Open,
                },
                rest,
            ))
        }
        _ => Err(Fault::Bad(tokens)),
    }
}

/// `LABEL "="`
///
/// # Errors
/// `Fault::Bad` with the tokens that do not begin so. `Fault::Memory`.
pub fn labelled(total: u32, tokens: &[Token]) -> Result<(Word, &[Token]), Fault<'_, Token>>
    ensures { Gives (λ x. x.0) (λ x. x.1.now) result (before (label total) (mark symbols.Eq) tokens.now) }
{
    let (word, rest) = label(total, tokens)?;
    closed(word, rest, Sym::Eq)
}

/// Whether a word comes.
pub fn is_word(tokens: &[Token]) -> bool
    ensures { result ≡ heads (among label_kinds) tokens.now }
{
    let [Token { what, .. }, ..] = tokens else {
        return false;
    };
    matches!(what, Tok::Word(_))
}

/// A number, a text or a truth value, if the tokens begin with one.
///
/// # Errors
/// Want of memory.
pub fn constant(alloc: Global, tokens: &[Token]) -> Result<Option<(Value, &[Token])>, NoMemory>
    ensures { IfOk result (λ found. MatchOption found (heads (among constant_kinds) tokens.now ≡ false)
        (λ x. (heads (among constant_kinds) tokens.now ≡ true) × (one a_constant tokens.now ≡ ok x.0 x.1.now))) }
{
    let [Token { what, .. }, rest @ ..] = tokens else {
        return Ok(None);
    };
    match what {
        Tok::Int(n) => Ok(Some((Value::Int(*n), rest))),
        Tok::Text(text) => Ok(Some((Value::Text(text.dup(alloc)?), rest))),
        Tok::Word(word) => match keyword_of(word.slice()) {
            Some(Keyword::True) => Ok(Some((Value::Bool(true), rest))),
            Some(Keyword::False) => Ok(Some((Value::Bool(false), rest))),
            _ => Ok(None),
        },
        _ => Ok(None),
    }
}

/// The digits behind the minus of a pattern, as the negative number.
///
/// # Errors
/// `Fault::Bad` with these tokens, where no digits come.
pub fn negative(tokens: &[Token]) -> Result<(Value, &[Token]), Fault<'_, Token>>
    ensures { Gives (λ x. x.0) (λ x. x.1.now) result (one a_negative tokens.now) }
{
    match tokens {
        [
            Token {
                what: Tok::Int(n),
                ..
            },
            rest @ ..,
        ] if *n >= 0 => Ok((Value::Int(-*n), rest)),
        [Token { what: Tok::Big, .. }, rest @ ..] => Ok((Value::Int(i64::MIN), rest)),
        _ => Err(Fault::Bad(tokens)),
    }
}

/// The least integer, if the tokens begin with the digits that a minus makes this number.
pub fn least(tokens: &[Token]) -> Option<(Expr, &[Token])>
    ensures { MatchOption result (heads (among big_kinds) tokens.now ≡ false) (λ x. (heads (among big_kinds) tokens.now ≡ true)
        × (least_at tokens.now ≡ ok x.0 x.1.now)) }
{
    match tokens {
        [Token { what: Tok::Big, .. }, rest @ ..] => {
            Some((Expr::Const(Value::Int(i64::MIN)), rest))
        }
        _ => None,
    }
}

/// Of two rests of one list the shorter.
pub fn farther<'a>(one: &'a [Token], other: &'a [Token]) -> &'a [Token]
    ensures { result.now ≡ farther one.now other.now }
{
    if other.len() < one.len() { other } else { one }
}

/// What a second reader answers after the first, which goes on with no text from this place: the farther of two places.
pub fn or_bad<'a>(
    place: &'a [Token],
    second: Result<(Box<Expr>, &'a [Token]), Fault<'a, Token>>,
) -> Result<(Box<Expr>, &'a [Token]), Fault<'a, Token>>
    ensures { Instead (λ x. x.0) (λ x. x.1.now) bad place.now second.entry result }
{
    match second {
        Err(Fault::Bad(other)) => Err(Fault::Bad(farther(place, other))),
        Err(Fault::Memory) => Err(Fault::Memory),
        Err(Fault::Deep(other)) => Err(Fault::Deep(farther(place, other))),
        Ok(found) => Ok(found),
    }
}

/// What a second reader answers after the first, which nests too deep at this place: the farther of two places, which is
/// then one of nesting.
pub fn or_deep<'a>(
    place: &'a [Token],
    second: Result<(Box<Expr>, &'a [Token]), Fault<'a, Token>>,
) -> Result<(Box<Expr>, &'a [Token]), Fault<'a, Token>>
    ensures { Instead (λ x. x.0) (λ x. x.1.now) deep place.now second.entry result }
{
    match second {
        Err(Fault::Bad(other)) => Err(Fault::Deep(farther(place, other))),
        Err(Fault::Memory) => Err(Fault::Memory),
        Err(Fault::Deep(other)) => Err(Fault::Deep(farther(place, other))),
        Ok(found) => Ok(found),
    }
}
