//! Taking tokens off the front of a list.

ghost use Rattle.std.specs.Prelude.{◌≡◌, ◌∷◌, MatchOption, true, false};
ghost use Rattle.kl_lex.specs.declared.token.Placed.{Placed as APlaced};
ghost use Rattle.kl_lex.specs.declared.token.Tok.TheVariants.{Word};
ghost use Rattle.kl_phrase.specs.Words.{heads};
ghost use Rattle.kl_phrase.specs.Gives.{Gives};
ghost use Rattle.kl_type.specs.Descent.{is_symbol, is_word, mark};
ghost use Rattle.kl_type.specs.Texts.{byte_of};

use kl_base::Label;
use kl_lex::{Placed, Sym, Tok};
use kl_phrase::Fault;

/// What stands behind this symbol, if the tokens begin with it.
pub fn eat(tokens: &[Placed], symbol: Sym) -> Option<&[Placed]>
    ensures { MatchOption result (heads (is_symbol symbol) tokens.now ≡ false)
        (λ rest. (t : APlaced) × (tokens.now ≡ t ∷ rest.now) × (is_symbol symbol t ≡ true)) }
{
    match tokens {
        [
            Placed {
                what: Tok::Sym(found),
                ..
            },
            rest @ ..,
        ] if *found == symbol => Some(rest),
        _ => None,
    }
}

/// What stands behind this symbol, which has to come.
///
/// # Errors
/// `Fault::Bad` with these tokens, where it does not come.
pub fn want(tokens: &[Placed], symbol: Sym) -> Result<&[Placed], Fault<'_, Placed>>
    ensures { Gives (λ x. tt) (λ x. x.now) result (mark symbol tokens.now) }
{
    match eat(tokens, symbol) {
        None => Err(Fault::Bad(tokens)),
        Some(rest) => Ok(rest),
    }
}

/// The word that comes, and what stands behind it.
pub fn word_at(tokens: &[Placed]) -> Option<(&Label, &[Placed])>
    ensures { MatchOption result (heads is_word tokens.now ≡ false) (λ x. (t : APlaced) × (tokens.now ≡ t ∷ x.1.now)
        × (t.what ≡ Word x.0.now)) }
{
    match tokens {
        [
            Placed {
                what: Tok::Word(word),
                ..
            },
            rest @ ..,
        ] => Some((word, rest)),
        _ => None,
    }
}

/// The byte at which these last tokens of a text of so many bytes begin.
pub fn byte_of(total: usize, tokens: &[Placed]) -> u64
    ensures { result ≡ byte_of total tokens.now }
{
    match tokens {
        [] => total as u64,
        [first, ..] => first.from,
    }
}
