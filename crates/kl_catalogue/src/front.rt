//! Taking off the front of a list what only catalogues have.

ghost use Rattle.std.specs.Prelude.{◌≡◌, ◌∷◌, MatchOption, true, false};
ghost use Rattle.kl_lex.specs.declared.token.Placed.{Placed as APlaced};
ghost use Rattle.kl_phrase.specs.Words.{heads};
ghost use Rattle.kl_phrase.specs.Readers.{one};
ghost use Rattle.kl_phrase.specs.Gives.{Gives};
ghost use Rattle.kl_catalogue.specs.Descent.{is_source, a_name, a_text};

use kl_base::{Label, Text};
use kl_lex::{Placed, Tok, is_keyword};
use kl_phrase::Fault;
use kl_type::word_at;
use std::alloc::Global;

/// What stands behind `source`, if the tokens begin with it.
pub fn source(tokens: &[Placed]) -> Option<&[Placed]>
    ensures { MatchOption result (heads is_source tokens.now ≡ false)
        (λ rest. (t : APlaced) × (tokens.now ≡ t ∷ rest.now) × (is_source t ≡ true)) }
{
    match tokens {
        [
            Placed {
                what: Tok::Word(word),
                ..
            },
            rest @ ..,
        ] if word.slice() == b"source".as_slice() => Some(rest),
        _ => None,
    }
}

/// A word that is no keyword.
///
/// # Errors
/// `Fault::Bad` with these tokens, where none comes. `Fault::Memory`.
pub fn name(tokens: &[Placed]) -> Result<(Label, &[Placed]), Fault<'_, Placed>>
    ensures { Gives (λ x. x.0) (λ x. x.1.now) result (one a_name tokens.now) }
{
    match word_at(tokens) {
        None => Err(Fault::Bad(tokens)),
        Some((word, rest)) => {
            if is_keyword(word.slice()) {
                return Err(Fault::Bad(tokens));
            }
            Ok((word.dup()?, rest))
        }
    }
}

/// A text.
///
/// # Errors
/// `Fault::Bad` with these tokens, where none comes. `Fault::Memory`.
pub fn text(alloc: Global, tokens: &[Placed]) -> Result<(Text, &[Placed]), Fault<'_, Placed>>
    ensures { Gives (λ x. x.0) (λ x. x.1.now) result (one a_text tokens.now) }
{
    match tokens {
        [
            Placed {
                what: Tok::Text(found),
                ..
            },
            rest @ ..,
        ] => Ok((found.dup(alloc)?, rest)),
        _ => Err(Fault::Bad(tokens)),
    }
}
