//! At which byte a token, a declaration or an entry begins.
ghost use Rattle.std.specs.Prelude.{◌≡◌};
ghost use Rattle.kl_why.specs.Tokens.{is_semi, part_byte, token_byte};

use kl_lex::{Sym, Tok, Token};

/// The byte at which the token of a number begins, or that at which the text ends where there is none.
pub fn token_byte(tokens: &[Token], number: u32, end: u32) -> u32
    ensures { result ≡ token_byte end tokens.now number }
{
    match tokens.get(number as usize) {
        Some(token) => token.from,
        None => end,
    }
}

/// The byte at which the declaration of a program or the entry of a catalogue of a number begins, or that at which the text
/// ends where there is none. Each has one semicolon, behind it.
pub fn part_byte(tokens: &[Token], number: usize, end: u32) -> u32
    ensures { result ≡ part_byte end tokens.now number }
{
    let mut left = number;
    for token in tokens {
        if left == 0 {
            return token.from;
        }
        if is_semi(&token.what) {
            left -= 1;
        }
    }
    end
}

fn is_semi(what: &Tok) -> bool
    ensures { result ≡ is_semi what.now }
{
    match what {
        Tok::Sym(Sym::Semi) => true,
        _ => false,
    }
}
