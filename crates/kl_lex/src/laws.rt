//! Laws of the tokens of bytes.
ghost use Rattle.std.specs.Prelude.{◌≡◌, List, ℕ};
ghost use Rattle.kl_lex.specs.Lexing.{Refused, Tokens as AreTokens};
ghost use Rattle.kl_lex.specs.Placing.{PlacedTokens};
ghost use Rattle.kl_lex.specs.declared.token.Placed.{Placed as APlaced};
ghost use Rattle.kl_lex.specs.declared.token.Token.{Token as AToken};

/// For the layers above to cite: bytes have at most one list of tokens, go wrong at most at one byte, and nowhere
/// where they have tokens.
pub fn lex_laws()
    ensures unique { (bytes : List ℕ) (ts us : List AToken) → AreTokens bytes ts → AreTokens bytes us → ts ≡ us }
    ensures placed { (bytes : List ℕ) (ts us : List APlaced) → PlacedTokens bytes ts → PlacedTokens bytes us → ts ≡ us }
    ensures one_byte { (bytes : List ℕ) (b c : ℕ) → Refused bytes b → Refused bytes c → b ≡ c }
    ensures refused { (bytes : List ℕ) (b : ℕ) (ts : List AToken) → Refused bytes b → AreTokens bytes ts → ⊥ }
{}
