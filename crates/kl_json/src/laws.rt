//! The way back.
ghost use Rattle.std.specs.Prelude.{◌≡◌, ◌≤◌, ◌++◌, ℕ, None, Ok, codes};
ghost use Rattle.json.specs.Json.{Json};
ghost use Rattle.kl_exchange.specs.Grammar.{IsItem};
ghost use Rattle.kl_json.specs.Meaning.{meaning};
ghost use Rattle.kl_json.specs.Written.{json_of};
ghost use Rattle.kl_json.specs.declared.choices.Choices.{Choices};
ghost use Rattle.kl_value.specs.Shape.{depth_of};
ghost use Rattle.kl_value.specs.Written.{text_of};
ghost use Rattle.kl_value.specs.declared.Value.{Value};

/// The way back, of the value that a JSON value is, where no label stands for `null`: its text with a `;` is an item of it,
/// so that who reads what was printed reads this value; and the JSON value that is written of it is this value again.
/// Where a label stands for `null`, a variant that came of it is an object on the way back.
pub fn back_laws()
    ensures item { (c : Choices) (j : Json) (v : Value) (n : ℕ) → c.null ≡ None → meaning c j ≡ Ok v → depth_of v ≤ n → IsItem n (text_of v ++ codes ";") v }
    ensures again { (c : Choices) (j : Json) (v : Value) → c.null ≡ None → meaning c j ≡ Ok v → meaning c (json_of v) ≡ Ok v }
{}
