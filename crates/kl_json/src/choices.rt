ghost use Rattle.std.specs.Prelude.{◌≡◌};
ghost use Rattle.kl_json.specs.Words.{is_plain};

use kl_base::Label;

/// What is made of JSON values that are no values of the language as they stand.
#[derive(Debug, Drop)]
pub struct Choices {
    /// `null` is the variant of this label with the empty record; without one it is refused.
    pub null: Option<Label>,
    /// Numbers with a fraction, an exponent or past 64 bits are texts, as they are spelt.
    pub text_numbers: bool,
    /// Labels that are no words are written as words.
    pub words: bool,
}

/// Why a JSON value is no value of the language.
#[derive(Clone, Copy, Debug, Drop, PartialEq, Eq)]
pub enum Refusal {
    /// It is `null`, or has it inside.
    Null,
    /// A number in it has a fraction or an exponent, or leaves 64 bits.
    Number,
    /// A label in it is no word.
    Word,
    /// A label stands twice in an object.
    Twice,
}

impl Choices {
    /// Whether nothing is chosen.
    pub fn is_plain(&self) -> bool
        ensures { result ≡ is_plain self.now }
    {
        self.null.is_none() && !self.text_numbers && !self.words
    }
}
