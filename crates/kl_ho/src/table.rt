//! Definitions with function fields, and the base of new names.
ghost use Rattle.std.specs.Prelude.{◌≡◌};
ghost use Rattle.std.specs.Option.{option_copied, option_map};
ghost use Rattle.kl_base.specs.Fields.{field};
ghost use Rattle.kl_ho.specs.Growing.{higher_of, highers_in};

use kl_base::Label;
use kl_syntax::{Expr, Pattern, Word};

/// A definition with function fields, in its parts.
#[derive(Drop)]
pub(crate) struct Parts<'p> {
    /// The label and the variable of each function field, by rising label.
    pub handed: Vec<(Label, Label)>,
    /// The labels of the function fields.
    pub labels: &'p [Label],
    /// All fields of the parameter.
    pub fields: &'p [(Word, Pattern)],
    pub body: &'p Expr,
}

/// What expansions are made with.
#[derive(Drop)]
pub(crate) struct Table<'p> {
    /// With what the new name of a variable begins.
    pub base: &'p Label,
    /// The functions that are defined, the last first; those with function fields in their parts.
    pub parts: Vec<(Label, Option<Parts<'p>>)>,
}

/// The definition of this name, if it has function fields.
pub(crate) fn defined<'t, 'p>(
    parts: &'t [(Label, Option<Parts<'p>>)],
    name: &Label,
) -> Option<&'t Parts<'p>>
    ensures { option_map higher_of (option_copied result) ≡ highers_in parts.now name.now }
{
    for pair in parts {
        if *name == pair.0 {
            return match &pair.1 {
                Some(parts) => Some(parts),
                None => None,
            };
        }
    }
    None
}

/// What a head calls.
pub(crate) fn given<'f>(funs: &'f [(Label, Label)], name: &Label) -> Option<&'f Label>
    ensures { option_copied result ≡ field name.now funs.now }
{
    for pair in funs {
        if *name == pair.0 {
            return Some(&pair.1);
        }
    }
    None
}
