//! Programs with function parameters that keep to the rules.

use kl_base::{Label, Seq};
use kl_syntax::Program;

/// A program with function parameters. That it keeps to the rules of names and of shapes is said by `KeepsToRules` of
/// `specs/KeptPrograms`, as `expand` asks for it.
#[derive(Drop)]
pub struct HoScoped {
    /// The program. Nothing here reads what its words mean.
    pub program: Program,
    /// For each definition, in order, the labels of its function fields, in any order; none for one without them.
    pub functions: Seq<Seq<Label>>,
    /// With what each new name of a variable begins, and no name of a definition, a source or a primitive.
    pub base: Label,
}
