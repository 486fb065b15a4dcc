//! Terms of the core language.

use kl_base::{Box, Label, Seq};
use kl_value::{Kind, Value};

/// A list of terms.
pub type Terms = Seq<Term>;

/// The fields of a record, by strictly rising label.
pub type TermFields = Seq<(Label, Term)>;

/// The branches of a case, no label twice.
pub type TermBranches = Seq<(Label, Term)>;

/// A term of the core language, with positions in place of names, 0 the nearest (de Bruijn, Indagationes Mathematicae
/// 34, 1972). `Ext` binds one position in its body, `Let` one in its body, and each branch of a `Case` one.
#[derive(Drop)]
pub enum Term {
    /// The value at a position.
    Var(u32),
    /// A value.
    Const(Value),
    /// The value of a source, by its number.
    Source(u32),
    /// A record.
    Rec(TermFields),
    /// The field of a record.
    Proj(Label, Box<Term>),
    /// A variant.
    Inj(Label, Box<Term>),
    /// The branch for the label of a variant, over what the variant carries; else the last part, which binds nothing.
    Case(Box<Term>, TermBranches, Option<Box<Term>>),
    /// A collection of these items.
    Make(Kind, Terms),
    /// Two collections of one kind as one.
    Union(Box<Term>, Box<Term>),
    /// The items of the first part, the body, for each item of the second, the source.
    Ext(Kind, Box<Term>, Box<Term>),
    /// The second part where the first is true, else the third.
    If(Box<Term>, Box<Term>, Box<Term>),
    /// The second part, the body, where the position stands for the value of the first.
    Let(Box<Term>, Box<Term>),
    /// A primitive, by its code, of these arguments.
    Prim(u8, Terms),
}
