//! Shapes.
use kl_base::{Box, Label, Seq};
use kl_value::Kind;

/// The shapes under the labels of a record or a variant.
pub type ShapeFields = Seq<(Label, Shape)>;

/// A type with gaps.
///
/// It is sound where the labels of each variant in it rise strictly. Every public call that answers a shape answers a sound
/// one where it is given sound ones.
#[derive(Drop)]
pub enum Shape {
    /// A gap: any type.
    Unseen,
    /// `bool`
    Bool,
    /// `int`
    Int,
    /// `string`
    Str,
    /// A record type with these labels.
    Rec(ShapeFields),
    /// A variant type with these labels, and maybe more.
    Var(ShapeFields),
    /// The type of a collection.
    Coll(Kind, Box<Shape>),
}
