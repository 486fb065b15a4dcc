ghost use Rattle.std.specs.Prelude.{◌≡◌};
ghost use Rattle.std.specs.Option.{option_copied};
ghost use Rattle.kl_type.specs.Parts.{is_bool, is_int, is_string, record_of, variant_of, items_of};

use kl_base::{Box, Label, Seq};
use kl_value::Kind;

/// The fields of a record type or a variant type, by strictly rising label.
pub type TyFields = Seq<(Label, Ty)>;

/// A type without variables.
///
/// It is proper where each record's and each variant's labels rise strictly, and each variant has a label. Every
/// public call that answers a type answers a proper one where it is given proper ones.
#[derive(Debug, Drop, PartialEq, Eq)]
pub enum Ty {
    /// `bool`
    Bool,
    /// `int`
    Int,
    /// `string`
    Str,
    /// A record type: `[title: string, vol: int]`.
    Rec(TyFields),
    /// A variant type, which has at least one label: `<chr: int, unknown: string>`.
    Var(TyFields),
    /// A collection type: `{int}`, `{|int|}` or `[|int|]`.
    Coll(Kind, Box<Ty>),
}

pub fn is_bool(t: &Ty) -> bool
    ensures { result ≡ is_bool t.now }
{
    matches!(t, Ty::Bool)
}

pub fn is_int(t: &Ty) -> bool
    ensures { result ≡ is_int t.now }
{
    matches!(t, Ty::Int)
}

pub fn is_string(t: &Ty) -> bool
    ensures { result ≡ is_string t.now }
{
    matches!(t, Ty::Str)
}

/// The fields of a record type.
pub fn as_record(t: &Ty) -> Option<&TyFields>
    ensures { option_copied result ≡ record_of t.now }
{
    match t {
        Ty::Rec(types) => Some(types),
        _ => None,
    }
}

/// The fields of a variant type.
pub fn as_variant(t: &Ty) -> Option<&TyFields>
    ensures { option_copied result ≡ variant_of t.now }
{
    match t {
        Ty::Var(types) => Some(types),
        _ => None,
    }
}

/// The type of the items of a collection type of this kind.
pub fn as_items(kind: Kind, t: &Ty) -> Option<&Ty>
    ensures { option_copied result ≡ items_of kind t.now }
{
    match t {
        Ty::Coll(other, item) if *other == kind => Some(item.get()),
        _ => None,
    }
}
