//! A program's types.
ghost use Rattle.std.specs.Prelude.{◌≡◌, IfSome, Some, slice_get};
ghost use Rattle.kl_value.specs.declared.Kind.{Kind};
ghost use Rattle.kl_type.specs.Ground.{Ground, coll};
ghost use Rattle.kl_rows.specs.Schemes.{Instance, IsScheme};
ghost use Rattle.kl_infer.specs.Kinds.{known_kind, kind_place, fixed_kind, HasOther};
ghost use Rattle.std.specs.Option.{option_copied};

use kl_base::{Seq, Shared};
use kl_rows::{Node, Part, Scheme};
use kl_value::Kind;

/// The schemes of definitions, in their order. Definitions that are one name share its scheme.
pub type Schemes = Seq<Shared<Scheme>>;

/// A program's types, as schemes. That of a function has an arrow at its root, from its parameter's type to its
/// result's.
#[derive(Drop)]
pub struct Typed {
    pub schemes: Schemes,
    /// The scheme of the last expression.
    pub result: Scheme,
}

impl Typed {
    /// The kind of the collections that the program can give. None exactly where its result is no collection, or one
    /// of any kind: for each kind that is not the answer, some instance of the result's scheme is no collection of
    /// that kind. Takes no memory.
    pub fn result_kind(&self) -> Option<Kind>
        ensures table { result ≡ known_kind self.now.result }
        ensures instances { IfSome result (λ k. (t : Ground) → Instance self.now.result t → (s : Ground) × (t ≡ coll k s)) }
        ensures others { (k : Kind) → IsScheme self.now.result → (t : Ground) → Instance self.now.result t → (result ≡ Some k → ⊥)
            → HasOther self.now.result k }
    {
        known_kind(&self.result)
    }
}

fn known_kind(s: &Scheme) -> Option<Kind>
    ensures { result ≡ known_kind s.now }
{
    let parts = s.nodes.slice();
    match kind_place(part_at(parts, s.root as usize)) {
        Some(place) => fixed_kind(part_at(parts, place)),
        None => None,
    }
}

#[tactic(auto, using(crate::proofs::TreeLemmas::some_at, crate::proofs::TreeLemmas::none_at))]
fn part_at(parts: &[Part], place: usize) -> Option<&Part>
    ensures { option_copied result ≡ slice_get parts.now place }
{
    if place < parts.len() {
        Some(&parts[place])
    } else {
        None
    }
}

// The place of the kind of a collection.
fn kind_place(part: Option<&Part>) -> Option<usize>
    ensures { result ≡ kind_place (option_copied part.entry) }
{
    match part {
        Some(Part::Is(Node::Coll(kind, _))) => Some(*kind as usize),
        _ => None,
    }
}

fn fixed_kind(part: Option<&Part>) -> Option<Kind>
    ensures { result ≡ fixed_kind (option_copied part.entry) }
{
    match part {
        Some(Part::Is(Node::Fixed(kind))) => Some(*kind),
        _ => None,
    }
}
