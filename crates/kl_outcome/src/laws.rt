//! The law of the types of values.
ghost use Rattle.std.specs.Prelude.{◌≡◌, true};
ghost use Rattle.kl_value.specs.declared.Value.{Value};
ghost use Rattle.kl_type.specs.Ground.{ground_of};
ghost use Rattle.kl_type.specs.Has.{has_type};
ghost use Rattle.kl_type.specs.declared.ground.Ty.{Ty};
ghost use Rattle.kl_outcome.specs.Typed.{Has};

/// What `kl_type` tests of a value and a type is true exactly where the value has the type.
pub fn has_laws()
    ensures told { (v : Value) (t : Ty) → has_type v t ≡ true → Has (ground_of t) v }
    ensures tells { (v : Value) (t : Ty) → Has (ground_of t) v → has_type v t ≡ true }
{}
