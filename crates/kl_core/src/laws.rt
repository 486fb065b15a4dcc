//! Laws of terms that make sense.
ghost use Rattle.std.specs.Prelude.{◌≡◌, ◌≢◌, List};
ghost use Rattle.kl_value.specs.declared.Value.{Value};
ghost use Rattle.kl_type.specs.Ground.{Ground, IsGround};
ghost use Rattle.kl_outcome.specs.Outcome.{stuck};
ghost use Rattle.kl_outcome.specs.Typed.{HaveTypes, OfType};
ghost use Rattle.kl_core.specs.Trees.{Tree};
ghost use Rattle.kl_core.specs.Core.{Tables, core};
ghost use Rattle.kl_core.specs.Typing.{SourceTypes, CoreTypes, HaveSources};

/// The laws of typing: each type of a term is proper, whatever types sources and positions have. Over sources and
/// positions whose values have their types, a term that has a type makes sense, and its outcome is of that type: a
/// canonical value of it, or an overflow, before which a list alone has items, each of the type of its items.
pub fn typing_laws()
    ensures types_proper { (S : SourceTypes) (t : Tree) (G : List Ground) (s : Ground) → CoreTypes S G t s → IsGround s }
    ensures never_stuck { (S : SourceTypes) (T : Tables) (t : Tree) (G : List Ground) (env : List Value) (s : Ground)
        → HaveSources S T → HaveTypes G env → CoreTypes S G t s → core T t env ≢ stuck }
    ensures keeps_type { (S : SourceTypes) (T : Tables) (t : Tree) (G : List Ground) (env : List Value) (s : Ground)
        → HaveSources S T → HaveTypes G env → CoreTypes S G t s → OfType s (core T t env) }
{}
