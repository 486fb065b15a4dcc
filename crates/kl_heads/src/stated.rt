//! What a head states, beside the type that is wanted of the items.
ghost use Rattle.std.specs.Prelude.{◌≡◌};
ghost use Rattle.kl_heads.specs.Stated.{states_no_other};

use kl_type::Ty;

/// Whether no other type than the one that is wanted is stated.
pub fn states_no_other(stated: &Option<Ty>, wanted: &Ty) -> bool
    ensures { result ≡ states_no_other wanted.now stated.now }
{
    match stated {
        None => true,
        Some(ty) => *ty == *wanted,
    }
}
