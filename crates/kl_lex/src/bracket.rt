//! The symbols around a collection.
ghost use Rattle.std.specs.Prelude.{◌≡◌};
ghost use Rattle.kl_lex.specs.Brackets.{closer};

use crate::token::Sym;
use kl_value::Kind;

/// The symbol that closes a collection: `}`, `|}`, `|]`.
pub fn closer(kind: Kind) -> Sym
    ensures { result ≡ closer kind }
{
    match kind {
        Kind::Set => Sym::CloseSet,
        Kind::Bag => Sym::CloseBag,
        Kind::List => Sym::CloseList,
    }
}
