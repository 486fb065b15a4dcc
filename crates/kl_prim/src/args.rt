//! The arguments of one call.
ghost use Rattle.std.specs.Prelude.{◌≡◌, [], ◌∷◌};
ghost use Rattle.kl_prim.specs.Arguments.{value_in, values_in};
ghost use Rattle.kl_prim.specs.Fits.{IsAny, OneOf, TwoOf};

use kl_value::Value;

/// An argument: a value that is only lent, or one that is handed over and may be kept.
#[derive(Drop)]
pub enum Arg<'a> {
    /// A value that the caller keeps.
    Lent(&'a Value),
    /// A value that the call takes over.
    Owned(Value),
}

/// One argument, or two.
#[derive(Drop)]
pub enum Args<'a> {
    /// The argument of a primitive of one.
    One(Arg<'a>),
    /// The arguments of a primitive of two, in their order.
    Two(Arg<'a>, Arg<'a>),
}

impl<'a> Arg<'a> {
    /// The value.
    pub fn get(&self) -> &Value
        ensures { result.now ≡ value_in self.now }
    {
        match self {
            Arg::Lent(v) => v,
            Arg::Owned(v) => v,
        }
    }
}

/// The argument of a primitive of one.
pub fn alone<'a>(args: Args<'a>) -> Arg<'a>
    requires { OneOf IsAny (values_in args) }
    ensures { values_in args.entry ≡ value_in result ∷ [] }
{
    match args {
        Args::One(arg) => arg,
        Args::Two(..) => unreachable!(),
    }
}

/// The arguments of a primitive of two.
pub fn both<'a>(args: Args<'a>) -> (Arg<'a>, Arg<'a>)
    requires { TwoOf IsAny IsAny (values_in args) }
    ensures { values_in args.entry ≡ value_in result.0 ∷ value_in result.1 ∷ [] }
{
    match args {
        Args::Two(first, second) => (first, second),
        Args::One(_) => unreachable!(),
    }
}
