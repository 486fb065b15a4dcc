//! Arguments, read as what their shape says. `ReadsOne` and `ReadsTwo` say that a meaning reads them alike.
ghost use Rattle.std.specs.Prelude.{◌≡◌, [], ◌∷◌};
ghost use Rattle.kl_value.specs.Views.{IsBool, IsInt, IsText, IsCollection, as_bool, as_int, as_text, as_collection, collection};
ghost use Rattle.kl_prim.specs.Arguments.{values_in};
ghost use Rattle.kl_prim.specs.Fits.{OneOf, TwoOf, IsAny};
ghost use Rattle.kl_prim.specs.Meaning.{as_any, ReadsOne, ReadsTwo};

use crate::args::Args;
use kl_value::{Kind, Value, bool_of, bytes_of, int_of, parts_of};

pub fn one_bool(args: &Args<'_>) -> bool
    requires { OneOf IsBool (values_in args.now) }
    ensures { ReadsOne as_bool (values_in args.now) result }
{
    match args {
        Args::One(v) => bool_of(v.get()),
        Args::Two(..) => unreachable!(),
    }
}

pub fn one_int(args: &Args<'_>) -> i64
    requires { OneOf IsInt (values_in args.now) }
    ensures { ReadsOne as_int (values_in args.now) result }
{
    match args {
        Args::One(v) => int_of(v.get()),
        Args::Two(..) => unreachable!(),
    }
}

pub fn one_text<'a>(args: &'a Args<'_>) -> &'a [u8]
    requires { OneOf IsText (values_in args.now) }
    ensures { ReadsOne as_text (values_in args.now) result.now }
{
    match args {
        Args::One(v) => bytes_of(v.get()),
        Args::Two(..) => unreachable!(),
    }
}

pub fn one_collection<'a>(args: &'a Args<'_>) -> (Kind, &'a [Value])
    requires { OneOf IsCollection (values_in args.now) }
    ensures reads { ReadsOne as_collection (values_in args.now) (record { kind = result.0; items = result.1.now }) }
    ensures form { values_in args.now ≡ collection result.0 result.1.now ∷ [] }
{
    match args {
        Args::One(v) => parts_of(v.get()),
        Args::Two(..) => unreachable!(),
    }
}

pub fn value_and_collection<'a>(args: &'a Args<'_>) -> (&'a Value, Kind, &'a [Value])
    requires { TwoOf IsAny IsCollection (values_in args.now) }
    ensures reads { ReadsTwo as_any as_collection (values_in args.now) result.0.now (record { kind = result.1; items = result.2.now }) }
    ensures form { values_in args.now ≡ result.0.now ∷ collection result.1 result.2.now ∷ [] }
{
    match args {
        Args::Two(v, w) => {
            let (kind, items) = parts_of(w.get());
            (v.get(), kind, items)
        }
        Args::One(_) => unreachable!(),
    }
}

pub fn two_values<'a>(args: &'a Args<'_>) -> (&'a Value, &'a Value)
    requires { TwoOf IsAny IsAny (values_in args.now) }
    ensures { ReadsTwo as_any as_any (values_in args.now) result.0.now result.1.now }
{
    match args {
        Args::Two(v, w) => (v.get(), w.get()),
        Args::One(_) => unreachable!(),
    }
}

pub fn two_ints(args: &Args<'_>) -> (i64, i64)
    requires { TwoOf IsInt IsInt (values_in args.now) }
    ensures { ReadsTwo as_int as_int (values_in args.now) result.0 result.1 }
{
    match args {
        Args::Two(v, w) => (int_of(v.get()), int_of(w.get())),
        Args::One(_) => unreachable!(),
    }
}

pub fn two_texts<'a>(args: &'a Args<'_>) -> (&'a [u8], &'a [u8])
    requires { TwoOf IsText IsText (values_in args.now) }
    ensures { ReadsTwo as_text as_text (values_in args.now) result.0.now result.1.now }
{
    match args {
        Args::Two(v, w) => (bytes_of(v.get()), bytes_of(w.get())),
        Args::One(_) => unreachable!(),
    }
}
