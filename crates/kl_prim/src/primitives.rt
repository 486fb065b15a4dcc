//! The primitives: one list, from which the table and `apply_args` are made.
ghost use Rattle.std.specs.Prelude.{◌≡◌, ◌≢◌, ◌↔◌, ◌==◌, ℕ, List, length, map, find, All, IfOk, IfSome};
ghost use Rattle.std.specs.Option.{option_copied, option_map};
ghost use Rattle.kl_value.specs.IsCanonical.{IsCanonical};
ghost use Rattle.kl_value.specs.declared.Value.{Value};
ghost use Rattle.kl_prim.specs.Arguments.{values_in};
ghost use Rattle.kl_prim.specs.Fits.{FitsShape};
ghost use Rattle.kl_prim.specs.Meaning.{AnswersMeaning, gives, overflows, senseless};
ghost use Rattle.kl_prim.specs.Table.{Fits, IsTotal, Takes, entry_of, meaning, row_at, rows};

use crate::answers::{
    above, add, at_least, at_most, bagof, begins_with, below, complement, count, equal, extend,
    finishes_with, first_items, flatten, greatest, is_empty, join, least, listof, member, multiply,
    negate, rest, setof, subtract, sum, text_length, to_int, to_text, unequal,
};
use crate::args::{Arg, Args};
use crate::rows::{PrimRow, PrimTable, Shape};
use crate::stop::PrimStop;
use kl_value::Value;
use std::alloc::Global;

// Each primitive once: code, name, number of arguments, their shape, whether there is always an answer; the function
// that answers. Those that `keep` have the arguments, the others look at them.
macro_rules! primitives {
    ($then:ident $code:ident $alloc:ident $args:ident) => {
        $then! { $code $alloc $args
            look {
                1 b"=" 2 Compare true, equal($args);
                2 b"<>" 2 Compare true, unequal($args);
                3 b"<" 2 Compare true, below($args);
                4 b"<=" 2 Compare true, at_most($args);
                5 b">" 2 Compare true, above($args);
                6 b">=" 2 Compare true, at_least($args);
                7 b"+" 2 IntOp false, add($args);
                8 b"-" 2 IntOp false, subtract($args);
                9 b"*" 2 IntOp false, multiply($args);
                10 b"neg" 1 IntFn false, negate($args);
                11 b"not" 1 BoolFn true, complement($args);
                12 b"^" 2 TextJoin true, join($alloc, $args);
                13 b"isempty" 1 CollTest true, is_empty($args);
                14 b"count" 1 CollCount true, count($args);
                15 b"sum" 1 CollSum false, sum($args);
                16 b"member" 2 Member true, member($args);
                17 b"least" 1 CollSame true, least($alloc, $args);
                18 b"greatest" 1 CollSame true, greatest($alloc, $args);
            }
            keep {
                19 b"flatten" 1 Flatten true, flatten($alloc, $args);
                20 b"setof" 1 ToSet true, setof($alloc, $args);
                21 b"bagof" 1 ToBag true, bagof($alloc, $args);
                22 b"listof" 1 ToList true, listof($alloc, $args);
            }
            look {
                23 b"strlen" 1 TextLen true, text_length($args);
                24 b"startswith" 2 TextTest true, begins_with($args);
                25 b"toint" 1 TextInts true, to_int($alloc, $args);
                26 b"totext" 1 IntText true, to_text($alloc, $args);
            }
            keep {
                27 b"..." 2 Extend true, extend($alloc, $args);
                28 b"...\\" 2 Rest true, rest($alloc, $args);
                29 b"take" 2 Take true, first_items($alloc, $args);
            }
            look {
                30 b"endswith" 2 TextTest true, finishes_with($args);
            }
            keep {}
        }
    };
}

macro_rules! rows_of {
    ($what:ident $alloc:ident $args:ident
        $($how:ident { $($code:literal $name:literal $arity:literal $shape:ident $total:literal, $answer:expr;)* })*) => {
        [$($(PrimRow {
            code: $code,
            name: $name,
            arity: $arity,
            shape: Shape::$shape,
            total: $total,
        }),*),*]
    };
}

macro_rules! kept_of {
    ($what:ident $alloc:ident $args:ident
        $(look { $($looked:tt)* }
        keep { $($code:literal $name:literal $arity:literal $shape:ident $total:literal, $answer:expr;)* })*) => {
        match $what {
            $($($code => $answer,)*)*
            _ => look($alloc, $what, &$args),
        }
    };
}

macro_rules! looked_at_of {
    ($what:ident $alloc:ident $args:ident
        $(look { $($code:literal $name:literal $arity:literal $shape:ident $total:literal, $answer:expr;)* }
        keep { $($kept:tt)* })*) => {
        match $what {
            $($($code => $answer,)*)*
            _ => unreachable!(),
        }
    };
}

const ROWS: [PrimRow; 30] = primitives!(rows_of code alloc args);

/// The table of primitives, as `rows` of `specs/Table.antt` has it. Takes no memory.
pub fn table() -> PrimTable<30>
    ensures { map entry_of result.rows.now ≡ map (λ r. r.entry) rows }
{
    PrimTable { rows: &ROWS }
}

/// The row of a code, and `None` exactly where the table has none. Arguments of a found row's shape are those that
/// `apply` takes. Takes no memory.
pub fn row_of(code: u8) -> Option<&'static PrimRow>
    ensures row { option_map entry_of (option_copied result) ≡ option_map (λ r. r.entry) (row_at code) }
    ensures takes { IfSome result (λ r. (args : List Value) → FitsShape r.now.shape args ↔ Fits code args) }
{
    at_code(table().rows, code)
}

fn at_code(rows: &[PrimRow], code: u8) -> Option<&PrimRow>
    ensures { option_copied result ≡ find (λ r. r.code == code) rows.now }
{
    rows.iter().find(|row| row.code == code)
}

/// The laws of the table: arguments that fit are as many as the row says, and make sense; a total primitive does not
/// overflow; of canonical arguments the answer is canonical.
pub fn table_laws()
    ensures takes { (code : ℕ) (args : List Value) → Fits code args → Takes code (length args) }
    ensures sense { (code : ℕ) (args : List Value) → Fits code args → meaning code args ≢ senseless }
    ensures total { (code : ℕ) (args : List Value) → IsTotal code → meaning code args ≢ overflows }
    ensures canonical { (code : ℕ) (args : List Value) (v : Value) → All IsCanonical args → meaning code args ≡ gives v → IsCanonical v }
{}

fn answer(alloc: Global, code: u8, args: Args<'_>) -> Result<Value, PrimStop>
    requires fits { Fits code (values_in args) }
    requires canonical { All IsCanonical (values_in args) }
    ensures { AnswersMeaning (meaning code (values_in args.entry)) result }
{
    primitives!(kept_of code alloc args)
}

// Apart from those that keep, since what is only borrowed has not to be dropped behind each answer.
fn look(alloc: Global, code: u8, args: &Args<'_>) -> Result<Value, PrimStop>
    requires fits { Fits code (values_in args.now) }
    requires canonical { All IsCanonical (values_in args.now) }
    requires looks { (code ≢ 19) × (code ≢ 20) × (code ≢ 21) × (code ≢ 22) × (code ≢ 27) × (code ≢ 28) × (code ≢ 29) }
    ensures { AnswersMeaning (meaning code (values_in args.now)) result }
{
    primitives!(looked_at_of code alloc args)
}

/// What the primitive of a code makes of arguments that fit the shape of its row, as the table means it. What is only
/// looked at is not copied, nor is what `take` leaves out; of what is handed over `flatten`, `setof`, `bagof`, `listof`
/// and `take` keep the items, and the forms of records the fields.
///
/// # Errors
/// `Overflow` exactly where the exact result leaves the 64-bit integers; `NoMemory`. What was handed over is dropped
/// then.
pub fn apply_args(alloc: Global, code: u8, args: Args<'_>) -> Result<Value, PrimStop>
    requires fits { Fits code (values_in args) }
    requires canonical { All IsCanonical (values_in args) }
    ensures value { IfOk result (λ v. meaning code (values_in args.entry) ≡ gives v) }
    ensures overflow { (result ≡ Err PrimStop.Overflow) ↔ (meaning code (values_in args.entry) ≡ overflows) }
    ensures canonical { IfOk result IsCanonical }
{
    answer(alloc, code, args)
}

/// The same of arguments that are all lent.
///
/// # Errors
/// `Overflow` exactly where the exact result leaves the 64-bit integers; `NoMemory`.
pub fn apply(alloc: Global, code: u8, args: &[Value]) -> Result<Value, PrimStop>
    requires fits { Fits code args.now }
    requires canonical { All IsCanonical args.now }
    ensures value { IfOk result (λ v. meaning code args.now ≡ gives v) }
    ensures overflow { (result ≡ Err PrimStop.Overflow) ↔ (meaning code args.now ≡ overflows) }
    ensures canonical { IfOk result IsCanonical }
{
    match args {
        [v] => apply_args(alloc, code, Args::One(Arg::Lent(v))),
        [v, w] => apply_args(alloc, code, Args::Two(Arg::Lent(v), Arg::Lent(w))),
        [] => unreachable!(),
        [_, _, _, ..] => unreachable!(),
    }
}
