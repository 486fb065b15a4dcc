//! The primitives, a function each.
ghost use Rattle.std.specs.Prelude.{All};
ghost use Rattle.kl_value.specs.IsCanonical.{IsCanonical};
ghost use Rattle.kl_value.specs.Views.{IsBool, IsInt, IsText, IsCollection};
ghost use Rattle.kl_prim.specs.Arguments.{values_in};
ghost use Rattle.kl_prim.specs.Fits.{IsAny, IsCollectionOfInts, IsNested, OneOf, TwoOf, TwoRecords};
ghost use Rattle.kl_prim.specs.Records.{has_all, share_none};
ghost use Rattle.kl_prim.specs.Meaning.{AnswersMeaning};
ghost use Rattle.kl_prim.specs.Meaning as meaning;

use crate::args::{Arg, Args, alone, both};
use crate::collections::{self, convert, flatten_lent, flatten_owned, taken};
use crate::numbers::{self, amount, number_of};
use crate::records::{fields_of, fields_taken, fields_without, ordered};
use crate::stop::PrimStop;
use crate::texts;
use crate::views::{
    one_bool, one_collection, one_int, one_text, two_ints, two_texts, two_values,
    value_and_collection,
};
use kl_value::{Kind, Seq, Value, cmp, int_of, into_parts, parts_of};
use std::alloc::Global;

/// Whether two values are equal.
pub fn equal(args: &Args<'_>) -> Result<Value, PrimStop>
    requires { TwoOf IsAny IsAny (values_in args.now) }
    ensures { AnswersMeaning (meaning.equal (values_in args.now)) result }
{
    let (v, w) = two_values(args);
    Ok(Value::Bool(cmp(v, w).is_eq()))
}

/// Whether they are not.
pub fn unequal(args: &Args<'_>) -> Result<Value, PrimStop>
    requires { TwoOf IsAny IsAny (values_in args.now) }
    ensures { AnswersMeaning (meaning.unequal (values_in args.now)) result }
{
    let (v, w) = two_values(args);
    Ok(Value::Bool(cmp(v, w).is_ne()))
}

/// Whether the first is below the second.
pub fn below(args: &Args<'_>) -> Result<Value, PrimStop>
    requires { TwoOf IsAny IsAny (values_in args.now) }
    ensures { AnswersMeaning (meaning.below (values_in args.now)) result }
{
    let (v, w) = two_values(args);
    Ok(Value::Bool(cmp(v, w).is_lt()))
}

/// Whether the first is at most the second.
pub fn at_most(args: &Args<'_>) -> Result<Value, PrimStop>
    requires { TwoOf IsAny IsAny (values_in args.now) }
    ensures { AnswersMeaning (meaning.at_most (values_in args.now)) result }
{
    let (v, w) = two_values(args);
    Ok(Value::Bool(cmp(v, w).is_le()))
}

/// Whether the first is above the second.
pub fn above(args: &Args<'_>) -> Result<Value, PrimStop>
    requires { TwoOf IsAny IsAny (values_in args.now) }
    ensures { AnswersMeaning (meaning.above (values_in args.now)) result }
{
    let (v, w) = two_values(args);
    Ok(Value::Bool(cmp(v, w).is_gt()))
}

/// Whether the first is at least the second.
pub fn at_least(args: &Args<'_>) -> Result<Value, PrimStop>
    requires { TwoOf IsAny IsAny (values_in args.now) }
    ensures { AnswersMeaning (meaning.at_least (values_in args.now)) result }
{
    let (v, w) = two_values(args);
    Ok(Value::Bool(cmp(v, w).is_ge()))
}

/// The sum of two integers.
pub fn add(args: &Args<'_>) -> Result<Value, PrimStop>
    requires { TwoOf IsInt IsInt (values_in args.now) }
    ensures { AnswersMeaning (meaning.add (values_in args.now)) result }
{
    let (m, n) = two_ints(args);
    numbers::add(m, n)
}

/// The first less the second.
pub fn subtract(args: &Args<'_>) -> Result<Value, PrimStop>
    requires { TwoOf IsInt IsInt (values_in args.now) }
    ensures { AnswersMeaning (meaning.subtract (values_in args.now)) result }
{
    let (m, n) = two_ints(args);
    numbers::subtract(m, n)
}

/// Their product.
pub fn multiply(args: &Args<'_>) -> Result<Value, PrimStop>
    requires { TwoOf IsInt IsInt (values_in args.now) }
    ensures { AnswersMeaning (meaning.multiply (values_in args.now)) result }
{
    let (m, n) = two_ints(args);
    numbers::multiply(m, n)
}

/// The opposite of an integer.
pub fn negate(args: &Args<'_>) -> Result<Value, PrimStop>
    requires { OneOf IsInt (values_in args.now) }
    ensures { AnswersMeaning (meaning.negate (values_in args.now)) result }
{
    numbers::negate(one_int(args))
}

/// Whether a truth value is false.
pub fn complement(args: &Args<'_>) -> Result<Value, PrimStop>
    requires { OneOf IsBool (values_in args.now) }
    ensures { AnswersMeaning (meaning.complement (values_in args.now)) result }
{
    Ok(Value::Bool(!one_bool(args)))
}

/// The first text, then the second.
pub fn join(alloc: Global, args: &Args<'_>) -> Result<Value, PrimStop>
    requires { TwoOf IsText IsText (values_in args.now) }
    ensures { AnswersMeaning (meaning.join (values_in args.now)) result }
{
    let (s, t) = two_texts(args);
    texts::join(alloc, s, t)
}

/// Whether a collection has no item.
pub fn is_empty(args: &Args<'_>) -> Result<Value, PrimStop>
    requires { OneOf IsCollection (values_in args.now) }
    ensures { AnswersMeaning (meaning.is_empty (values_in args.now)) result }
{
    let (_, items) = one_collection(args);
    Ok(Value::Bool(items.is_empty()))
}

/// How many items a collection has.
pub fn count(args: &Args<'_>) -> Result<Value, PrimStop>
    requires { OneOf IsCollection (values_in args.now) }
    ensures { AnswersMeaning (meaning.count (values_in args.now)) result }
{
    let (_, items) = one_collection(args);
    Ok(amount(items))
}

/// The exact total of a collection of integers.
pub fn sum(args: &Args<'_>) -> Result<Value, PrimStop>
    requires { OneOf IsCollectionOfInts (values_in args.now) }
    ensures { AnswersMeaning (meaning.sum (values_in args.now)) result }
{
    let (_, items) = one_collection(args);
    numbers::sum(items)
}

/// Whether a value is an item of a collection.
pub fn member(args: &Args<'_>) -> Result<Value, PrimStop>
    requires fits { TwoOf IsAny IsCollection (values_in args.now) }
    requires canonical { All IsCanonical (values_in args.now) }
    ensures { AnswersMeaning (meaning.member (values_in args.now)) result }
{
    let (v, kind, items) = value_and_collection(args);
    Ok(Value::Bool(collections::member(v, kind, items)))
}

/// The collection of the least item alone, or of none.
pub fn least(alloc: Global, args: &Args<'_>) -> Result<Value, PrimStop>
    requires fits { OneOf IsCollection (values_in args.now) }
    requires canonical { All IsCanonical (values_in args.now) }
    ensures { AnswersMeaning (meaning.least (values_in args.now)) result }
{
    let (kind, items) = one_collection(args);
    collections::least(alloc, kind, items)
}

/// The collection of the greatest item alone, or of none.
pub fn greatest(alloc: Global, args: &Args<'_>) -> Result<Value, PrimStop>
    requires fits { OneOf IsCollection (values_in args.now) }
    requires canonical { All IsCanonical (values_in args.now) }
    ensures { AnswersMeaning (meaning.greatest (values_in args.now)) result }
{
    let (kind, items) = one_collection(args);
    collections::greatest(alloc, kind, items)
}

/// The items of the items of a collection, in order, as a collection of its kind.
pub fn flatten(alloc: Global, args: Args<'_>) -> Result<Value, PrimStop>
    requires { OneOf IsNested (values_in args) }
    ensures { AnswersMeaning (meaning.flatten (values_in args.entry)) result }
{
    match alone(args) {
        Arg::Lent(v) => {
            let (kind, items) = parts_of(v);
            flatten_lent(alloc, kind, items)
        }
        Arg::Owned(v) => {
            let (kind, items) = into_parts(v);
            flatten_owned(alloc, kind, items)
        }
    }
}

/// The set of the items of a collection.
pub fn setof(alloc: Global, args: Args<'_>) -> Result<Value, PrimStop>
    requires fits { OneOf IsCollection (values_in args) }
    requires canonical { All IsCanonical (values_in args) }
    ensures { AnswersMeaning (meaning.into Kind.Set (values_in args.entry)) result }
{
    let (kind, items) = taken(alloc, alone(args))?;
    convert(kind, items, Kind::Set)
}

/// The bag of the items of a collection.
pub fn bagof(alloc: Global, args: Args<'_>) -> Result<Value, PrimStop>
    requires fits { OneOf IsCollection (values_in args) }
    requires canonical { All IsCanonical (values_in args) }
    ensures { AnswersMeaning (meaning.into Kind.Bag (values_in args.entry)) result }
{
    let (kind, items) = taken(alloc, alone(args))?;
    convert(kind, items, Kind::Bag)
}

/// The list of the items of a collection.
pub fn listof(alloc: Global, args: Args<'_>) -> Result<Value, PrimStop>
    requires fits { OneOf IsCollection (values_in args) }
    requires canonical { All IsCanonical (values_in args) }
    ensures { AnswersMeaning (meaning.into Kind.List (values_in args.entry)) result }
{
    let (kind, items) = taken(alloc, alone(args))?;
    convert(kind, items, Kind::List)
}

/// How many bytes a text has.
pub fn text_length(args: &Args<'_>) -> Result<Value, PrimStop>
    requires { OneOf IsText (values_in args.now) }
    ensures { AnswersMeaning (meaning.text_length (values_in args.now)) result }
{
    Ok(amount(one_text(args)))
}

/// Whether the second text is a prefix of the first.
pub fn begins_with(args: &Args<'_>) -> Result<Value, PrimStop>
    requires { TwoOf IsText IsText (values_in args.now) }
    ensures { AnswersMeaning (meaning.begins_with (values_in args.now)) result }
{
    let (s, t) = two_texts(args);
    Ok(Value::Bool(s.starts_with(t)))
}

/// The set of the integer that a text writes, or of none.
pub fn to_int(alloc: Global, args: &Args<'_>) -> Result<Value, PrimStop>
    requires { OneOf IsText (values_in args.now) }
    ensures { AnswersMeaning (meaning.to_int (values_in args.now)) result }
{
    texts::to_int(alloc, one_text(args))
}

/// The canonical text of an integer.
pub fn to_text(alloc: Global, args: &Args<'_>) -> Result<Value, PrimStop>
    requires { OneOf IsInt (values_in args.now) }
    ensures { AnswersMeaning (meaning.to_text (values_in args.now)) result }
{
    texts::to_text(alloc, one_int(args))
}

/// All fields of two records that share no label.
pub fn extend(alloc: Global, args: Args<'_>) -> Result<Value, PrimStop>
    requires { TwoRecords share_none (values_in args) }
    ensures { AnswersMeaning (meaning.extend (values_in args.entry)) result }
{
    let (first, second) = both(args);
    let mut fields = fields_taken(alloc, first)?;
    fields.append(&mut fields_taken(alloc, second)?)?;
    Ok(Value::Rec(Seq::of(ordered(fields)?)))
}

/// The fields of a record but for the labels of another, which it has all.
pub fn rest(alloc: Global, args: Args<'_>) -> Result<Value, PrimStop>
    requires { TwoRecords has_all (values_in args) }
    ensures { AnswersMeaning (meaning.rest (values_in args.entry)) result }
{
    let (record, gone) = both(args);
    let fields = fields_without(alloc, record, fields_of(gone.get()))?;
    Ok(Value::Rec(Seq::of(fields)))
}

/// So many items of a collection, from the first on, or all.
pub fn first_items(alloc: Global, args: Args<'_>) -> Result<Value, PrimStop>
    requires { TwoOf IsInt IsCollection (values_in args) }
    ensures { AnswersMeaning (meaning.first_items (values_in args.entry)) result }
{
    let (number, items) = both(args);
    collections::first_items(alloc, items, number_of(int_of(number.get())))
}

/// Whether the second text is a suffix of the first.
pub fn finishes_with(args: &Args<'_>) -> Result<Value, PrimStop>
    requires { TwoOf IsText IsText (values_in args.now) }
    ensures { AnswersMeaning (meaning.finishes_with (values_in args.now)) result }
{
    let (s, t) = two_texts(args);
    Ok(Value::Bool(s.ends_with(t)))
}
