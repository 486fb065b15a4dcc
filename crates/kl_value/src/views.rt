//! What a value holds, where it is known to be of one shape. Nothing is copied, and nothing takes memory.
ghost use Rattle.std.specs.Prelude.{◌≡◌, IsSome};
ghost use Rattle.kl_value.specs.Views.{IsBool, IsInt, IsText, IsCollection, as_bool, as_int, as_text, as_collection};
ghost use Rattle.kl_value.specs.Views.{collection, items_at, field_at};

use crate::value::{Kind, Value};
use kl_base::Label;

/// The truth value that a value is.
pub fn bool_of(v: &Value) -> bool
    requires { IsBool v.now }
    ensures { as_bool v.now ≡ Some result }
{
    match v {
        Value::Bool(b) => *b,
        _ => unreachable!(),
    }
}

/// The integer that a value is.
pub fn int_of(v: &Value) -> i64
    requires { IsInt v.now }
    ensures { as_int v.now ≡ Some result }
{
    match v {
        Value::Int(n) => *n,
        _ => unreachable!(),
    }
}

/// The bytes of the text that a value is.
pub fn bytes_of(v: &Value) -> &[u8]
    requires { IsText v.now }
    ensures { as_text v.now ≡ Some result.now }
{
    match v {
        Value::Text(text) => text.slice(),
        _ => unreachable!(),
    }
}

/// The kind and the items of the collection that a value is.
pub fn parts_of(v: &Value) -> (Kind, &[Value])
    requires { IsCollection v.now }
    ensures reads { as_collection v.now ≡ Some (record { kind = result.0; items = result.1.now }) }
    ensures form { v.now ≡ collection result.0 result.1.now }
{
    match v {
        Value::Set(items) => (Kind::Set, items.slice()),
        Value::Bag(items) => (Kind::Bag, items.slice()),
        Value::List(items) => (Kind::List, items.slice()),
        _ => unreachable!(),
    }
}

/// The items of the collection of the kind that a value is.
pub fn items_of(kind: Kind, v: &Value) -> &[Value]
    requires { IsSome (items_at kind v.now) }
    ensures { items_at kind v.now ≡ Some result.now }
{
    match (kind, v) {
        (Kind::Set, Value::Set(items)) => items.slice(),
        (Kind::Bag, Value::Bag(items)) => items.slice(),
        (Kind::List, Value::List(items)) => items.slice(),
        _ => unreachable!(),
    }
}

/// The kind and the items of the collection that a value is, handed over.
pub fn into_parts(v: Value) -> (Kind, Vec<Value>)
    requires { IsCollection v }
    ensures { v ≡ collection result.0 result.1.items }
{
    match v {
        Value::Set(items) => (Kind::Set, items.into_vec()),
        Value::Bag(items) => (Kind::Bag, items.into_vec()),
        Value::List(items) => (Kind::List, items.into_vec()),
        _ => unreachable!(),
    }
}

/// The items of the collection of the kind that a value is, handed over.
pub fn into_items(kind: Kind, v: Value) -> Vec<Value>
    requires { IsSome (items_at kind v) }
    ensures { items_at kind v ≡ Some result.items }
{
    match (kind, v) {
        (Kind::Set, Value::Set(items)) => items.into_vec(),
        (Kind::Bag, Value::Bag(items)) => items.into_vec(),
        (Kind::List, Value::List(items)) => items.into_vec(),
        _ => unreachable!(),
    }
}

/// What stands at a label of the record that a value is.
pub fn field<'a>(v: &'a Value, label: &Label) -> &'a Value
    requires { IsSome (field_at label.now v.now) }
    ensures { field_at label.now v.now ≡ Some result.now }
{
    match v {
        Value::Rec(fields) => match fields.get(label) {
            Some(part) => part,
            None => unreachable!(),
        },
        _ => unreachable!(),
    }
}
