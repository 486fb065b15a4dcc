//! Which values have a type.
ghost use Rattle.std.specs.Prelude.{◌≡◌, false};
ghost use Rattle.std.specs.List.{list_all};
ghost use Rattle.std.specs.Option.{option_map_or};
ghost use Rattle.kl_base.specs.Fields.{field};
ghost use Rattle.kl_type.specs.Has.{has_type, fields_have};

use crate::ground::{Ty, TyFields, as_items, as_record, as_variant, is_bool, is_int, is_string};
use kl_base::Label;
use kl_value::{Fields, Kind, Value};

/// Whether the value has the type. Takes no memory.
///
/// A record has a record type with the same labels where each field has its type, a variant a variant type with its
/// label where the payload has the type there, and a collection the type of its kind over a type that all its items
/// have.
#[cycle(has)]
#[tactic(auto, using(crate::proofs::HasLemmas::has_rules))]
pub fn has(v: &Value, t: &Ty) -> bool
    ensures { result ≡ has_type v.now t.now }
{
    match v {
        Value::Bool(_) => is_bool(t),
        Value::Int(_) => is_int(t),
        Value::Text(_) => is_string(t),
        Value::Rec(fields) => match as_record(t) {
            None => false,
            Some(types) => fields_have(fields, types),
        },
        Value::Inj(label, inner) => match as_variant(t) {
            None => false,
            Some(types) => has_at(label, inner.get(), types),
        },
        Value::Set(items) => match as_items(Kind::Set, t) {
            None => false,
            Some(item) => all_have(items.slice(), item),
        },
        Value::Bag(items) => match as_items(Kind::Bag, t) {
            None => false,
            Some(item) => all_have(items.slice(), item),
        },
        Value::List(items) => match as_items(Kind::List, t) {
            None => false,
            Some(item) => all_have(items.slice(), item),
        },
    }
}

// Whether the value has the type that stands at the label.
#[cycle(has)]
fn has_at(label: &Label, v: &Value, types: &TyFields) -> bool
    ensures { result ≡ option_map_or (has_type v.now) (field label.now types.now) false }
{
    match types.get(label) {
        None => false,
        Some(t) => has(v, t),
    }
}

#[cycle(has)]
fn all_have(items: &[Value], t: &Ty) -> bool
    ensures { result ≡ list_all (λ v. has_type v t.now) items.now }
{
    for item in items {
        if !has(item, t) {
            return false;
        }
    }
    true
}

#[cycle(has)]
fn fields_have(fields: &Fields, types: &TyFields) -> bool
    ensures { result ≡ fields_have has_type fields.now types.now }
{
    let fields = fields.slice();
    let types = types.slice();
    if fields.len() != types.len() {
        return false;
    }
    for i in 0..fields.len() {
        if fields[i].0 != types[i].0 || !has(&fields[i].1, &types[i].1) {
            return false;
        }
    }
    true
}
