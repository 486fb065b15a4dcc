//! What is made of records.
ghost use Rattle.std.specs.Prelude.{◌≡◌, IfOk, IsSomeAnd};
ghost use Rattle.kl_prim.specs.Arguments.{value_in};
ghost use Rattle.kl_prim.specs.Records.{IsRecord, as_record, in_order, is_label_of, without};

use crate::args::Arg;
use kl_value::{Fields, Label, NoMemory, Value, dup};
use std::alloc::Global;

/// The fields of the record that a value is.
pub fn fields_of(v: &Value) -> &Fields
    requires { IsRecord v.now }
    ensures { as_record v.now ≡ Some result.now }
{
    match v {
        Value::Rec(fields) => fields,
        _ => unreachable!(),
    }
}

/// The fields of the record that a value is, handed over.
fn into_fields(v: Value) -> Vec<(Label, Value)>
    requires { IsRecord v }
    ensures { as_record v ≡ Some result.items }
{
    match v {
        Value::Rec(fields) => fields.into_vec(),
        _ => unreachable!(),
    }
}

/// The fields of the record that an argument is: copies where it is lent.
pub fn fields_taken(alloc: Global, arg: Arg<'_>) -> Result<Vec<(Label, Value)>, NoMemory>
    requires { IsRecord (value_in arg) }
    ensures { IfOk result (λ fields. as_record (value_in arg.entry) ≡ Some fields.items) }
{
    match arg {
        Arg::Lent(v) => Ok(into_fields(dup(alloc, v)?)),
        Arg::Owned(v) => Ok(into_fields(v)),
    }
}

/// The fields by rising label.
pub fn ordered(fields: Vec<(Label, Value)>) -> Result<Vec<(Label, Value)>, NoMemory>
    ensures { IfOk result (λ all. all.items ≡ in_order fields.items) }
{
    let mut fields = fields;
    fields.sort_by(|a, b| a.0.cmp(&b.0))?;
    Ok(fields)
}

// Copies of the fields whose labels the others do not have.
fn copies_without(
    alloc: Global,
    fields: &[(Label, Value)],
    gone: &Fields,
) -> Result<Vec<(Label, Value)>, NoMemory>
    ensures { IfOk result (λ kept. kept.items ≡ without (is_label_of gone.now) fields.now) }
{
    let mut kept = Vec::with_capacity(alloc, fields.len())?;
    for field in fields {
        if gone.get(&field.0).is_none() {
            let label = field.0.dup()?;
            let value = dup(alloc, &field.1)?;
            kept.push((label, value))?;
        }
    }
    Ok(kept)
}

// The fields whose labels the others do not have.
fn kept_without(
    alloc: Global,
    fields: Vec<(Label, Value)>,
    gone: &Fields,
) -> Result<Vec<(Label, Value)>, NoMemory>
    ensures { IfOk result (λ kept. kept.items ≡ without (is_label_of gone.now) fields.items) }
{
    let mut kept = Vec::with_capacity(alloc, fields.len())?;
    for field in fields {
        if gone.get(&field.0).is_none() {
            kept.push(field)?;
        }
    }
    Ok(kept)
}

/// The fields of the record that an argument is, but for those whose labels the others have. Of a record that is lent
/// they alone are copied.
pub fn fields_without(
    alloc: Global,
    arg: Arg<'_>,
    gone: &Fields,
) -> Result<Vec<(Label, Value)>, NoMemory>
    requires { IsRecord (value_in arg) }
    ensures { IfOk result (λ kept. IsSomeAnd (as_record (value_in arg.entry))
        (λ fields. kept.items ≡ without (is_label_of gone.now) fields)) }
{
    match arg {
        Arg::Lent(v) => copies_without(alloc, fields_of(v).slice(), gone),
        Arg::Owned(v) => kept_without(alloc, into_fields(v), gone),
    }
}
