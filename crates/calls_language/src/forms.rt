ghost use Rattle.std.specs.Prelude.{◌≡◌, []};

use crate::programs::label;
use kl_base::Label;
use kl_forms::{
    any_items_of, applied, field_of, fresh_types, items_of, operated, value, variant_of,
};
use kl_rows::Unifier;
use kl_syntax::Op;
use kl_value::{Kind, Value};
use std::test::Fail;

// Whether a record can have sets at a label, whose items are added and which are counted, and whether no sum is true.
fn asks(types: &mut Unifier, vols: &Label, yes: &Value, seven: &Value) -> Result<bool, Fail>
    requires { types.old.cells.items ≡ [] }
{
    let record = types.fresh_type()?;
    let Some(vols) = field_of(types, vols, record)? else {
        return Ok(false);
    };
    let Some(vol) = items_of(types, Kind::Set, vols)? else {
        return Ok(false);
    };
    if !value(types, seven, vol)? {
        return Ok(false);
    }
    let Some(sum) = operated(types, Op::Add, vol, vol)? else {
        return Ok(false);
    };
    let count = [vols];
    let counts = applied(types, 14, &count, sum)?;
    let is_true = value(types, yes, sum)?;
    Ok(counts && !is_true)
}

#[test]
fn forms_ask_of_types(rt: HostRuntime) -> Result<(), Fail> {
    let mut types = Unifier::new(rt.alloc());
    let vols = label(rt.alloc(), b"vols")?;
    assert!(rt; asks(&mut types, &vols, &Value::Bool(true), &Value::Int(7))?);
    Ok(())
}

// Whether a variant can have collections of any kind at a label, with items of some type, beside two further types.
fn asks_of_variants(types: &mut Unifier, vols: &Label) -> Result<bool, Fail>
    requires { types.old.cells.items ≡ [] }
{
    let variant = types.fresh_type()?;
    let Some(vols) = variant_of(types, vols, variant)? else {
        return Ok(false);
    };
    let found = any_items_of(types, vols)?;
    let more = fresh_types(types, 2)?;
    Ok(found.is_some() && more.len() == 2)
}

#[test]
fn forms_ask_of_open_types(rt: HostRuntime) -> Result<(), Fail> {
    let mut types = Unifier::new(rt.alloc());
    let vols = label(rt.alloc(), b"vols")?;
    assert!(rt; asks_of_variants(&mut types, &vols)?);
    Ok(())
}
