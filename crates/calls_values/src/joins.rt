ghost use Rattle.std.specs.Prelude.{◌≡◌, true, IfOk, IsSome};
ghost use Rattle.kl_value.specs.Views.{field_at};

use crate::values::{field, label};
use kl_join::{Block, Index};
use kl_value::{Fields, Label, Value};
use std::alloc::Global;
use std::test::Fail;

fn takes(block: &mut Block, at: i64) -> bool {
    block.push(Value::Int(at)).is_ok()
}

fn holds(block: &Block, count: usize) -> bool {
    block.rows().len() == count
}

#[test]
fn a_block_takes_rows_up_to_its_cap(rt: HostRuntime) -> Result<(), Fail> {
    let mut block = Block::new(rt.alloc(), 2)?;
    assert!(rt; takes(&mut block, 1) && takes(&mut block, 2));
    assert!(rt; !takes(&mut block, 3) && holds(&block, 2));
    block.clear();
    assert!(rt; takes(&mut block, 3) && holds(&block, 1));
    Ok(())
}

// `[k=AT]`
fn row(alloc: Global, at: i64) -> Result<Value, Fail> {
    let pairs = vec![in alloc; field(alloc, b"k", Value::Int(at))?]?;
    Ok(Value::Rec(Fields::new(pairs)?.ok_or("a label repeats")?))
}

fn has_label(row: &Value, label: &Label) -> bool
    ensures { result ≡ true → IsSome (field_at label.now row.now) }
{
    match row {
        Value::Rec(fields) => fields.get(label).is_some(),
        _ => false,
    }
}

// Adds `[k=AT]` to an index by the label k.
fn add_row(alloc: Global, index: &mut Index, label: &Label, at: i64) -> Result<(), Fail>
    requires { index.old.label ≡ label.now }
    ensures { index.new.label ≡ label.now }
{
    let row = row(alloc, at)?;
    if !has_label(&row, label) {
        return Err(Fail::from("no label"));
    }
    Ok(index.add(row)?)
}

// The rows `[k=0]` up to `[k=COUNT-1]`, under their k.
fn index_of(alloc: Global, label: &Label, count: i64) -> Result<Index, Fail>
    ensures { IfOk result (λ index. index.label ≡ label.now) }
{
    let mut index = Index::new(alloc, label.dup()?);
    'rows: for at in 0..count {
        add_row(alloc, &mut index, label, at)?;
    }
    Ok(index)
}

// Whether the row alone stands under the key.
fn is_alone(index: &Index, key: i64, row: &Value) -> bool {
    matches!(index.rows(&Value::Int(key)), [found] if *found == *row)
}

// Whether so many rows stand alone under their keys, and none under the key behind theirs.
fn are_alone(alloc: Global, index: &Index, count: i64) -> Result<bool, Fail> {
    for at in 0..count {
        if !is_alone(index, at, &row(alloc, at)?) {
            return Ok(false);
        }
    }
    Ok(index.rows(&Value::Int(count)).is_empty())
}

// Whether so many rows are found.
fn finds_all(alloc: Global, label: &Label, count: i64) -> Result<bool, Fail> {
    let index = index_of(alloc, label, count)?;
    are_alone(alloc, &index, count)
}

// A search through all rows for each of them would not end.
#[test]
fn index_looks_up(rt: HostRuntime) -> Result<(), Fail> {
    let label = label(rt.alloc(), b"k")?;
    assert!(rt; finds_all(rt.alloc(), &label, 500_000)?);
    Ok(())
}

fn are_two(index: &Index, key: i64) -> bool {
    index.rows(&Value::Int(key)).len() == 2
}

fn finds_two(alloc: Global, label: &Label) -> Result<bool, Fail> {
    let mut index = index_of(alloc, label, 3)?;
    add_row(alloc, &mut index, label, 0)?;
    Ok(are_two(&index, 0))
}

#[test]
fn rows_of_one_key_stand_together(rt: HostRuntime) -> Result<(), Fail> {
    let label = label(rt.alloc(), b"k")?;
    assert!(rt; finds_two(rt.alloc(), &label)?);
    Ok(())
}
