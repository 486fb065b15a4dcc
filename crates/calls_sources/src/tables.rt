ghost use Rattle.std.specs.Prelude.{◌≡◌, true, IfOk};
ghost use Rattle.kl_type.specs.Ground.{IsProper};
ghost use Rattle.kl_flat.specs.Columns.{is_table_type};
ghost use Rattle.kl_outside.specs.Files.{NoneOpen};
ghost use Rattle.kl_outside.specs.Memory.{files_state};

use kl_ask::{Cmp, ColTest, Driver, Right};
use kl_base::{Box, Label, Seq, Text};
use kl_flat::{ColumnTable, FlatDriver, Table, read_columns, read_table};
use kl_outside::MemFiles;
use kl_type::Ty;
use kl_value::{Kind, Value};
use std::alloc::Global;
use std::test::Fail;

// `{|[n: int]|}`
fn counts(alloc: Global) -> Result<Ty, Fail>
    ensures suits { IfOk result (λ t. is_table_type t ≡ true) }
    ensures proper { IfOk result (λ t. IsProper t) }
{
    let label = Label::new(alloc, b"n")?.ok_or("no word")?;
    let fields = vec![in alloc; (label, Ty::Int)]?;
    let item = Box::new(alloc, Ty::Rec(Seq::of(fields)))?;
    Ok(Ty::Coll(Kind::Bag, item))
}

fn table(alloc: Global) -> Result<Table, Fail> {
    let ty = counts(alloc)?;
    Ok(read_table(alloc, b"m,n\n1,-3\n2, 007\t\n3,+5\n", &ty)?)
}

#[test]
fn a_table_is_read(rt: HostRuntime) -> Result<(), Fail> {
    let table = table(rt.alloc())?;
    assert_eq!(rt; table.rows.len(), 2);
    assert!(rt; table.bad == Some(3));
    Ok(())
}

fn columns(alloc: Global) -> Result<ColumnTable, Fail> {
    let ty = counts(alloc)?;
    Ok(read_columns(alloc, b"n\n-3\n7\n", &ty)?.table)
}

// `n = 7`
fn seven(alloc: Global) -> Result<ColTest, Fail> {
    Ok(ColTest {
        left: Label::new(alloc, b"n")?.ok_or("no word")?,
        op: Cmp::Eq,
        right: Right::Const(Value::Int(7)),
    })
}

// Whether a row, and a row of which no column is kept, are made.
fn has_rows(alloc: Global, table: &ColumnTable) -> Result<bool, Fail> {
    if table.len() < 2 {
        return Ok(false);
    }
    let places = table.places(alloc, &[])?;
    let whole = table.whole_row(alloc, 1)?;
    let shown = table.row(alloc, 1, &[])?;
    Ok(places.is_empty() && whole != shown)
}

#[test]
fn a_table_is_held_in_columns(rt: HostRuntime) -> Result<(), Fail> {
    let table = columns(rt.alloc())?;
    let test = seven(rt.alloc())?;
    assert!(rt; table.len() == 2 && table.test(&test).is_some());
    assert!(rt; has_rows(rt.alloc(), &table)?);
    Ok(())
}

fn text(alloc: Global, bytes: &[u8]) -> Result<Text, Fail> {
    Ok(Text::of(Vec::from_slice(alloc, bytes)?))
}

fn files(alloc: Global) -> Result<MemFiles, Fail>
    ensures { IfOk result (λ f. NoneOpen (files_state f)) }
{
    let path = text(alloc, b"t.csv")?;
    let table = text(alloc, b"n\n1\n2\n")?;
    Ok(MemFiles::new(alloc, vec![in alloc; (path, table)]?))
}

// Whether the table is attached, with two rows.
fn attaches(alloc: Global) -> Result<bool, Fail> {
    let name = Label::new(alloc, b"t")?.ok_or("no word")?;
    let path = text(alloc, b"t.csv")?;
    let ty = counts(alloc)?;
    let mut driver = FlatDriver::new(alloc, files(alloc)?);
    let count = driver.attach(&name, &path, &ty);
    Ok(count == Ok(2) && driver.starts() == 0)
}

#[test]
fn a_table_is_attached(rt: HostRuntime) -> Result<(), Fail> {
    assert!(rt; attaches(rt.alloc())?);
    Ok(())
}
