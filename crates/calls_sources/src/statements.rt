ghost use Rattle.std.specs.Prelude.{◌≡◌, IfOk};
ghost use Rattle.kl_sqltext.specs.Written.{CanRender, IsRight};

use kl_base::{Label, Seq, Text};
use kl_sqltext::{Spj, SqlError, SqlOp, SqlRight, SqlTest, read_sql, render, sql_laws};
use kl_value::Value;
use std::alloc::Global;
use std::test::Fail;

fn label(alloc: Global, word: &[u8]) -> Result<Label, Fail> {
    Ok(Label::new(alloc, word)?.ok_or("no word")?)
}

// `t0."name" = 'O''Brien'`
fn is_brien(alloc: Global) -> Result<SqlTest, Fail>
    ensures table { IfOk result (λ q. q.table ≡ 0) }
    ensures right { IfOk result (λ q. IsRight 1 q.right) }
{
    let column = label(alloc, b"name")?;
    let name = Text::of(Vec::from_slice(alloc, b"O'Brien")?);
    Ok(SqlTest {
        table: 0,
        column,
        op: SqlOp::Eq,
        right: SqlRight::Lit(Value::Text(name)),
    })
}

fn brien(alloc: Global) -> Result<Spj, Fail>
    ensures { IfOk result CanRender }
{
    let column = (0, label(alloc, b"id")?, label(alloc, b"n")?);
    let columns = Seq::of(vec![in alloc; column]?);
    let tables = Seq::of(vec![in alloc; label(alloc, b"people")?]?);
    let tests = Seq::of(vec![in alloc; is_brien(alloc)?]?);
    Ok(Spj {
        distinct: true,
        columns,
        tables,
        tests,
    })
}

#[test]
fn a_statement_is_rendered_and_read(rt: HostRuntime) -> Result<(), Fail> {
    let text = render(rt.alloc(), &brien(rt.alloc())?)?;
    let wanted =
        b"SELECT DISTINCT t0.\"id\" AS \"n\" FROM \"people\" t0 WHERE t0.\"name\" = 'O''Brien'";
    assert!(rt; text.slice() == wanted.as_slice());
    let found = read_sql(rt.alloc(), text.slice())?;
    assert!(rt; found.distinct);
    sql_laws();
    Ok(())
}

#[test]
fn a_test_is_missing(rt: HostRuntime) {
    let text = b"SELECT t0.\"a\" AS \"a\" FROM \"p\" t0 WHERE";
    assert!(rt; matches!(read_sql(rt.alloc(), text), Err(SqlError::Bad { place: 38 })));
}

#[test]
fn no_test_is_wanted(rt: HostRuntime) {
    assert!(rt; read_sql(rt.alloc(), b"SELECT t0.\"a\" AS \"a\" FROM \"p\" t0").is_ok());
}
