ghost use Rattle.kl_value.specs.IsCanonical.{IsCanonical};
ghost use Rattle.kl_value.specs.Views.{IsInt};

use kl_prim::{Arg, Args, apply, apply_args, row_of, table};
use kl_value::Value;
use std::test::Fail;

fn int(n: i64) -> Value
    ensures form { IsInt result }
    ensures canonical { IsCanonical result }
{
    Value::Int(n)
}

#[test]
fn the_table_is_looked_up_by_name_and_by_code(rt: HostRuntime) {
    let table = table();
    assert!(rt; table.find(b"count").is_some_and(|row| row.code == 14));
    assert!(rt; row_of(14).is_some_and(|row| row.name == b"count".as_slice()));
}

#[test]
fn arguments_are_lent_or_handed_over(rt: HostRuntime) -> Result<(), Fail> {
    let two = int(2);
    let sum = apply_args(
        rt.alloc(),
        7,
        Args::Two(Arg::Lent(&two), Arg::Owned(int(3))),
    );
    assert!(rt; sum == Ok(Value::Int(5)));
    Ok(())
}

#[test]
fn arguments_are_lent(rt: HostRuntime) -> Result<(), Fail> {
    let args = [int(4)];
    let less = apply(rt.alloc(), 10, &args);
    assert!(rt; less == Ok(Value::Int(-4)));
    Ok(())
}
