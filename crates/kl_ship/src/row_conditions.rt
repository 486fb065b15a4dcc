//! The tests of rows that the front of a body has, as statements and asks hold them.
ghost use Rattle.std.specs.Prelude.{◌≡◌, ◌++◌, map, IfOk, OnOk, Some};
ghost use Rattle.kl_core.specs.Trees.{view, trees_view};
ghost use Rattle.kl_ship.specs.Delegation.{column_of, constant, test_between, test_of, test_by, taken, cmp_of, side_of, row_test};

use crate::conditions::{column_of, comparison, constant, is_front, mirrored};
use kl_ask::{Cmp, ColTest, Right};
use kl_base::NoMemory;
use kl_core::Term;
use kl_sqltext::{SqlOp, SqlRight, SqlTest};
use kl_value::{Kind, dup};
use std::alloc::Global;

/// The test of the rows at the positions below `rows` that a condition is.
///
/// # Errors
/// Want of memory.
pub fn test_of(alloc: Global, rows: u32, condition: &Term) -> Result<Option<SqlTest>, NoMemory>
    ensures { IfOk result (λ test. test ≡ test_of rows (view condition.now)) }
{
    match condition {
        Term::Prim(code, terms) => match comparison(*code) {
            Some(op) => test_by(alloc, rows, op, terms.slice()),
            None => Ok(None),
        },
        _ => Ok(None),
    }
}

// Two columns; a column and a constant; or a constant and a column, which is put on the left.
fn test_by(alloc: Global, rows: u32, op: SqlOp, terms: &[Term]) -> Result<Option<SqlTest>, NoMemory>
    ensures { IfOk result (λ test. test ≡ test_by rows (Some op) (trees_view terms.now)) }
{
    if terms.len() == 2 {
        test_between(alloc, rows, op, &terms[0], &terms[1])
    } else {
        Ok(None)
    }
}

fn test_between(
    alloc: Global,
    rows: u32,
    op: SqlOp,
    a: &Term,
    b: &Term,
) -> Result<Option<SqlTest>, NoMemory>
    ensures { IfOk result (λ test. test ≡ test_between op (column_of rows (view a.now)) (column_of rows (view b.now))
        (constant (view a.now)) (constant (view b.now))) }
{
    match column_of(rows, a) {
        Some(left) => match column_of(rows, b) {
            Some(other) => {
                let right = SqlRight::Col(other.0, other.1.dup()?);
                Ok(Some(SqlTest {
                    table: left.0,
                    column: left.1.dup()?,
                    op,
                    right,
                }))
            }
            None => match constant(b) {
                Some(value) => {
                    let right = SqlRight::Lit(dup(alloc, value)?);
                    Ok(Some(SqlTest {
                        table: left.0,
                        column: left.1.dup()?,
                        op,
                        right,
                    }))
                }
                None => Ok(None),
            },
        },
        None => match column_of(rows, b) {
            Some(left) => match constant(a) {
                Some(value) => {
                    let right = SqlRight::Lit(dup(alloc, value)?);
                    Ok(Some(SqlTest {
                        table: left.0,
                        column: left.1.dup()?,
                        op: mirrored(op),
                        right,
                    }))
                }
                None => Ok(None),
            },
            None => Ok(None),
        },
    }
}

/// Adds the tests of the front of a body, in their order.
///
/// # Errors
/// Want of memory; some may have been added then.
pub fn tests_in(
    alloc: Global,
    kind: Kind,
    rows: u32,
    body: &Term,
    into: &mut Vec<SqlTest>,
) -> Result<(), NoMemory>
    ensures { OnOk result (into.new.items ≡ into.old.items ++ taken kind rows (view body.now)) }
{
    if let Term::If(condition, then, other) = body {
        if is_front(kind, condition.get(), other.get()) {
            if let Some(test) = test_of(alloc, rows, condition.get())? {
                into.push(test)?;
            }
            tests_in(alloc, kind, rows, then.get(), into)?;
        }
    }
    Ok(())
}

fn cmp_of(op: SqlOp) -> Cmp
    ensures { result ≡ cmp_of op }
{
    match op {
        SqlOp::Eq => Cmp::Eq,
        SqlOp::Ne => Cmp::Ne,
        SqlOp::Lt => Cmp::Lt,
        SqlOp::Le => Cmp::Le,
        SqlOp::Gt => Cmp::Gt,
        SqlOp::Ge => Cmp::Ge,
    }
}

fn side_of(right: SqlRight) -> Right
    ensures { result ≡ side_of right }
{
    match right {
        SqlRight::Col(_, label) => Right::Col(label),
        SqlRight::Lit(value) => Right::Const(value),
    }
}

fn row_test(test: SqlTest) -> ColTest
    ensures { result ≡ row_test test }
{
    ColTest {
        left: test.column,
        op: cmp_of(test.op),
        right: side_of(test.right),
    }
}

/// Tests of the rows of one source.
///
/// # Errors
/// Want of memory.
pub fn row_tests(alloc: Global, tests: Vec<SqlTest>) -> Result<Vec<ColTest>, NoMemory>
    ensures { IfOk result (λ made. made.items ≡ map row_test tests.items) }
{
    let mut made = Vec::with_capacity(alloc, tests.len())?;
    for test in tests {
        made.push(row_test(test))?;
    }
    Ok(made)
}
