//! Statements, read off their bytes.
ghost use Rattle.std.specs.Prelude.{◌≡◌, ◌≤◌, ◌-◌, length, IfOk};
ghost use Rattle.kl_sqltext.specs.declared.ast.Spj.{Spj as ASpj};
ghost use Rattle.kl_sqltext.specs.Statements.{tables, a_from, more_column, columns_turn, columns, distinct, statement};
ghost use Rattle.kl_phrase.specs.Gives.{Gives};
ghost use Rattle.kl_sqltext.specs.Turns.{statement_turn, shorter};
ghost use Rattle.kl_base.specs.Results.{OrMemory};
ghost use Rattle.kl_sqltext.specs.declared.reading.SqlError.TheVariants.{NoMemory as WantOfMemory};
ghost use Rattle.kl_sqltext.specs.Reading.{SqlReads, RefusesSql};

use crate::ast::{Spj, SqlTest};
use crate::statements::{AfterTable, begins, column, last_turn, table, table_turn};
use crate::words::{code, gap, gaps, mark, space};
use kl_base::{Label, Seq};
use kl_phrase::Fault;
use std::alloc::Global;
use thiserror::Error;

/// Why bytes are no statement.
#[derive(Clone, Copy, Debug, PartialEq, Eq, Error)]
pub enum SqlError {
    /// The bytes are no statement; so many of them are the longest prefix that begins one.
    #[error("syntax at byte {place}")]
    Bad { place: u64 },
    /// Want of memory.
    #[error("out of memory")]
    NoMemory,
}

/// The tables, and the tests behind them.
fn tables(alloc: Global, bytes: &[u8]) -> Result<((Vec<Label>, Vec<SqlTest>), &[u8]), Fault<'_, u8>>
    ensures { Gives (λ x. (x.0.0.items, x.0.1.items)) (λ x. x.1.now) result (tables bytes.now) }
{
    let mut found = Vec::new(alloc);
    let (first, rest) = table(alloc, bytes, 0)?;
    found.push(first)?;
    let mut rest = rest;
    let mut number = 1;
    'tables: while number <= 9999 {
        match table_turn(alloc, rest, number) {
            Ok((after, more)) => match after {
                AfterTable::Table(name) => {
                    found.push(name)?;
                    rest = more;
                    number += 1;
                }
                AfterTable::Tests(tests) => return Ok(((found, tests), more)),
            },
            Err(fault) => return Err(fault),
        }
    }
    match last_turn(alloc, rest) {
        Ok((tests, more)) => Ok(((found, tests), more)),
        Err(fault) => Err(fault),
    }
}

/// `"FROM" tables`
fn a_from(alloc: Global, bytes: &[u8]) -> Result<((Vec<Label>, Vec<SqlTest>), &[u8]), Fault<'_, u8>>
    ensures { Gives (λ x. (x.0.0.items, x.0.1.items)) (λ x. x.1.now) result (a_from bytes.now) }
{
    let rest = code(bytes, b"FROM")?;
    tables(alloc, space(rest)?)
}

/// `"," column`
fn more_column(alloc: Global, bytes: &[u8]) -> Result<((u32, Label, Label), &[u8]), Fault<'_, u8>>
    ensures { Gives (λ x. x.0) (λ x. x.1.now) result (more_column bytes.now) }
{
    let rest = mark(bytes, b',')?;
    column(alloc, gap(rest))
}

/// What stands behind a column.
enum AfterColumn {
    /// Another column.
    Column((u32, Label, Label)),
    /// The tables and the tests, up to the end.
    Tables(Vec<Label>, Vec<SqlTest>),
}

/// Another column, or the tables.
fn columns_turn(alloc: Global, bytes: &[u8]) -> Result<(AfterColumn, &[u8]), Fault<'_, u8>>
    ensures gives { Gives (λ x. statement_turn x.0) (λ x. x.1.now) result (columns_turn bytes.now) }
    ensures less { IfOk result (λ x. shorter bytes.now x.0 x.1.now) }
{
    let (some, rest) = gaps(bytes);
    if begins(rest, b',') {
        let (next, rest) = more_column(alloc, rest)?;
        Ok((AfterColumn::Column(next), rest))
    } else if some {
        let ((found, tests), rest) = a_from(alloc, rest)?;
        Ok((AfterColumn::Tables(found, tests), rest))
    } else {
        Err(Fault::Bad(rest))
    }
}

/// What a statement has behind its columns: the tables and the tests.
#[derive(Drop)]
struct SpjParts {
    columns: Vec<(u32, Label, Label)>,
    tables: Vec<Label>,
    tests: Vec<SqlTest>,
}

/// The columns, and what stands behind them.
fn columns(alloc: Global, bytes: &[u8]) -> Result<(SpjParts, &[u8]), Fault<'_, u8>>
    ensures { Gives (λ x. (x.0.columns.items, (x.0.tables.items, x.0.tests.items))) (λ x. x.1.now) result (columns bytes.now) }
{
    let mut found = Vec::new(alloc);
    let (first, behind) = column(alloc, bytes)?;
    found.push(first)?;
    let mut rest = behind;
    'columns: loop {
        match columns_turn(alloc, rest) {
            Ok((after, more)) => match after {
                AfterColumn::Column(next) => {
                    found.push(next)?;
                    rest = more;
                }
                AfterColumn::Tables(tables, tests) => {
                    let body = SpjParts {
                        columns: found,
                        tables,
                        tests,
                    };
                    return Ok((body, more));
                }
            },
            Err(fault) => return Err(fault),
        }
    }
}

/// `[ "DISTINCT" ]`
fn distinct(bytes: &[u8]) -> Result<(bool, &[u8]), Fault<'_, u8>>
    ensures { Gives (λ x. x.0) (λ x. x.1.now) result (distinct bytes.now) }
{
    if begins(bytes, b'D') {
        let rest = code(bytes, b"DISTINCT")?;
        Ok((true, space(rest)?))
    } else {
        Ok((false, bytes))
    }
}

/// `"SELECT" distinct columns`
fn statement(alloc: Global, bytes: &[u8]) -> Result<(Spj, &[u8]), Fault<'_, u8>>
    ensures { Gives (λ x. x.0) (λ x. x.1.now) result (statement bytes.now) }
{
    let rest = code(bytes, b"SELECT")?;
    let (distinct, rest) = distinct(space(rest)?)?;
    match columns(alloc, rest) {
        Ok((body, rest)) => Ok((
            Spj {
                distinct,
                columns: Seq::of(body.columns),
                tables: Seq::of(body.tables),
                tests: Seq::of(body.tests),
            },
            rest,
        )),
        Err(fault) => Err(fault),
    }
}

/// How many bytes stand before this rest of them.
fn place_of(bytes: &[u8], rest: &[u8]) -> u64
    requires { length rest.now ≤ length bytes.now }
    ensures { result ≡ length bytes.now - length rest.now }
{
    (bytes.len() - rest.len()) as u64
}

/// The statement that the bytes are: `SELECT [DISTINCT] column {, column} FROM "NAME" ALIAS {, "NAME" ALIAS} [WHERE test
/// {AND test}]`, where a column is `ALIAS."NAME" AS "NAME"` and a test `ALIAS."NAME"`, a comparison, and another such column
/// or a constant. A NAME is a word. An ALIAS is `t` and a number up to 9,999 without leading zeros, which in FROM is the
/// table's place there, from 0; so there are at most 10,000 tables. A constant is `TRUE`, `FALSE`, an integer of 64 bits or a
/// text in single quotes, in which two of them are one. Keywords stand in capital letters, with white space on each side
/// except at the text's ends; around other tokens there may be some, and none at the text's ends.
///
/// # Errors
/// `Bad` exactly where the bytes are no statement, with the length of the longest prefix that begins one. Want of memory.
pub fn read_sql(alloc: Global, bytes: &[u8]) -> Result<Spj, SqlError>
    ensures reads { IfOk result (SqlReads bytes.now) }
    ensures only { (s : ASpj) → SqlReads bytes.now s → OrMemory WantOfMemory result s }
    ensures refused { RefusesSql bytes.now result }
{
    match statement(alloc, bytes) {
        Ok((found, [])) => Ok(found),
        Ok((_, rest)) => Err(SqlError::Bad {
            place: place_of(bytes, rest),
        }),
        Err(Fault::Memory) => Err(SqlError::NoMemory),
        Err(Fault::Bad(rest)) => Err(SqlError::Bad {
            place: place_of(bytes, rest),
        }),
        Err(Fault::Deep(_)) => unreachable!(),
    }
}
