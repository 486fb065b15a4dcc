//! Taking the parts of a statement off the front of bytes.
ghost use Rattle.std.specs.Prelude.{◌≡◌, ◌<◌, ◌≤◌, ◌+◌, ◌^◌, [], length, IfOk};
ghost use Rattle.kl_phrase.specs.Words.{heads};
ghost use Rattle.kl_phrase.specs.Readers.{behind};
ghost use Rattle.kl_sqltext.specs.Words.{is_blank, minus};
ghost use Rattle.kl_sqltext.specs.Descent.{is, space};
ghost use Rattle.kl_sqltext.specs.Statements.{alias, ref, shown_as, column, number, plain, begins_plain, truth, after_op, comparison};
ghost use Rattle.kl_sqltext.specs.Statements.{test, conjunction, tests, own_alias};
ghost use Rattle.kl_sqltext.specs.Statements.{a_where, table, last_turn, table_turn, goes_further};
ghost use Rattle.kl_phrase.specs.Gives.{Gives};
ghost use Rattle.kl_sqltext.specs.Turns.{tables_turn};

use crate::ast::{SqlOp, SqlRight, SqlTest};
use crate::numbers::{begins_digit, natural, place};
use crate::words::{an_op, code, gap, gaps, is_blank, mark, named, space, text};
use itoa::Buffer;
use kl_base::Label;
use kl_phrase::Fault;
use kl_value::Value;
use std::alloc::Global;

/// Whether the bytes begin with this one.
pub fn begins(bytes: &[u8], byte: u8) -> bool
    ensures { result ≡ heads (is byte) bytes.now }
{
    match bytes {
        [first, ..] => *first == byte,
        [] => false,
    }
}

fn begins_blank(bytes: &[u8]) -> bool
    ensures { result ≡ heads is_blank bytes.now }
{
    match bytes {
        [first, ..] => is_blank(*first),
        [] => false,
    }
}

/// `alias := "t" number`
fn alias(bytes: &[u8]) -> Result<(u32, &[u8]), Fault<'_, u8>>
    ensures { Gives (λ x. x.0) (λ x. x.1.now) result (alias bytes.now) }
{
    let rest = mark(bytes, b't')?;
    place(rest)
}

/// `ref := alias "." named`
fn reference(alloc: Global, bytes: &[u8]) -> Result<((u32, Label), &[u8]), Fault<'_, u8>>
    ensures { Gives (λ x. x.0) (λ x. x.1.now) result (ref bytes.now) }
{
    let (table, rest) = alias(bytes)?;
    let rest = mark(gap(rest), b'.')?;
    let (column, rest) = named(alloc, gap(rest))?;
    Ok(((table, column), rest))
}

/// `column := ref "AS" named`
pub fn column(alloc: Global, bytes: &[u8]) -> Result<((u32, Label, Label), &[u8]), Fault<'_, u8>>
    ensures { Gives (λ x. x.0) (λ x. x.1.now) result (column bytes.now) }
{
    let ((table, column), rest) = reference(alloc, bytes)?;
    let (shown, rest) = shown_as(alloc, rest)?;
    Ok(((table, column, shown), rest))
}

/// `"AS" named`, behind white space.
fn shown_as(alloc: Global, bytes: &[u8]) -> Result<(Label, &[u8]), Fault<'_, u8>>
    ensures { Gives (λ x. x.0) (λ x. x.1.now) result (shown_as bytes.now) }
{
    let rest = code(space(bytes)?, b"AS")?;
    named(alloc, space(rest)?)
}

/// `[ "-" ] digits`, within 64 bits. White space may stand between.
fn number(bytes: &[u8]) -> Result<(SqlRight, &[u8]), Fault<'_, u8>>
    ensures { Gives (λ x. x.0) (λ x. x.1.now) result (number bytes.now) }
{
    if begins(bytes, b'-') {
        let (value, rest) = natural(gap(mark(bytes, b'-')?), 9_223_372_036_854_775_808)?;
        Ok((SqlRight::Lit(Value::Int(negative(value))), rest))
    } else {
        let (value, rest) = natural(bytes, 9_223_372_036_854_775_807)?;
        Ok((SqlRight::Lit(Value::Int(value as i64)), rest))
    }
}

/// The negative integer of a magnitude.
fn negative(magnitude: u64) -> i64
    requires { magnitude ≤ 2 ^ 63 }
    ensures { result ≡ minus magnitude }
{
    if magnitude == 0 {
        0
    } else {
        -1 - ((magnitude - 1) as i64)
    }
}

/// `ref | number | text`
fn plain(alloc: Global, bytes: &[u8]) -> Result<(SqlRight, &[u8]), Fault<'_, u8>>
    ensures { Gives (λ x. x.0) (λ x. x.1.now) result (plain bytes.now) }
{
    if begins(bytes, b't') {
        let ((table, column), rest) = reference(alloc, bytes)?;
        Ok((SqlRight::Col(table, column), rest))
    } else if begins(bytes, b'-') || begins_digit(bytes) {
        number(bytes)
    } else {
        let (found, rest) = text(alloc, bytes)?;
        Ok((SqlRight::Lit(Value::Text(found)), rest))
    }
}

/// `"TRUE" | "FALSE"`
fn truth(bytes: &[u8]) -> Result<(SqlRight, &[u8]), Fault<'_, u8>>
    ensures { Gives (λ x. x.0) (λ x. x.1.now) result (truth bytes.now) }
{
    if begins(bytes, b'T') {
        let rest = code(bytes, b"TRUE")?;
        Ok((SqlRight::Lit(Value::Bool(true)), rest))
    } else {
        let rest = code(bytes, b"FALSE")?;
        Ok((SqlRight::Lit(Value::Bool(false)), rest))
    }
}

fn begins_plain(bytes: &[u8]) -> bool
    ensures { result ≡ heads begins_plain bytes.now }
{
    match bytes {
        [first, ..] => {
            *first == b't' || (*first == b'-' || first.is_ascii_digit()) || *first == b'\''
        }
        [] => false,
    }
}

/// What a column is compared with, behind the comparison.
fn after_op(alloc: Global, bytes: &[u8]) -> Result<(SqlRight, &[u8]), Fault<'_, u8>>
    ensures { Gives (λ x. x.0) (λ x. x.1.now) result (after_op bytes.now) }
{
    let (some, rest) = gaps(bytes);
    if begins_plain(rest) {
        plain(alloc, rest)
    } else if some {
        truth(rest)
    } else {
        Err(Fault::Bad(rest))
    }
}

/// A test behind white space: `ref op right`.
fn spaced_test(alloc: Global, bytes: &[u8]) -> Result<(SqlTest, &[u8]), Fault<'_, u8>>
    ensures { Gives (λ x. x.0) (λ x. x.1.now) result (behind space test bytes.now) }
{
    let ((table, column), rest) = reference(alloc, space(bytes)?)?;
    let ((op, right), rest) = comparison(alloc, rest)?;
    Ok((
        SqlTest {
            table,
            column,
            op,
            right,
        },
        rest,
    ))
}

/// `op right`
fn comparison(alloc: Global, bytes: &[u8]) -> Result<((SqlOp, SqlRight), &[u8]), Fault<'_, u8>>
    ensures { Gives (λ x. x.0) (λ x. x.1.now) result (comparison bytes.now) }
{
    let (op, rest) = an_op(gap(bytes))?;
    let (right, rest) = after_op(alloc, rest)?;
    Ok(((op, right), rest))
}

/// `"AND" test`, each behind white space.
fn next_test(alloc: Global, bytes: &[u8]) -> Result<(SqlTest, &[u8]), Fault<'_, u8>>
    ensures { Gives (λ x. x.0) (λ x. x.1.now) result (behind conjunction (behind space test) bytes.now) }
{
    let rest = code(space(bytes)?, b"AND")?;
    spaced_test(alloc, rest)
}

/// `test { "AND" test }`, each behind white space.
fn tests(alloc: Global, bytes: &[u8]) -> Result<(Vec<SqlTest>, &[u8]), Fault<'_, u8>>
    ensures { Gives (λ x. x.0.items) (λ x. x.1.now) result (tests bytes.now) }
{
    let mut found = Vec::new(alloc);
    let (first, rest) = spaced_test(alloc, bytes)?;
    found.push(first)?;
    let mut rest = rest;
    'tests: while begins_blank(rest) {
        match next_test(alloc, rest) {
            Ok((next, more)) => {
                found.push(next)?;
                rest = more;
            }
            Err(fault) => return Err(fault),
        }
    }
    Ok((found, rest))
}

/// `"WHERE" tests`
fn a_where(alloc: Global, bytes: &[u8]) -> Result<(Vec<SqlTest>, &[u8]), Fault<'_, u8>>
    ensures { Gives (λ x. ([], x.0.items)) (λ x. x.1.now) result (a_where bytes.now) }
{
    let rest = code(bytes, b"WHERE")?;
    tests(alloc, rest)
}

/// The table of this number, at most 9,999: `named`, and its alias.
pub fn table(alloc: Global, bytes: &[u8], number: u32) -> Result<(Label, &[u8]), Fault<'_, u8>>
    ensures { Gives (λ x. x.0) (λ x. x.1.now) result (table number bytes.now) }
{
    let (name, rest) = named(alloc, bytes)?;
    let rest = own_alias(rest, number)?;
    Ok((name, rest))
}

/// The alias of the table of this number.
fn own_alias(bytes: &[u8], number: u32) -> Result<&[u8], Fault<'_, u8>>
    ensures { Gives (λ x. tt) (λ x. x.now) result (own_alias number bytes.now) }
{
    let rest = mark(gap(bytes), b't')?;
    let mut buffer = Buffer::new();
    code(rest, buffer.format(number).as_bytes())
}

/// What stands behind a table.
pub enum AfterTable {
    /// Another table.
    Table(Label),
    /// The tests, up to the end.
    Tests(Vec<SqlTest>),
}

/// The tests, where no table is left.
pub fn last_turn(alloc: Global, bytes: &[u8]) -> Result<(Vec<SqlTest>, &[u8]), Fault<'_, u8>>
    ensures { Gives (λ x. ([], x.0.items)) (λ x. x.1.now) result (last_turn bytes.now) }
{
    if begins_blank(bytes) {
        a_where(alloc, space(bytes)?)
    } else {
        Ok((Vec::new(alloc), bytes))
    }
}

/// Another table, of this number, or the tests.
pub fn table_turn(
    alloc: Global,
    bytes: &[u8],
    number: u32,
) -> Result<(AfterTable, &[u8]), Fault<'_, u8>>
    requires { number ≤ 9999 }
    ensures { Gives (λ x. tables_turn x.0) (λ x. x.1.now) result (table_turn number bytes.now) }
{
    if !goes_further(bytes) {
        return Ok((AfterTable::Tests(Vec::new(alloc)), bytes));
    }
    let (some, rest) = gaps(bytes);
    if begins(rest, b',') {
        let (name, rest) = table(alloc, gap(mark(rest, b',')?), number)?;
        Ok((AfterTable::Table(name), rest))
    } else if some {
        let (found, rest) = a_where(alloc, rest)?;
        Ok((AfterTable::Tests(found), rest))
    } else {
        Err(Fault::Bad(rest))
    }
}

fn goes_further(bytes: &[u8]) -> bool
    ensures { result ≡ heads goes_further bytes.now }
{
    match bytes {
        [first, ..] => is_blank(*first) || *first == b',',
        [] => false,
    }
}
