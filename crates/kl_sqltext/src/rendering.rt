//! The text of a statement.
ghost use Rattle.std.specs.Prelude.{◌≡◌, ◌≤◌, ◌++◌, ℕ, List, length, decimal, IfOk, OnOk};
ghost use Rattle.std.specs.List.{AllByRecursion};
ghost use Rattle.kl_sqltext.specs.declared.ast.Spj.{Spj as ASpj};
ghost use Rattle.kl_sqltext.specs.Words.{doubled};
ghost use Rattle.kl_sqltext.specs.Grammar.{op_text};
ghost use Rattle.kl_sqltext.specs.Reading.{SqlReads, IsSqlOrBad};
ghost use Rattle.kl_sqltext.specs.Written.{CanRender, IsWord, IsStoredLiteral, IsStoredRight, IsStoredColumn, IsStoredTest, IsStoredSpj};
ghost use Rattle.kl_sqltext.specs.Written.{quoted, ref_text, column_text, literal_text, right_text, test_text};
ghost use Rattle.kl_sqltext.specs.Written.{table_text, more_columns, columns_text};
ghost use Rattle.kl_sqltext.specs.Written.{more_tables, tables_text, more_tests, where_text, distinct_text, statement_text};

use crate::ast::{Spj, SqlOp, SqlRight, SqlTest};
use itoa::Buffer;
use kl_base::{Label, NoMemory, Text};
use kl_value::Value;
use std::alloc::Global;

fn put(piece: &[u8], out: &mut Vec<u8>) -> Result<(), NoMemory>
    ensures { OnOk result (out.new.items ≡ out.old.items ++ piece.now) }
{
    out.extend_from_slice(piece)?;
    Ok(())
}

fn write_number(number: u32, out: &mut Vec<u8>) -> Result<(), NoMemory>
    ensures { OnOk result (out.new.items ≡ out.old.items ++ decimal number) }
{
    let mut buffer = Buffer::new();
    put(buffer.format(number).as_bytes(), out)
}

/// A label in double quotes.
fn write_quoted(label: &Label, out: &mut Vec<u8>) -> Result<(), NoMemory>
    ensures text { OnOk result (out.new.items ≡ out.old.items ++ quoted label.now) }
    ensures word { OnOk result (IsWord label.now) }
{
    put(b"\"", out)?;
    put(label.word(), out)?;
    put(b"\"", out)
}

fn write_ref(table: u32, column: &Label, out: &mut Vec<u8>) -> Result<(), NoMemory>
    ensures text { OnOk result (out.new.items ≡ out.old.items ++ ref_text table column.now) }
    ensures word { OnOk result (IsWord column.now) }
{
    put(b"t", out)?;
    write_number(table, out)?;
    put(b".", out)?;
    write_quoted(column, out)
}

fn write_column(column: &(u32, Label, Label), out: &mut Vec<u8>) -> Result<(), NoMemory>
    ensures text { OnOk result (out.new.items ≡ out.old.items ++ column_text column.now) }
    ensures stored { OnOk result (IsStoredColumn column.now) }
{
    write_ref(column.0, &column.1, out)?;
    put(b" AS ", out)?;
    write_quoted(&column.2, out)
}

/// The columns behind the first.
fn write_more_columns(columns: &[(u32, Label, Label)], out: &mut Vec<u8>) -> Result<(), NoMemory>
    ensures text { OnOk result (out.new.items ≡ out.old.items ++ more_columns columns.now) }
    ensures stored { OnOk result (AllByRecursion IsStoredColumn columns.now) }
{
    let mut left = columns;
    'columns: while let [first, others @ ..] = left {
        put(b", ", out)?;
        write_column(first, out)?;
        left = others;
    }
    Ok(())
}

fn write_columns(columns: &[(u32, Label, Label)], out: &mut Vec<u8>) -> Result<(), NoMemory>
    ensures text { OnOk result (out.new.items ≡ out.old.items ++ columns_text columns.now) }
    ensures stored { OnOk result (AllByRecursion IsStoredColumn columns.now) }
{
    match columns {
        [] => Ok(()),
        [first, others @ ..] => {
            write_column(first, out)?;
            write_more_columns(others, out)
        }
    }
}

/// A table and its alias.
fn write_table(number: u32, table: &Label, out: &mut Vec<u8>) -> Result<(), NoMemory>
    ensures text { OnOk result (out.new.items ≡ out.old.items ++ table_text number table.now) }
    ensures word { OnOk result (IsWord table.now) }
{
    write_quoted(table, out)?;
    put(b" t", out)?;
    write_number(number, out)
}

/// The tables behind the first.
fn write_more_tables(tables: &[Label], out: &mut Vec<u8>) -> Result<(), NoMemory>
    requires { length tables.now ≤ 9999 }
    ensures text { OnOk result (out.new.items ≡ out.old.items ++ more_tables 1 tables.now) }
    ensures words { OnOk result (AllByRecursion IsWord tables.now) }
{
    let mut left = tables;
    let mut number = 1;
    'tables: while let [first, others @ ..] = left {
        put(b", ", out)?;
        write_table(number, first, out)?;
        left = others;
        number += 1;
    }
    Ok(())
}

fn write_tables(tables: &[Label], out: &mut Vec<u8>) -> Result<(), NoMemory>
    requires { length tables.now ≤ 10000 }
    ensures text { OnOk result (out.new.items ≡ out.old.items ++ tables_text tables.now) }
    ensures words { OnOk result (AllByRecursion IsWord tables.now) }
{
    match tables {
        [] => Ok(()),
        [first, others @ ..] => {
            write_table(0, first, out)?;
            write_more_tables(others, out)
        }
    }
}

fn sign(op: SqlOp) -> &'static [u8]
    ensures { result.now ≡ op_text op }
{
    match op {
        SqlOp::Eq => b"=",
        SqlOp::Ne => b"<>",
        SqlOp::Lt => b"<",
        SqlOp::Le => b"<=",
        SqlOp::Gt => b">",
        SqlOp::Ge => b">=",
    }
}

/// The bytes with each single quote twice.
fn write_doubled(bytes: &[u8], out: &mut Vec<u8>) -> Result<(), NoMemory>
    ensures { OnOk result (out.new.items ≡ out.old.items ++ doubled bytes.now) }
{
    let mut left = bytes;
    'bytes: while let [first, others @ ..] = left {
        if *first == b'\'' {
            put(b"''", out)?;
        } else {
            out.push(*first)?;
        }
        left = others;
    }
    Ok(())
}

/// A base value; nothing, of any other.
#[tactic(auto, using(crate::proofs::Literals::literal_texts))]
fn write_literal(v: &Value, out: &mut Vec<u8>) -> Result<(), NoMemory>
    ensures text { OnOk result (out.new.items ≡ out.old.items ++ literal_text v.now) }
    ensures stored { OnOk result (IsStoredLiteral v.now) }
{
    match v {
        Value::Bool(true) => put(b"TRUE", out),
        Value::Bool(false) => put(b"FALSE", out),
        Value::Int(number) => {
            let mut buffer = Buffer::new();
            put(buffer.format(*number).as_bytes(), out)
        }
        Value::Text(text) => {
            put(b"'", out)?;
            write_doubled(text.slice(), out)?;
            put(b"'", out)
        }
        Value::Rec(_) => Ok(()),
        Value::Inj(_, _) => Ok(()),
        Value::Set(_) => Ok(()),
        Value::Bag(_) => Ok(()),
        Value::List(_) => Ok(()),
    }
}

fn write_right(right: &SqlRight, out: &mut Vec<u8>) -> Result<(), NoMemory>
    ensures text { OnOk result (out.new.items ≡ out.old.items ++ right_text right.now) }
    ensures stored { OnOk result (IsStoredRight right.now) }
{
    match right {
        SqlRight::Col(table, column) => write_ref(*table, column, out),
        SqlRight::Lit(v) => write_literal(v, out),
    }
}

fn write_test(test: &SqlTest, out: &mut Vec<u8>) -> Result<(), NoMemory>
    ensures text { OnOk result (out.new.items ≡ out.old.items ++ test_text test.now) }
    ensures stored { OnOk result (IsStoredTest test.now) }
{
    write_ref(test.table, &test.column, out)?;
    put(b" ", out)?;
    put(sign(test.op), out)?;
    put(b" ", out)?;
    write_right(&test.right, out)
}

/// The tests behind the first.
fn write_more_tests(tests: &[SqlTest], out: &mut Vec<u8>) -> Result<(), NoMemory>
    ensures text { OnOk result (out.new.items ≡ out.old.items ++ more_tests tests.now) }
    ensures stored { OnOk result (AllByRecursion IsStoredTest tests.now) }
{
    let mut left = tests;
    'tests: while let [first, others @ ..] = left {
        put(b" AND ", out)?;
        write_test(first, out)?;
        left = others;
    }
    Ok(())
}

fn write_where(tests: &[SqlTest], out: &mut Vec<u8>) -> Result<(), NoMemory>
    ensures text { OnOk result (out.new.items ≡ out.old.items ++ where_text tests.now) }
    ensures stored { OnOk result (AllByRecursion IsStoredTest tests.now) }
{
    match tests {
        [] => Ok(()),
        [first, others @ ..] => {
            put(b" WHERE ", out)?;
            write_test(first, out)?;
            write_more_tests(others, out)
        }
    }
}

fn write_distinct(distinct: bool, out: &mut Vec<u8>) -> Result<(), NoMemory>
    ensures { OnOk result (out.new.items ≡ out.old.items ++ distinct_text distinct) }
{
    if distinct {
        put(b"DISTINCT ", out)
    } else {
        Ok(())
    }
}

fn write_statement(s: &Spj, out: &mut Vec<u8>) -> Result<(), NoMemory>
    requires { length s.now.tables ≤ 10000 }
    ensures text { OnOk result (out.new.items ≡ out.old.items ++ statement_text s.now) }
    ensures stored { OnOk result (IsStoredSpj s.now) }
{
    put(b"SELECT ", out)?;
    write_distinct(s.distinct, out)?;
    write_columns(s.columns.slice(), out)?;
    put(b" FROM ", out)?;
    write_tables(s.tables.slice(), out)?;
    write_where(s.tests.slice(), out)
}

/// The text of a statement, which reads as that statement and as no other: one space between tokens, but none before a
/// comma, around a dot, and inside names, aliases and constants. In a text each single quote is doubled. The statement has a
/// column or more and 1 to 10,000 tables; each table number is that of one of them, and constants are truth values, integers
/// and texts.
///
/// # Errors
/// Want of memory.
pub fn render(alloc: Global, s: &Spj) -> Result<Text, NoMemory>
    requires { CanRender s.now }
    ensures written { IfOk result (λ text. text ≡ statement_text s.now) }
    ensures reads { IfOk result (λ text. SqlReads text s.now) }
    ensures only { IfOk result (λ text. (u : ASpj) → SqlReads text u → u ≡ s.now) }
{
    let mut out = Vec::new(alloc);
    write_statement(s, &mut out)?;
    Ok(Text::of(out))
}

/// Laws of the texts of statements, for the layers above to cite: bytes are at most one statement; they are one, or have the
/// place where no statement goes on; and the text of a statement that can be rendered reads as that statement.
pub fn sql_laws()
    ensures unique { (bytes : List ℕ) (s t : ASpj) → SqlReads bytes s → SqlReads bytes t → s ≡ t }
    ensures told { (bytes : List ℕ) → IsSqlOrBad bytes }
    ensures rendered { (s : ASpj) → CanRender s → IsStoredSpj s → SqlReads (statement_text s) s }
{}
