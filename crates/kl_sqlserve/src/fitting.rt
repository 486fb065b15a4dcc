//! Statements that fit the attached sources.
ghost use Rattle.std.specs.Prelude.{◌≡◌, IfOk};
ghost use Rattle.std.specs.Option.{option_copied};
ghost use Rattle.kl_base.specs.Fields.{field};
ghost use Rattle.kl_type.specs.declared.ground.Ty.{out-Ty};
ghost use Rattle.kl_sqlserve.specs.Fitting.{IsAskFor, are_attached, have_columns, is_fitting, is_unshown, shows_apart};
ghost use Rattle.kl_sqlserve.specs.Fitting.{same_base, suit_tests, suits_right, suits_test, type_at};

use crate::opening::find;
use kl_ask::{Ask, columns_of};
use kl_base::{Label, NoMemory, Text};
use kl_flat::Source;
use kl_sqltext::{Spj, SqlError, SqlRight, SqlTest, read_sql};
use kl_type::{Ty, has};
use std::alloc::Global;
use std::collections::HashMap;

/// The ask for the statement that the bytes are; None where they are none, or one that does not fit the sources.
///
/// # Errors
/// Want of memory.
pub fn ask_for(
    alloc: Global,
    sources: &HashMap<Label, Source>,
    text: &[u8],
) -> Result<Option<Ask>, NoMemory>
    ensures { IfOk result (IsAskFor sources.now text.now) }
{
    match read_sql(alloc, text) {
        Ok(statement) => {
            if is_fitting(sources, &statement) {
                let text = Text::of(Vec::from_slice(alloc, text)?);
                Ok(Some(Ask::Sql { text }))
            } else {
                Ok(None)
            }
        }
        Err(SqlError::Bad { .. }) => Ok(None),
        Err(SqlError::NoMemory) => Err(NoMemory),
    }
}

fn is_fitting(sources: &HashMap<Label, Source>, statement: &Spj) -> bool
    ensures { result ≡ is_fitting sources.now statement.now }
{
    let tables = statement.tables.slice();
    let columns = statement.columns.slice();
    (are_attached(sources, tables) && have_columns(sources, tables, columns))
        && (shows_apart(columns) && suit_tests(sources, tables, statement.tests.slice()))
}

fn are_attached(sources: &HashMap<Label, Source>, tables: &[Label]) -> bool
    ensures { result ≡ are_attached sources.now tables.now }
{
    for name in tables {
        if find(sources, name).is_none() {
            return false;
        }
    }
    true
}

fn have_columns(
    sources: &HashMap<Label, Source>,
    tables: &[Label],
    columns: &[(u32, Label, Label)],
) -> bool
    ensures { result ≡ have_columns (type_at sources.now tables.now) columns.now }
{
    for column in columns {
        if type_at(sources, tables, column.0, &column.1).is_none() {
            return false;
        }
    }
    true
}

// Whether no label is shown twice.
fn shows_apart(columns: &[(u32, Label, Label)]) -> bool
    ensures { result ≡ shows_apart columns.now }
{
    'columns: for number in 0..columns.len() {
        if !is_unshown(&columns[number].2, &columns[number + 1..]) {
            return false;
        }
    }
    true
}

fn is_unshown(label: &Label, columns: &[(u32, Label, Label)]) -> bool
    ensures { result ≡ is_unshown label.now columns.now }
{
    for column in columns {
        if *label == column.2 {
            return false;
        }
    }
    true
}

fn suit_tests(sources: &HashMap<Label, Source>, tables: &[Label], tests: &[SqlTest]) -> bool
    ensures { result ≡ suit_tests (type_at sources.now tables.now) tests.now }
{
    for test in tests {
        if !suits_test(sources, tables, test) {
            return false;
        }
    }
    true
}

// Whether a test has its column, and both sides have one type.
fn suits_test(sources: &HashMap<Label, Source>, tables: &[Label], test: &SqlTest) -> bool
    ensures { result ≡ suits_test (type_at sources.now tables.now)
        (type_at sources.now tables.now test.now.table test.now.column) test.now.right }
{
    match type_at(sources, tables, test.table, &test.column) {
        Some(ty) => suits_right(sources, tables, ty, &test.right),
        None => false,
    }
}

fn suits_right(
    sources: &HashMap<Label, Source>,
    tables: &[Label],
    ty: &Ty,
    right: &SqlRight,
) -> bool
    ensures { result ≡ suits_right (type_at sources.now tables.now) ty.now right.now }
{
    match right {
        SqlRight::Col(number, column) => match type_at(sources, tables, *number, column) {
            Some(other) => same_base(ty, other),
            None => false,
        },
        SqlRight::Lit(value) => has(value, ty),
    }
}

// The type of a column of the table of a number.
fn type_at<'a>(
    sources: &'a HashMap<Label, Source>,
    tables: &[Label],
    number: u32,
    column: &Label,
) -> Option<&'a Ty>
    ensures { option_copied result ≡ type_at sources.now tables.now number column.now }
{
    let Some(name) = tables.get(number as usize) else {
        return None;
    };
    match find(sources, name) {
        Some(source) => type_of_column(columns_of(source.ty.get()), column),
        None => None,
    }
}

fn type_of_column<'a>(columns: &'a [(Label, Ty)], label: &Label) -> Option<&'a Ty>
    ensures { option_copied result ≡ field label.now columns.now }
{
    for column in columns {
        if *label == column.0 {
            return Some(&column.1);
        }
    }
    None
}

// Whether both are one base type.
fn same_base(ty: &Ty, other: &Ty) -> bool
    ensures { result ≡ same_base (out-Ty ty.now) (out-Ty other.now) }
{
    match ty {
        Ty::Bool => matches!(other, Ty::Bool),
        Ty::Int => matches!(other, Ty::Int),
        Ty::Str => matches!(other, Ty::Str),
        Ty::Rec(_) | Ty::Var(_) | Ty::Coll(_, _) => false,
    }
}
