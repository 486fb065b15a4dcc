//! Statements that select, project and join.

use kl_base::{Label, Seq};
use kl_value::Value;

/// A comparison, by the order of values.
#[derive(Clone, Copy, PartialEq, Eq)]
pub enum SqlOp {
    Eq,
    Ne,
    Lt,
    Le,
    Gt,
    Ge,
}

/// What a column is compared with.
#[derive(Drop)]
pub enum SqlRight {
    /// A column of the table of this number.
    Col(u32, Label),
    /// A truth value, an integer or a text.
    Lit(Value),
}

/// A test: the column of the table of this number stands so to the right side, texts by their bytes and false before true.
#[derive(Drop)]
pub struct SqlTest {
    pub table: u32,
    pub column: Label,
    pub op: SqlOp,
    pub right: SqlRight,
}

/// Columns: the number of the table, the label there, and the label under which it is shown.
pub type SqlColumns = Seq<(u32, Label, Label)>;

/// Tests, all of which have to hold.
pub type SqlTests = Seq<SqlTest>;

/// A statement: what SELECT is in ISO 9075, over tables without NULL, with neither grouping nor an order. It means a bag: of
/// all tuples of rows, one of each table, those that pass all tests, each shown by its columns. Tables are numbered from 0 in
/// their order.
#[derive(Drop)]
pub struct Spj {
    /// Whether repeated rows are left out.
    pub distinct: bool,
    pub columns: SqlColumns,
    pub tables: Seq<Label>,
    pub tests: SqlTests,
}
