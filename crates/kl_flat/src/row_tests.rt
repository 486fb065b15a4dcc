//! Tests of rows, which look at columns and make no value.
ghost use Rattle.std.specs.Prelude.{◌≡◌};
ghost use Rattle.kl_ask.specs.Asks.{holds};

use crate::held::Cells;
use kl_ask::Cmp;
use kl_value::Value;
use std::cmp::Ordering;

/// What a column is compared with.
#[derive(Drop)]
pub enum Against<'a> {
    Cells(&'a Cells),
    Value(&'a Value),
}

/// A test of rows: how a column has to stand to what it is compared with.
#[derive(Drop)]
pub struct RowTest<'a> {
    pub left: &'a Cells,
    pub op: Cmp,
    pub right: Against<'a>,
}

impl RowTest<'_> {
    ghost use Rattle.kl_flat.specs.RowTests.{HasCells, passes_at};

    /// Whether the row of a number passes.
    pub fn passes(&self, at: usize) -> bool
        requires { HasCells at self.now }
        ensures { result ≡ passes_at self.now at }
    {
        let order = match &self.right {
            Against::Cells(cells) => self.left.order_in(at, cells, at),
            Against::Value(value) => self.left.order(value, at),
        };
        holds(self.op, order)
    }
}

fn holds(op: Cmp, order: Ordering) -> bool
    ensures { result ≡ holds op order }
{
    match op {
        Cmp::Eq => order.is_eq(),
        Cmp::Ne => order.is_ne(),
        Cmp::Lt => order.is_lt(),
        Cmp::Le => order.is_le(),
        Cmp::Gt => order.is_gt(),
        Cmp::Ge => order.is_ge(),
    }
}
