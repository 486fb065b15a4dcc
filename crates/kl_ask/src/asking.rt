//! Which asks are allowed, and copies of asks.
ghost use Rattle.std.specs.Prelude.{◌≡◌, IfOk};
ghost use Rattle.kl_base.specs.Fields.{labels_of};
ghost use Rattle.kl_type.specs.Ground.{ground_of};
ghost use Rattle.kl_ask.specs.Asks.{columns, is_allowed, item_of, same_names};

use crate::ask::{Abilities, Ask, ColTest, Right};
use kl_base::{Label, NoMemory, Seq};
use kl_type::Ty;
use kl_value::dup;
use std::alloc::Global;

/// Whether a driver with these abilities may be asked this of a source of this type. Whole rows without tests are always
/// allowed; tests need `select`, fewer columns need `project`, and SQL needs `join`. Takes no memory.
pub fn allows(a: &Abilities, ty: &Ty, ask: &Ask) -> bool
    ensures { result ≡ is_allowed a.now (ground_of ty.now) ask.now }
{
    match ask {
        Ask::Rows { keep, tests, .. } => {
            (tests.is_empty() || a.select) && (keeps_all(keep.slice(), ty) || a.project)
        }
        Ask::Sql { .. } => a.join,
    }
}

// Whether these are all columns of the rows of a source, which are none where the rows are no records.
#[tactic(auto, using(crate::proofs::Columns::column_rules))]
fn keeps_all(keep: &[Label], ty: &Ty) -> bool
    ensures { result ≡ same_names keep.now (columns (item_of (ground_of ty.now))) }
{
    match ty {
        Ty::Coll(_, item) => keeps_row(keep, item.get()),
        Ty::Bool | Ty::Int | Ty::Str | Ty::Rec(_) | Ty::Var(_) => keeps_row(keep, ty),
    }
}

#[tactic(auto, using(crate::proofs::Columns::column_rules))]
fn keeps_row(keep: &[Label], item: &Ty) -> bool
    ensures { result ≡ same_names keep.now (columns (ground_of item.now)) }
{
    match item {
        Ty::Rec(fields) => keeps_fields(keep, fields.slice()),
        Ty::Bool | Ty::Int | Ty::Str | Ty::Var(_) | Ty::Coll(_, _) => keep.is_empty(),
    }
}

fn keeps_fields(keep: &[Label], fields: &[(Label, Ty)]) -> bool
    ensures { result ≡ same_names keep.now (labels_of fields.now) }
{
    if keep.len() != fields.len() {
        return false;
    }
    for i in 0..keep.len() {
        if keep[i] != fields[i].0 {
            return false;
        }
    }
    true
}

impl Ask {
    /// An equal ask. Its labels share the bytes of the first one's.
    ///
    /// # Errors
    /// Want of memory.
    pub fn dup(&self, alloc: Global) -> Result<Ask, NoMemory>
        ensures { IfOk result (λ ask. ask ≡ self.now) }
    {
        match self {
            Ask::Rows {
                source,
                keep,
                tests,
            } => {
                let source = source.dup()?;
                let keep = dup_labels(alloc, keep.slice())?;
                let tests = dup_tests(alloc, tests.slice())?;
                Ok(Ask::Rows {
                    source,
                    keep: Seq::of(keep),
                    tests: Seq::of(tests),
                })
            }
            Ask::Sql { text } => {
                let text = text.dup(alloc)?;
                Ok(Ask::Sql { text })
            }
        }
    }
}

fn dup_labels(alloc: Global, labels: &[Label]) -> Result<Vec<Label>, NoMemory>
    ensures { IfOk result (λ copies. copies.items ≡ labels.now) }
{
    let mut copies = Vec::with_capacity(alloc, labels.len())?;
    for label in labels {
        copies.push(label.dup()?)?;
    }
    Ok(copies)
}

fn dup_tests(alloc: Global, tests: &[ColTest]) -> Result<Vec<ColTest>, NoMemory>
    ensures { IfOk result (λ copies. copies.items ≡ tests.now) }
{
    let mut copies = Vec::with_capacity(alloc, tests.len())?;
    for test in tests {
        copies.push(dup_test(alloc, test)?)?;
    }
    Ok(copies)
}

fn dup_test(alloc: Global, test: &ColTest) -> Result<ColTest, NoMemory>
    ensures { IfOk result (λ copy. copy ≡ test.now) }
{
    let left = test.left.dup()?;
    let right = dup_right(alloc, &test.right)?;
    Ok(ColTest {
        left,
        op: test.op,
        right,
    })
}

fn dup_right(alloc: Global, right: &Right) -> Result<Right, NoMemory>
    ensures { IfOk result (λ copy. copy ≡ right.now) }
{
    match right {
        Right::Col(label) => {
            let label = label.dup()?;
            Ok(Right::Col(label))
        }
        Right::Const(value) => {
            let value = dup(alloc, value)?;
            Ok(Right::Const(value))
        }
    }
}
