//! The columns of a table, as they are held.
ghost use Rattle.std.specs.Prelude.{◌≡◌, ◌<◌, true, All, IfOk, MatchBool, Some, length, map, slice_get};
ghost use Rattle.kl_value.specs.Order.{compare};
ghost use Rattle.kl_flat.specs.Columns.{is_base};
ghost use Rattle.kl_flat.specs.Filling.{Gains, Refuses};
ghost use Rattle.kl_flat.specs.Held.{height, type_of, value_at};
ghost use Rattle.kl_flat.specs.Picking.{Picks};

use crate::cells::{integer_in, truth_in};
use crate::texts::Texts;
use kl_base::{Label, NoMemory, Text};
use kl_type::Ty;
use kl_value::Value;
use std::alloc::Global;
use std::cmp::Ordering;

/// The cells of a column, from the first row on.
#[derive(Drop)]
pub enum Cells {
    Bool(Vec<bool>),
    Int(Vec<i64>),
    Text(Texts),
}

/// A column, whose label rows share.
#[derive(Drop)]
pub struct Column {
    pub label: Label,
    pub cells: Cells,
}

impl Cells {
    /// A column of a base type, without rows.
    pub(crate) fn new(alloc: Global, ty: &Ty) -> Cells
        requires { is_base ty.now ≡ true }
        ensures kind { type_of result ≡ ty.now }
        ensures none { height result ≡ 0 }
    {
        match ty {
            Ty::Bool => Cells::Bool(Vec::new(alloc)),
            Ty::Int => Cells::Int(Vec::new(alloc)),
            Ty::Str => Cells::Text(Texts::new(alloc)),
            _ => unreachable!(),
        }
    }

    /// Puts the value of a cell behind the others, and says whether it has one of the column's type.
    ///
    /// # Errors
    /// Want of memory.
    pub(crate) fn push(&mut self, cell: &[u8]) -> Result<bool, NoMemory>
        ensures { IfOk result (λ taken. MatchBool taken (Gains cell.now self.old self.new) (Refuses cell.now self.old self.new)) }
    {
        match self {
            Cells::Bool(truths) => {
                let Some(truth) = truth_in(cell) else {
                    return Ok(false);
                };
                truths.push(truth)?;
            }
            Cells::Int(numbers) => {
                let Some(number) = integer_in(cell) else {
                    return Ok(false);
                };
                numbers.push(number)?;
            }
            Cells::Text(texts) => texts.push(cell)?,
        }
        Ok(true)
    }

    /// The value of a row's cell.
    ///
    /// # Errors
    /// Want of memory.
    pub fn value(&self, alloc: Global, at: usize) -> Result<Value, NoMemory>
        requires { at < height self.now }
        ensures { IfOk result (λ v. v ≡ value_at self.now at) }
    {
        match self {
            Cells::Bool(truths) => Ok(Value::Bool(truths[at])),
            Cells::Int(numbers) => Ok(Value::Int(numbers[at])),
            Cells::Text(texts) => {
                let bytes = Vec::from_slice(alloc, texts.get(at))?;
                Ok(Value::Text(Text::of(bytes)))
            }
        }
    }

    /// The cells of the rows of these numbers, in this order.
    ///
    /// # Errors
    /// Want of memory.
    pub(crate) fn picked(&self, alloc: Global, places: &[usize]) -> Result<Cells, NoMemory>
        requires { All (λ p. p < height self.now) places.now }
        ensures { IfOk result (Picks places.now (length places.now) self.now) }
    {
        match self {
            Cells::Bool(truths) => Ok(Cells::Bool(truths_at(alloc, truths.as_slice(), places)?)),
            Cells::Int(numbers) => Ok(Cells::Int(numbers_at(alloc, numbers.as_slice(), places)?)),
            Cells::Text(texts) => Ok(Cells::Text(texts.picked(alloc, places)?)),
        }
    }

    /// How the value of a row's cell stands to a value.
    pub fn order(&self, value: &Value, at: usize) -> Ordering
        requires { at < height self.now }
        ensures { result ≡ compare (value_at self.now at) value.now }
    {
        match self {
            Cells::Bool(truths) => match value {
                Value::Bool(b) => truths[at].cmp(b),
                _ => Ordering::Less,
            },
            Cells::Int(numbers) => match value {
                Value::Bool(_) => Ordering::Greater,
                Value::Int(n) => numbers[at].cmp(n),
                _ => Ordering::Less,
            },
            Cells::Text(texts) => match value {
                Value::Bool(_) | Value::Int(_) => Ordering::Greater,
                Value::Text(text) => texts.get(at).cmp(text.slice()),
                _ => Ordering::Less,
            },
        }
    }

    /// How the value of a row's cell stands to the value of a row's cell in another column.
    pub fn order_in(&self, at: usize, other: &Cells, place: usize) -> Ordering
        requires left { at < height self.now }
        requires right { place < height other.now }
        ensures { result ≡ compare (value_at self.now at) (value_at other.now place) }
    {
        match self {
            Cells::Bool(truths) => match other {
                Cells::Bool(others) => truths[at].cmp(&others[place]),
                Cells::Int(_) | Cells::Text(_) => Ordering::Less,
            },
            Cells::Int(numbers) => match other {
                Cells::Bool(_) => Ordering::Greater,
                Cells::Int(others) => numbers[at].cmp(&others[place]),
                Cells::Text(_) => Ordering::Less,
            },
            Cells::Text(texts) => match other {
                Cells::Bool(_) | Cells::Int(_) => Ordering::Greater,
                Cells::Text(others) => texts.get(at).cmp(others.get(place)),
            },
        }
    }
}

// The truth values of these places, in this order.
fn truths_at(alloc: Global, truths: &[bool], places: &[usize]) -> Result<Vec<bool>, NoMemory>
    requires { All (λ p. p < length truths.now) places.now }
    ensures { IfOk result (λ copies. map Some copies.items ≡ map (slice_get truths.now) places.now) }
{
    let mut copies = Vec::with_capacity(alloc, places.len())?;
    for place in places {
        copies.push(truths[*place])?;
    }
    Ok(copies)
}

// The integers of these places, in this order.
fn numbers_at(alloc: Global, numbers: &[i64], places: &[usize]) -> Result<Vec<i64>, NoMemory>
    requires { All (λ p. p < length numbers.now) places.now }
    ensures { IfOk result (λ copies. map Some copies.items ≡ map (slice_get numbers.now) places.now) }
{
    let mut copies = Vec::with_capacity(alloc, places.len())?;
    for place in places {
        copies.push(numbers[*place])?;
    }
    Ok(copies)
}
