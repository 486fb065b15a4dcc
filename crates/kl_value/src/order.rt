//! The order of values, and collections in canonical form.
ghost use Rattle.std.specs.Prelude.{◌≡◌, List, All, IfOk};
ghost use Rattle.std.specs.Cmp.{IsTotalOrder};
ghost use Rattle.std.specs.FinMap.{IsAntisymmetric};
ghost use Rattle.std.specs.Ordering.{eq_by_cmp};
ghost use Rattle.kl_value.specs.Order.{compare};
ghost use Rattle.kl_value.specs.Canon.{canonical, IsCanonicalOf};
ghost use Rattle.kl_value.specs.IsCanonical.{IsCanonical};
ghost use Rattle.kl_value.specs.declared.value.Kind.{Kind};
ghost use Rattle.kl_value.specs.declared.value.Value.{Value};
ghost use Rattle.kl_value.specs.contracts.value.ValuePartialEq.TheImpl as equality;

use crate::sorting::sort;
use crate::value::{Kind, Value};
use kl_base::{NoMemory, Seq};
use std::cmp::Ordering;

/// The order of values, which is also `Value`'s `Ord`. Takes no memory.
pub fn cmp(a: &Value, b: &Value) -> Ordering
    ensures { result ≡ compare a.now b.now }
{
    a.cmp(b)
}

/// The laws of the order: it is total, only equal values tie, and `==` is the tie.
pub fn order_laws()
    ensures total { IsTotalOrder compare }
    ensures exact { IsAntisymmetric compare }
    ensures equality { (v w : Value) → equality.ghosts.eq v w ≡ eq_by_cmp compare v w }
{}

/// The laws of the canonical form: it is what its description says, nothing else is, and over canonical items it is
/// canonical.
pub fn canon_laws()
    ensures form { (k : Kind) (xs : List Value) → IsCanonicalOf k xs (canonical k xs) }
    ensures only { (k : Kind) (xs : List Value) (v : Value) → IsCanonicalOf k xs v → v ≡ canonical k xs }
    ensures keeps { (k : Kind) (xs : List Value) → All IsCanonical xs → IsCanonical (canonical k xs) }
{}

/// The collection of these items: a set sorted without repeats, a bag sorted, a list as it is. Items that rise already
/// are not sorted again.
///
/// # Errors
/// Want of memory; the items are dropped then.
pub fn canon(kind: Kind, items: Vec<Value>) -> Result<Value, NoMemory>
    ensures { IfOk result (λ v. v ≡ canonical kind items.items) }
{
    match kind {
        Kind::Set => {
            let mut items = sort(items)?;
            items.dedup();
            Ok(Value::Set(Seq::of(items)))
        }
        Kind::Bag => {
            let items = sort(items)?;
            Ok(Value::Bag(Seq::of(items)))
        }
        Kind::List => Ok(Value::List(Seq::of(items))),
    }
}
