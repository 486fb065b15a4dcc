//! Lists that grow at their end.
ghost use Rattle.std.specs.Prelude.{◌≡◌, ◌∷◌, ◌++◌, [], IfOk, OnOk};
ghost use Rattle.kl_exchange.specs.Gathered.{has_label};

use kl_base::{Label, NoMemory};
use std::alloc::Global;
use std::collections::BTreeSet;
use std::marker::Model;

/// A list that grows, which contracts see as the list of its items.
#[derive(Drop)]
pub struct Growing<T> {
    items: Vec<T>,
}

impl<T> Model for Growing<T> {
    ghost use Rattle.std.specs.Prelude.{List};
    ghost use Rattle.std.specs.Coded.{coded_list};

    ghost Value = { List T };

    ghost coded = { coded_list T.code };

    ghost view = { λ g. g.items.items };
}

impl<T> Growing<T> {
    /// The empty list. Takes no memory.
    pub fn new(alloc: Global) -> Growing<T>
        ensures { result ≡ [] }
    {
        Growing {
            items: Vec::new(alloc),
        }
    }

    /// The items in their order.
    pub fn slice(&self) -> &[T]
        ensures { result.now ≡ self.now }
    {
        self.items.as_slice()
    }

    /// The items, handed back. Takes no memory.
    pub fn into_vec(self) -> Vec<T>
        ensures { result.items ≡ self }
    {
        let Growing { items } = self;
        items
    }
}

impl<T: Drop> Growing<T> {
    /// Adds an item at the end.
    ///
    /// # Errors
    /// Want of memory; the item is dropped then.
    pub fn push(&mut self, item: T) -> Result<(), NoMemory>
        ensures { OnOk result (self.new ≡ self.old ++ item ∷ []) }
    {
        self.items.push(item)?;
        Ok(())
    }
}

impl Growing<u8> {
    /// Adds bytes at the end.
    ///
    /// # Errors
    /// Want of memory.
    pub fn extend(&mut self, bytes: &[u8]) -> Result<(), NoMemory>
        ensures { OnOk result (self.new ≡ self.old ++ bytes.now) }
    {
        self.items.extend_from_slice(bytes)?;
        Ok(())
    }
}

// How many labels are looked at one by one.
const FEW: usize = 16;

/// The fields of a record as they came, which contracts see as their list. The labels behind the first few are kept in
/// order as well, so that a record of many fields is not walked for each.
#[derive(Drop)]
pub struct Gathered<T> {
    fields: Vec<(Label, T)>,
    others: BTreeSet<Label>,
}

impl<T> Model for Gathered<T> {
    ghost use Rattle.std.specs.Prelude.{List, ℕ, drop};
    ghost use Rattle.std.specs.Coded.{coded_list, coded×, coded_ℕ};

    ghost Value = { List (List ℕ × T) };

    ghost coded = { coded_list (coded× (coded_list coded_ℕ) T.code) };

    ghost use Rattle.kl_exchange.specs.Gathered.{AreLabels};

    ghost view = { λ g. g.fields.items };

    ghost invariant = { λ g. AreLabels g.others.keys (drop 16 g.fields.items) };
}

impl<T> Gathered<T> {
    /// No fields, with room for so many.
    ///
    /// # Errors
    /// Want of memory.
    pub fn with_room(alloc: Global, room: usize) -> Result<Gathered<T>, NoMemory>
        ensures { IfOk result (λ fields. fields ≡ []) }
    {
        Ok(Gathered {
            fields: Vec::with_capacity(alloc, room)?,
            others: BTreeSet::new(alloc),
        })
    }

    /// Whether a field has the label.
    pub fn has(&self, label: &Label) -> bool
        ensures { result ≡ has_label self.now label.now }
    {
        let few = self.fields.len().min(FEW);
        if some_has(&self.fields[..few], label) {
            true
        } else {
            self.others.contains(label)
        }
    }
}

fn some_has<T>(fields: &[(Label, T)], label: &Label) -> bool
    ensures { result ≡ has_label fields.now label.now }
{
    fields.iter().any(|field| *label == field.0)
}

impl<T: Drop> Gathered<T> {
    /// The fields as they came.
    pub fn into_vec(self) -> Vec<(Label, T)>
        ensures { result.items ≡ self }
    {
        let Gathered { fields, others } = self;
        drop(others);
        fields
    }

    /// The fields with one more at their end.
    ///
    /// # Errors
    /// Want of memory.
    pub fn with(self, label: Label, value: T) -> Result<Gathered<T>, NoMemory>
        ensures { IfOk result (λ longer. longer ≡ self ++ (label, value) ∷ []) }
    {
        let Gathered { fields, others } = self;
        let mut fields = fields;
        let mut others = others;
        if fields.len() >= FEW {
            others.insert(label.dup()?)?;
        }
        fields.push((label, value))?;
        Ok(Gathered { fields, others })
    }
}
