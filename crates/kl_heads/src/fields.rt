//! The fields of a record type or a variant type as they come.
ghost use Rattle.std.specs.Prelude.{◌≡◌, [], IfOk};
ghost use Rattle.kl_heads.specs.Heads.{has_label};
ghost use Rattle.kl_type.specs.Grammar.{put};

use kl_base::{Label, NoMemory, Seq};
use kl_type::{Ty, TyFields};
use std::alloc::Global;
use std::collections::BTreeMap;
use std::marker::Model;

/// Fields by rising label, which contracts see as their list.
#[derive(Drop)]
pub struct Fields {
    types: BTreeMap<Label, Ty>,
}

impl Model for Fields {
    ghost use Rattle.std.specs.Prelude.{List, ℕ};
    ghost use Rattle.std.specs.Coded.{coded_list, coded×, coded_ℕ};
    ghost use Rattle.kl_type.specs.contracts.ground.Ty as ty;
    ghost use Rattle.kl_type.specs.declared.ground.Ty.{Ty};

    ghost Value = { List (List ℕ × Ty) };

    ghost coded = { coded_list (coded× (coded_list coded_ℕ) ty.the_row.coded) };

    ghost view = { λ f. f.types.entries };
}

impl Fields {
    /// No fields. Takes no memory.
    pub fn new(alloc: Global) -> Fields
        ensures { result ≡ [] }
    {
        Fields {
            types: BTreeMap::new(alloc),
        }
    }

    /// Whether a field has the label.
    pub fn has(&self, label: &Label) -> bool
        ensures { result ≡ has_label self.now label.now }
    {
        self.types.contains_key(label)
    }

    /// The fields with one more, in its place.
    ///
    /// # Errors
    /// Want of memory.
    pub fn with(self, label: Label, ty: Ty) -> Result<Fields, NoMemory>
        ensures { IfOk result (λ longer. longer ≡ put self (label, ty)) }
    {
        let Fields { types } = self;
        let mut types = types;
        types.insert(label, ty)?;
        Ok(Fields { types })
    }

    /// The fields of a type.
    ///
    /// # Errors
    /// Want of memory.
    pub fn into_types(self, alloc: Global) -> Result<TyFields, NoMemory>
        ensures { IfOk result (λ fields. fields ≡ self) }
    {
        let Fields { types } = self;
        Ok(Seq::of(types.into_iter().collect(alloc)?))
    }
}
