//! What is asked of numbers of types, one thing after another.
ghost use Rattle.std.specs.Prelude.{◌≡◌, ℕ, [], ◌∷◌, map, IfOk, MatchResult};
ghost use Rattle.std.specs.List.{AllByRecursion};
ghost use Rattle.kl_base.specs.Fields.{field};
ghost use Rattle.kl_type.specs.Ground.{bool, IsProper};
ghost use Rattle.kl_rows.specs.Places.{IsFine, IsType, IsTyped, AreTypes};
ghost use Rattle.kl_rows.specs.Schemes.{Settles};
ghost use Rattle.kl_forms.specs.Forms.{
  ItemsOf,
  DrawnFrom,
  FieldOf,
  VariantOf,
  IsRecord,
  IsVariant,
  RestOf,
  IsOfType,
  Applies,
  Operates,
  IsThis,
  IsInstance,
};
ghost use Rattle.kl_meaning.specs.Codes.{IsCalled};
ghost use Rattle.kl_meaning.specs.Typing.{NameTypes, ValueTypes, CallTypes};
ghost use Rattle.kl_infer.specs.Asking.{Asked, Found, Gets, GetsFunction, GetsMany, Refuses, cells, context};
ghost use Rattle.kl_forms.specs.Checks.{Checks};
ghost use Rattle.kl_infer.specs.Names.{IfCode, IsGood, Ready, by_value, meant_of, names, sort_of, sorts};

use crate::refusal::{Refusal, found, met};
use crate::scope::{Known, Scope, Sense, stands_for, variable};
use kl_base::{Label, NoMemory};
use kl_forms::{
    any_items_of, applied, field_of, fresh_types, is_record, is_variant, items_of, operated,
    rest_of, uses_function, uses_value, value, variant_of,
};
use kl_rows::{Node, Scheme, Unifier};
use kl_syntax::Op;
use kl_type::Ty;
use kl_value::{Kind, Value};
use std::alloc::Global;

/// Numbers of types, and what was asked of them so far.
#[derive(Drop)]
pub struct Typing {
    pub unifier: Unifier,
    /// The sources that were used, with the numbers that their types got.
    pub made: Vec<(Label, u64)>,
}

impl Typing {
    /// Nothing is asked.
    pub fn new(alloc: Global) -> Typing
        ensures { cells result ≡ [] }
    {
        Typing {
            unifier: Unifier::new(alloc),
            made: Vec::new(alloc),
        }
    }

    /// A type of which nothing is said.
    pub fn fresh(&mut self) -> Result<u64, NoMemory>
        requires { IsFine (cells self.old) }
        ensures { IfOk result (λ i. Gets (cells self.old) (cells self.new) i (λ t s. Unit {0})) }
    {
        self.unifier.fresh_type()
    }

    /// So many types of which nothing is said.
    pub fn fresh_many(&mut self, count: usize) -> Result<Vec<u64>, NoMemory>
        requires { IsFine (cells self.old) }
        ensures { IfOk result (λ items. GetsMany (cells self.old) (cells self.new) items.items count) }
    {
        fresh_types(&mut self.unifier, count)
    }

    /// The type of truth values.
    pub fn truth(&mut self) -> Result<u64, NoMemory>
        requires { IsFine (cells self.old) }
        ensures { IfOk result (λ i. Gets (cells self.old) (cells self.new) i (λ t s. t ≡ bool)) }
    {
        self.unifier.make(Node::Base(Ty::Bool))
    }

    /// Two types are one.
    pub fn same(&mut self, first: u64, second: u64) -> Result<(), Refusal>
        requires fine { IsFine (cells self.old) }
        requires first_there { IsType (cells self.old) first }
        requires second_there { IsType (cells self.old) second }
        ensures { Asked result (cells self.old) (cells self.new) (λ s. s.types first ≡ s.types second) }
    {
        met(self.unifier.merge(first, second)?)
    }

    /// The type is a constant's.
    pub fn value(&mut self, v: &Value, want: u64) -> Result<(), Refusal>
        requires fine { IsFine (cells self.old) }
        requires there { IsType (cells self.old) want }
        ensures { Asked result (cells self.old) (cells self.new) (IsOfType v.now want) }
    {
        met(value(&mut self.unifier, v, want)?)
    }

    /// The type of the items of a collection of this kind.
    pub fn items(&mut self, kind: Kind, want: u64) -> Result<u64, Refusal>
        requires fine { IsFine (cells self.old) }
        requires there { IsType (cells self.old) want }
        ensures { Found result (cells self.old) (cells self.new) (ItemsOf kind want) }
    {
        found(items_of(&mut self.unifier, kind, want)?)
    }

    /// The type of the items of a collection of any kind.
    pub fn any_items(&mut self, want: u64) -> Result<u64, Refusal>
        requires fine { IsFine (cells self.old) }
        requires there { IsType (cells self.old) want }
        ensures { Found result (cells self.old) (cells self.new) (DrawnFrom want) }
    {
        found(any_items_of(&mut self.unifier, want)?)
    }

    /// What a record has at the label.
    pub fn field(&mut self, label: &Label, want: u64) -> Result<u64, Refusal>
        requires fine { IsFine (cells self.old) }
        requires there { IsType (cells self.old) want }
        ensures { Found result (cells self.old) (cells self.new) (FieldOf label.now want) }
    {
        found(field_of(&mut self.unifier, label, want)?)
    }

    /// What a variant has at the label.
    pub fn variant(&mut self, label: &Label, want: u64) -> Result<u64, Refusal>
        requires fine { IsFine (cells self.old) }
        requires there { IsType (cells self.old) want }
        ensures { Found result (cells self.old) (cells self.new) (VariantOf label.now want) }
    {
        found(variant_of(&mut self.unifier, label, want)?)
    }

    /// What an operator gives of two such types.
    pub fn operated(&mut self, op: Op, first: u64, second: u64) -> Result<u64, Refusal>
        requires fine { IsFine (cells self.old) }
        requires first_there { IsType (cells self.old) first }
        requires second_there { IsType (cells self.old) second }
        ensures { Found result (cells self.old) (cells self.new) (Operates op first second) }
    {
        found(operated(&mut self.unifier, op, first, second)?)
    }

    /// The type is a record with these labels and types and, if it is open, others.
    pub fn record(
        &mut self,
        fields: Vec<(Label, u64)>,
        open: bool,
        want: u64,
    ) -> Result<(), Refusal>
        requires fine { IsFine (cells self.old) }
        requires there { IsType (cells self.old) want }
        requires fields_there { AreTypes (cells self.old) fields.items }
        ensures { Asked result (cells self.old) (cells self.new) (IsRecord «open» fields.items want) }
    {
        met(is_record(&mut self.unifier, fields, open, want)?)
    }

    /// The type of the record that has the other fields of a record with these labels and types.
    pub fn rest(&mut self, fields: Vec<(Label, u64)>, want: u64) -> Result<u64, Refusal>
        requires fine { IsFine (cells self.old) }
        requires there { IsType (cells self.old) want }
        requires fields_there { AreTypes (cells self.old) fields.items }
        ensures { Found result (cells self.old) (cells self.new) (RestOf fields.items want) }
    {
        found(rest_of(&mut self.unifier, fields, want)?)
    }

    /// The type is a variant with these labels and types and, if it is open, others.
    pub fn choice(
        &mut self,
        fields: Vec<(Label, u64)>,
        open: bool,
        want: u64,
    ) -> Result<(), Refusal>
        requires fine { IsFine (cells self.old) }
        requires there { IsType (cells self.old) want }
        requires fields_there { AreTypes (cells self.old) fields.items }
        ensures { Asked result (cells self.old) (cells self.new) (IsVariant «open» fields.items want) }
    {
        met(is_variant(&mut self.unifier, fields, open, want)?)
    }

    /// The primitive of the code, which is no form of records, takes arguments of these types and gives this one.
    pub fn applied(&mut self, code: u8, args: &[u64], want: u64) -> Result<(), Refusal>
        requires fine { IsFine (cells self.old) }
        requires called { IsCalled code }
        requires there { IsType (cells self.old) want }
        requires args_there { AllByRecursion (IsType (cells self.old)) args.now }
        ensures { Asked result (cells self.old) (cells self.new) (Applies code args.now want) }
    {
        met(applied(&mut self.unifier, code, args, want)?)
    }

    /// A function from the one type to the other.
    pub fn arrow(&mut self, from: u64, to: u64) -> Result<u64, NoMemory>
        requires fine { IsFine (cells self.old) }
        requires from_there { IsType (cells self.old) from }
        requires to_there { IsType (cells self.old) to }
        ensures { IfOk result (λ i. GetsFunction (cells self.old) (cells self.new) i from to) }
    {
        self.unifier.make(Node::Arrow(from, to))
    }

    /// What was asked of a type or of a function, as a scheme. Merges leave open whether finite types meet it.
    pub fn conclude(&self, root: u64) -> Result<Scheme, Refusal>
        requires fine { IsFine (cells self.now) }
        requires on_root { IsTyped (cells self.now) root }
        ensures { MatchResult result (λ scheme. Settles (cells self.now) root scheme) (Refuses (cells self.now) (λ s. Unit {0})) }
    {
        match self.unifier.settled(root)? {
            Some(scheme) => Ok(scheme),
            None => Err(Refusal::NoType),
        }
    }

    /// The type is one of a name's.
    pub fn name(
        &mut self,
        name: &Label,
        known: &Known,
        scope: &Scope,
        want: u64,
    ) -> Result<(), Refusal>
        requires { Ready known.now (cells self.old) (names scope.now) (want ∷ []) }
        ensures { Asked result (cells self.old) (cells self.new)
            (λ s. NameTypes (sorts known.now) (context s (names scope.now)) name.now (s.types want)) }
    {
        match variable(scope, name) {
            Some(number) => self.same(number, want),
            None => self.known(name, known, want),
        }
    }

    // The type is one of a name's that is no variable.
    fn known(&mut self, name: &Label, known: &Known, want: u64) -> Result<(), Refusal>
        requires { Ready known.now (cells self.old) [] (want ∷ []) }
        ensures { Asked result (cells self.old) (cells self.new) (λ s. ValueTypes (sorts known.now name.now) (s.types want)) }
    {
        match stands_for(known, name) {
            Sense::Value(scheme) => self.value_of(scheme.get(), want),
            Sense::Source(t) => self.source(name, t, want),
            _ => Err(Refusal::NoType),
        }
    }

    // The type is an instance of the scheme.
    fn value_of(&mut self, scheme: &Scheme, want: u64) -> Result<(), Refusal>
        requires fine { IsFine (cells self.old) }
        requires there { IsType (cells self.old) want }
        requires good { IsGood (by_value scheme.now) }
        ensures { Asked result (cells self.old) (cells self.new) (IsInstance scheme.now want) }
    {
        met(uses_value(&mut self.unifier, scheme, want)?)
    }

    // The type is that of a source, which is made once.
    fn source(&mut self, name: &Label, t: &Ty, want: u64) -> Result<(), Refusal>
        requires fine { IsFine (cells self.old) }
        requires there { IsType (cells self.old) want }
        requires proper { IsProper t.now }
        ensures { Asked result (cells self.old) (cells self.new) (IsThis t.now want) }
    {
        match made_for(&self.made, name) {
            Some(number) if self.unifier.knows(number, t) => self.same(number, want),
            _ => self.make_source(name, t, want),
        }
    }

    fn make_source(&mut self, name: &Label, t: &Ty, want: u64) -> Result<(), Refusal>
        requires fine { IsFine (cells self.old) }
        requires there { IsType (cells self.old) want }
        requires proper { IsProper t.now }
        ensures { Asked result (cells self.old) (cells self.new) (IsThis t.now want) }
    {
        let t = t.dup(self.unifier.alloc)?;
        let number = self.unifier.make(Node::Base(t))?;
        self.made.push((name.dup()?, number))?;
        met(self.unifier.merge(number, want)?)
    }

    /// A call of the name takes arguments of these types and gives this one.
    pub fn call(
        &mut self,
        name: &Label,
        args: &[u64],
        known: &Known,
        want: u64,
    ) -> Result<(), Refusal>
        requires { Ready known.now (cells self.old) [] (want ∷ args.now) }
        ensures { Asked result (cells self.old) (cells self.new)
            (λ s. CallTypes (sorts known.now name.now) (map s.types args.now) (s.types want)) }
    {
        met(can_call(&mut self.unifier, stands_for(known, name), args, want)?)
    }
}

// The number that was made for a name.
fn made_for(made: &[(Label, u64)], name: &Label) -> Option<u64>
    ensures { result ≡ field name.now made.now }
{
    for pair in made {
        if *name == pair.0 {
            return Some(pair.1);
        }
    }
    None
}

// Whether a call of what a name stands for can take arguments of these types and give this one.
fn can_call(u: &mut Unifier, sense: Sense, args: &[u64], want: u64) -> Result<bool, NoMemory>
    requires fine { IsFine u.old.cells.items }
    requires there { IsType u.old.cells.items want }
    requires args_there { AllByRecursion (IsType u.old.cells.items) args.now }
    requires good { IsGood (meant_of sense) }
    requires called { IfCode (meant_of sense) IsCalled }
    ensures { IfOk result (λ holds. Checks holds u.old.cells.items u.new.cells.items
        (λ s. CallTypes (sort_of (meant_of sense.entry)) (map s.types args.now) (s.types want))) }
{
    match sense {
        Sense::Function(scheme) => {
            if args.len() == 1 {
                uses_function(u, scheme.get(), args[0], want)
            } else {
                Ok(false)
            }
        }
        Sense::Primitive(code) => applied(u, code, args, want),
        _ => Ok(false),
    }
}
