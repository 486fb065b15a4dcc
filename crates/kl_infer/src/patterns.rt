//! Types of patterns.
ghost use Rattle.std.specs.Prelude.{◌≡◌, ◌∷◌, [], IfOk, length, map};
ghost use Rattle.kl_syntax.specs.View.{pattern_view, patterns_view};
ghost use Rattle.kl_meaning.specs.Match.{is_open};
ghost use Rattle.kl_meaning.specs.Typing.{NameTypes, Takes};
ghost use Rattle.kl_infer.specs.Asking.{Bound, cells, context, onto};
ghost use Rattle.kl_infer.specs.Names.{Ready, TakesAll, labelled, names, sorts};

use crate::refusal::Refusal;
use crate::scope::{Known, Scope};
use crate::typing::Typing;
use kl_base::{Label, NoMemory};
use kl_syntax::{Pattern, Tail, Word};
use std::alloc::Global;

impl Typing {
    /// The pattern takes the type. Its variables are added to `bound`. A bare name is looked up outside the pattern.
    #[cycle(takes)]
    pub fn takes(
        &mut self,
        p: &Pattern,
        known: &Known,
        outside: &Scope,
        t: u64,
        bound: &mut Vec<(Label, u64)>,
    ) -> Result<(), Refusal>
        requires { Ready known.now (cells self.old) (onto bound.old.items (names outside.now)) (t ∷ []) }
        ensures { Bound result (cells self.old) (cells self.new) bound.old.items bound.new.items (names outside.now)
            (λ s. Takes (pattern_view p.now) (NameTypes
            (sorts known.now) (context s (names outside.now))) (s.types t)) }
    {
        match p {
            Pattern::Bind(x) => {
                bound.push((x.text.dup()?, t))?;
                Ok(())
            }
            Pattern::Any => Ok(()),
            Pattern::Same(x) => self.name(&x.text, known, outside, t),
            Pattern::Is(v, _) => self.value(v, t),
            Pattern::Rec(fields, end) => {
                let fields = fields.slice();
                let types = self.fresh_many(fields.len())?;
                let all = labelled(self.unifier.alloc, fields, &types)?;
                if let Tail::Rest(x) = end {
                    let rest = self.rest(all, t)?;
                    self.takes_fields(fields, known, outside, &types, bound)?;
                    bound.push((x.text.dup()?, rest))?;
                    return Ok(());
                }
                let dots = &is_open(end);
                self.record(all, *dots, t)?;
                self.takes_fields(fields, known, outside, &types, bound)
            }
            Pattern::Inj(l, inner) => {
                let item = self.variant(&l.text, t)?;
                self.takes(inner.get(), known, outside, item, bound)
            }
        }
    }

    #[cycle(takes)]
    fn takes_fields(
        &mut self,
        fields: &[(Word, Pattern)],
        known: &Known,
        outside: &Scope,
        types: &[u64],
        bound: &mut Vec<(Label, u64)>,
    ) -> Result<(), Refusal>
        requires ready { Ready known.now (cells self.old) (onto bound.old.items (names outside.now)) types.now }
        requires size { length types.now ≡ length fields.now }
        ensures { Bound result (cells self.old) (cells self.new) bound.old.items bound.new.items (names outside.now)
            (λ s. TakesAll (patterns_view fields.now)
            (NameTypes (sorts known.now) (context s (names outside.now))) (map s.types types.now)) }
    {
        'fields: for i in 0..fields.len() {
            self.takes(&fields[i].1, known, outside, types[i], bound)?;
        }
        Ok(())
    }
}

// Whether other fields may be there.
fn is_open(end: &Tail) -> bool
    ensures { result ≡ is_open end.now }
{
    match end {
        Tail::Exact => false,
        Tail::Open | Tail::Rest(_) => true,
    }
}

/// The labels of fields with these numbers.
pub fn labelled<T>(
    alloc: Global,
    fields: &[(Word, T)],
    types: &[u64],
) -> Result<Vec<(Label, u64)>, NoMemory>
    requires { length types.now ≡ length fields.now }
    ensures { IfOk result (λ all. all.items ≡ labelled (map (λ f. f.0.text) fields.now) types.now) }
{
    let mut all = Vec::with_capacity(alloc, fields.len())?;
    'fields: for i in 0..fields.len() {
        all.push((fields[i].0.text.dup()?, types[i]))?;
    }
    Ok(all)
}
