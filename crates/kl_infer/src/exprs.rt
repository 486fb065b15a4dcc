//! Types of expressions.
ghost use Rattle.std.specs.Prelude.{◌≡◌, ◌∷◌, [], IfOk, length, map};
ghost use Rattle.kl_rows.specs.Places.{IsFine, IsType};
ghost use Rattle.kl_syntax.specs.declared.tree.Branch.{out-Branch};
ghost use Rattle.kl_syntax.specs.Syntax.{no_branches, no_quals};
ghost use Rattle.kl_syntax.specs.View.{view, qual_view, branch_view, exps_of, exps_view, quals_view, branches_of, steps_view};
ghost use Rattle.kl_meaning.specs.Typing.{Types, AllTypes, EachType, PathTypes, QualTypes, StepTypes};
ghost use Rattle.kl_infer.specs.Asking.{Asked, Bound, cells, context, onto};
ghost use Rattle.kl_infer.specs.Names.{Ready, ArmsTake, labelled, names, sorts};

use crate::patterns::labelled;
use crate::refusal::Refusal;
use crate::scope::{Known, Scope};
use crate::typing::Typing;
use kl_base::{Label, NoMemory};
use kl_syntax::{Branch, Expr, Op, Qual, Word};
use std::alloc::Global;

impl Typing {
    /// The expression has the type.
    #[cycle(check)]
    pub fn check(
        &mut self,
        e: &Expr,
        known: &Known,
        scope: &Scope,
        want: u64,
    ) -> Result<(), Refusal>
        requires { Ready known.now (cells self.old) (names scope.now) (want ∷ []) }
        ensures { Asked result (cells self.old) (cells self.new)
            (λ s. Types (view e.now) (sorts known.now) (context s (names scope.now)) (s.types want)) }
    {
        match e {
            Expr::Const(v) => self.value(v, want),
            Expr::Name(x) => self.name(&x.text, known, scope, want),
            Expr::Call(f, args) => {
                let args = args.slice();
                let types = self.fresh_many(args.len())?;
                self.call(&f.text, &types, known, want)?;
                self.check_all(args, known, scope, &types)
            }
            Expr::Rec(fields) => {
                let fields = fields.slice();
                let types = self.fresh_many(fields.len())?;
                let all = labelled(self.unifier.alloc, fields, &types)?;
                self.record(all, false, want)?;
                self.check_fields(fields, known, scope, &types)
            }
            Expr::More(fields, a) => {
                let fields = fields.slice();
                let types = self.fresh_many(fields.len())?;
                let all = labelled(self.unifier.alloc, fields, &types)?;
                let rest = self.rest(all, want)?;
                self.check_fields(fields, known, scope, &types)?;
                self.check(a.get(), known, scope, rest)
            }
            Expr::Inj(l, a) => {
                let item = self.variant(&l.text, want)?;
                self.check(a.get(), known, scope, item)
            }
            Expr::Coll(kind, items) => {
                let item = self.items(*kind, want)?;
                self.check_each(items.slice(), known, scope, item)
            }
            Expr::Comp(kind, head, quals) => {
                let item = self.items(*kind, want)?;
                let mut block = Vec::new(self.unifier.alloc);
                self.check_quals(quals.slice(), known, scope, &mut block)?;
                self.check(head.get(), known, &Scope::Block(&block, &*scope), item)
            }
            Expr::If(a, b, c) => {
                let test = self.truth()?;
                self.check(a.get(), known, scope, test)?;
                self.check(b.get(), known, scope, want)?;
                self.check(c.get(), known, scope, want)
            }
            Expr::Let(p, a, b) => {
                let t = self.fresh()?;
                self.check(a.get(), known, scope, t)?;
                let mut bound = Vec::new(self.unifier.alloc);
                self.takes(p, known, scope, t, &mut bound)?;
                self.check(b.get(), known, &Scope::Block(&bound, &*scope), want)
            }
            Expr::Case(a, branches, rest) => {
                let branches = branches.slice();
                let types = self.fresh_many(branches.len())?;
                let t = self.fresh()?;
                let all = labels(self.unifier.alloc, branches, &types)?;
                self.choice(all, rest.is_some(), t)?;
                self.check(a.get(), known, scope, t)?;
                self.check_branches(branches, known, scope, &types, want)?;
                match rest {
                    Some(e) => self.check(e.get(), known, scope, want),
                    None => Ok(()),
                }
            }
            Expr::Path(a, labels) => {
                let t = self.fresh()?;
                self.check(a.get(), known, scope, t)?;
                self.follow(labels.slice(), t, want)
            }
            Expr::Not(a) => {
                let t = self.fresh()?;
                self.applied(11, &[t], want)?;
                self.check(a.get(), known, scope, t)
            }
            Expr::Neg(a) => {
                let t = self.fresh()?;
                self.applied(10, &[t], want)?;
                self.check(a.get(), known, scope, t)
            }
            Expr::Chain(a, steps) => {
                let t = self.fresh()?;
                self.check(a.get(), known, scope, t)?;
                self.check_steps(steps.slice(), known, scope, t, want)
            }
        }
    }

    // Each has its type.
    #[cycle(check)]
    fn check_all(
        &mut self,
        es: &[Expr],
        known: &Known,
        scope: &Scope,
        types: &[u64],
    ) -> Result<(), Refusal>
        requires ready { Ready known.now (cells self.old) (names scope.now) types.now }
        requires size { length types.now ≡ length es.now }
        ensures { Asked result (cells self.old) (cells self.new) (λ s. AllTypes (exps_view es.now)
            (sorts known.now) (context s (names scope.now)) (map s.types types.now)) }
    {
        'es: for i in 0..es.len() {
            self.check(&es[i], known, scope, types[i])?;
        }
        Ok(())
    }

    #[cycle(check)]
    fn check_fields(
        &mut self,
        fields: &[(Word, Expr)],
        known: &Known,
        scope: &Scope,
        types: &[u64],
    ) -> Result<(), Refusal>
        requires ready { Ready known.now (cells self.old) (names scope.now) types.now }
        requires size { length types.now ≡ length fields.now }
        ensures { Asked result (cells self.old) (cells self.new) (λ s. AllTypes (exps_of (map (λ f. view f.1) fields.now))
            (sorts known.now) (context s (names scope.now)) (map s.types types.now)) }
    {
        'fields: for i in 0..fields.len() {
            self.check(&fields[i].1, known, scope, types[i])?;
        }
        Ok(())
    }

    // All have the type.
    #[cycle(check)]
    fn check_each(
        &mut self,
        es: &[Expr],
        known: &Known,
        scope: &Scope,
        item: u64,
    ) -> Result<(), Refusal>
        requires { Ready known.now (cells self.old) (names scope.now) (item ∷ []) }
        ensures { Asked result (cells self.old) (cells self.new) (λ s. EachType (exps_view es.now)
            (sorts known.now) (context s (names scope.now)) (s.types item)) }
    {
        'es: for i in 0..es.len() {
            self.check(&es[i], known, scope, item)?;
        }
        Ok(())
    }

    // The variables of qualifiers are added to `block`.
    #[cycle(check)]
    fn check_quals(
        &mut self,
        quals: &[Qual],
        known: &Known,
        scope: &Scope,
        block: &mut Vec<(Label, u64)>,
    ) -> Result<(), Refusal>
        requires { Ready known.now (cells self.old) (onto block.old.items (names scope.now)) [] }
        ensures { Bound result (cells self.old) (cells self.new) block.old.items block.new.items (names scope.now)
            (λ s. QualTypes (quals_view quals.now) (sorts known.now)) }
    {
        'quals: for i in 0..quals.len() {
            self.check_qual(&quals[i], known, scope, block)?;
        }
        Ok(())
    }

    #[cycle(check)]
    fn check_qual(
        &mut self,
        qual: &Qual,
        known: &Known,
        scope: &Scope,
        block: &mut Vec<(Label, u64)>,
    ) -> Result<(), Refusal>
        requires { Ready known.now (cells self.old) (onto block.old.items (names scope.now)) [] }
        ensures { Bound result (cells self.old) (cells self.new) block.old.items block.new.items (names scope.now)
            (λ s. QualTypes (qual_view qual.now no_quals) (sorts known.now)) }
    {
        match qual {
            Qual::Gen(p, source) => {
                let all = self.fresh()?;
                let item = self.any_items(all)?;
                let mut bound = Vec::new(self.unifier.alloc);
                {
                    let inner = Scope::Block(&*block, &*scope);
                    self.check(source, known, &inner, all)?;
                    self.takes(p, known, &inner, item, &mut bound)?;
                }
                block.append(&mut bound)?;
                Ok(())
            }
            Qual::Cond(c) => {
                let test = self.truth()?;
                self.check(c, known, &Scope::Block(&*block, &*scope), test)
            }
        }
    }

    #[cycle(check)]
    fn check_branches(
        &mut self,
        branches: &[Branch],
        known: &Known,
        scope: &Scope,
        types: &[u64],
        want: u64,
    ) -> Result<(), Refusal>
        requires ready { Ready known.now (cells self.old) (names scope.now) (want ∷ types.now) }
        requires size { length types.now ≡ length branches.now }
        ensures { Asked result (cells self.old) (cells self.new) (λ s. ArmsTake (branches_of (map branch_view branches.now) no_branches)
            (sorts known.now) (context s (names scope.now)) (map s.types types.now) (s.types want)) }
    {
        'branches: for i in 0..branches.len() {
            self.check_branch(&branches[i], known, scope, types[i], want)?;
        }
        Ok(())
    }

    #[cycle(check)]
    fn check_branch(
        &mut self,
        branch: &Branch,
        known: &Known,
        scope: &Scope,
        t: u64,
        want: u64,
    ) -> Result<(), Refusal>
        requires { Ready known.now (cells self.old) (names scope.now) (t ∷ want ∷ []) }
        ensures { Asked result (cells self.old) (cells self.new) (λ s. ArmsTake (branch_view branch.now no_branches)
            (sorts known.now) (context s (names scope.now)) (s.types t ∷ []) (s.types want)) }
    {
        let mut bound = Vec::new(self.unifier.alloc);
        self.takes(&branch.pat, known, scope, t, &mut bound)?;
        self.check(&branch.body, known, &Scope::Block(&bound, &*scope), want)
    }

    #[cycle(check)]
    fn check_steps(
        &mut self,
        steps: &[(Op, Expr)],
        known: &Known,
        scope: &Scope,
        first: u64,
        want: u64,
    ) -> Result<(), Refusal>
        requires { Ready known.now (cells self.old) (names scope.now) (first ∷ want ∷ []) }
        ensures { Asked result (cells self.old) (cells self.new) (λ s. StepTypes (steps_view steps.now)
            (sorts known.now) (context s (names scope.now)) (s.types first) (s.types want)) }
    {
        let mut t = first;
        'steps: for i in 0..steps.len() {
            let second = self.fresh()?;
            self.check(&steps[i].1, known, scope, second)?;
            t = self.operated(steps[i].0, t, second)?;
        }
        self.same(t, want)
    }

    // From a record over labels to what stands at the last.
    fn follow(&mut self, labels: &[Word], from: u64, want: u64) -> Result<(), Refusal>
        requires fine { IsFine (cells self.old) }
        requires from_there { IsType (cells self.old) from }
        requires there { IsType (cells self.old) want }
        ensures { Asked result (cells self.old) (cells self.new) (λ s. PathTypes labels.now (s.types from) (s.types want)) }
    {
        let mut t = from;
        'labels: for i in 0..labels.len() {
            t = self.field(&labels[i].text, t)?;
        }
        self.same(t, want)
    }
}

// The labels of branches with these numbers.
fn labels(alloc: Global, branches: &[Branch], types: &[u64]) -> Result<Vec<(Label, u64)>, NoMemory>
    requires { length types.now ≡ length branches.now }
    ensures { IfOk result (λ all. all.items ≡ labelled (map (λ b. (out-Branch b).label.text) branches.now) types.now) }
{
    let mut all = Vec::with_capacity(alloc, branches.len())?;
    'branches: for i in 0..branches.len() {
        all.push((branches[i].label.text.dup()?, types[i]))?;
    }
    Ok(all)
}
