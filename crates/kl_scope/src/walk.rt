//! The walk through a program: it writes into each name what it means, and finds what breaks the rules.
ghost use Rattle.std.specs.Prelude.{◌≡◌, [], IfOk};
ghost use Rattle.kl_syntax.specs.Syntax.{Call, Rec};
ghost use Rattle.kl_syntax.specs.View.{view, qual_view, branch_view, exps_view, fields_view, quals_view, steps_view};
ghost use Rattle.kl_syntax.specs.View.{pattern_view, patterns_view};
ghost use Rattle.kl_scope.specs.Findings.{taken, repeated};
ghost use Rattle.kl_scope.specs.Patterns.{variables, within};
ghost use Rattle.kl_scope.specs.Gathering.{gathered};
ghost use Rattle.kl_scope.specs.Walks.{PatternWalk, PatternsWalk, DrawnWalk, SureWalk, Bound, ExprWalk, ItemsWalk, QualsWalk};
ghost use Rattle.kl_scope.specs.Walks.{QualFront, HeadWalk};
ghost use Rattle.kl_scope.specs.Walks.{BranchesWalk, BranchFront, RestWalk, StepsWalk, DeclWalk, DeclsWalk, ProgramWalk, Whole, AfterOk};

use crate::findings::Findings;
use crate::names::Names;
use crate::patterns::variables;
use kl_base::{Box, Label, NoMemory};
use kl_syntax::{
    Branch, Branches, Decl, Expr, ExprFields, Exprs, PatFields, Pattern, Program, Qual, Quals,
    Steps, Word,
};
use std::alloc::Global;

/// The state of the walk.
#[derive(Drop)]
pub struct Walk {
    alloc: Global,
    pub names: Names,
    pub findings: Findings,
}

impl Walk {
    /// The names of a pattern, which stand for what they do outside it. Its variables are not bound yet.
    #[cycle(pattern)]
    fn pattern(&mut self, pattern: &mut Pattern) -> Result<(), NoMemory>
        ensures { IfOk result (λ _. PatternWalk (pattern_view pattern.old) (pattern_view pattern.new) self.old self.new) }
    {
        match pattern {
            Pattern::Bind(_) | Pattern::Any | Pattern::Is(_, _) => Ok(()),
            Pattern::Same(word) => {
                let sense = self.names.named(&word.text);
                self.findings.name(sense, word, 0)
            }
            Pattern::Rec(fields, _) => self.patterns(fields),
            Pattern::Inj(_, inner) => self.pattern(inner.get_mut()),
        }
    }

    #[cycle(pattern)]
    fn patterns(&mut self, fields: &mut PatFields) -> Result<(), NoMemory>
        ensures { IfOk result (λ _. PatternsWalk (patterns_view fields.old) (patterns_view fields.new) self.old self.new) }
    {
        self.findings.labels(self.alloc, fields.slice())?;
        let fields = fields.slice_mut();
        'fields: for i in 0..fields.len() {
            self.pattern(&mut fields[i].1)?;
        }
        Ok(())
    }

    /// A pattern that may fail to match, with its variables from then on.
    fn drawn(&mut self, pattern: &mut Pattern) -> Result<(), NoMemory>
        ensures { IfOk result (λ _. DrawnWalk (pattern_view pattern.old) (pattern_view pattern.new) self.old self.new) }
    {
        self.pattern(pattern)?;
        self.bind(pattern)?;
        Ok(())
    }

    /// The variables of a pattern are bound.
    fn bind(&mut self, pattern: &Pattern) -> Result<(), NoMemory>
        ensures names { IfOk result (λ _. self.new.names ≡ within (pattern_view pattern.now) self.old.names) }
        ensures found { IfOk result (λ _. self.new.findings
            ≡ gathered self.old.findings (repeated [] (variables (pattern_view pattern.now)))) }
    {
        let mut words = Vec::new(self.alloc);
        variables(pattern, &mut words)?;
        self.findings.repeats(self.alloc, &words)?;
        self.names.bind_all(&words)?;
        Ok(())
    }

    /// A pattern that has to match, with its variables from then on.
    fn sure(&mut self, pattern: &mut Pattern) -> Result<(), NoMemory>
        ensures { IfOk result (λ _. SureWalk (pattern_view pattern.old) (pattern_view pattern.new) self.old self.new) }
    {
        self.findings.tests(pattern);
        self.drawn(pattern)?;
        Ok(())
    }

    #[cycle(walk)]
    fn expr(&mut self, e: &mut Expr) -> Result<(), NoMemory>
        ensures { IfOk result (λ _. ExprWalk (view e.old) (view e.new) self.old self.new) }
    {
        match e {
            Expr::Const(_) => Ok(()),
            Expr::Name(word) => {
                let sense = self.names.named(&word.text);
                self.findings.name(sense, word, 0)
            }
            Expr::Call(word, args) => self.call(word, args),
            Expr::Rec(fields) => self.record(fields),
            Expr::More(fields, base) => {
                let begun = self.record(fields);
                self.next(begun, base)
            }
            Expr::Coll(_, items) => self.items(items),
            Expr::Comp(_, head, quals) => {
                let depth = self.names.depth();
                let opened = self.quals(quals);
                self.head(opened, head, depth)
            }
            Expr::If(a, b, c) => {
                let tested = self.boxed(a);
                let chosen = self.next(tested, b);
                self.next(chosen, c)
            }
            Expr::Let(pattern, a, b) => {
                let bound = self.boxed(a);
                self.body(bound, b, pattern)
            }
            Expr::Case(subject, branches, rest) => {
                let looked = self.boxed(subject);
                let branched = self.branches(looked, branches);
                self.rest(branched, rest)
            }
            Expr::Inj(_, a) => self.boxed(a),
            Expr::Path(a, _) => self.boxed(a),
            Expr::Not(a) => self.boxed(a),
            Expr::Neg(a) => self.boxed(a),
            Expr::Chain(first, steps) => {
                let begun = self.boxed(first);
                self.steps(begun, steps)
            }
        }
    }

    #[cycle(walk)]
    fn boxed(&mut self, e: &mut Box<Expr>) -> Result<(), NoMemory>
        ensures { IfOk result (λ _. ExprWalk (view e.old) (view e.new) self.old self.new) }
    {
        self.expr(e.get_mut())
    }

    // These take what came of the part before theirs, so that the walk of an expression ends in one place for each form.
    #[cycle(walk)]
    fn next(&mut self, before: Result<(), NoMemory>, e: &mut Box<Expr>) -> Result<(), NoMemory>
        ensures { IfOk result (λ _. AfterOk before (ExprWalk (view e.old) (view e.new) self.old self.new)) }
    {
        before?;
        self.expr(e.get_mut())
    }

    /// The head of a comprehension, whose variables are those above this depth.
    #[cycle(walk)]
    fn head(
        &mut self,
        before: Result<(), NoMemory>,
        head: &mut Box<Expr>,
        depth: usize,
    ) -> Result<(), NoMemory>
        ensures { IfOk result (λ _. AfterOk before (HeadWalk (view head.old) (view head.new) depth self.old self.new)) }
    {
        before?;
        self.expr(head.get_mut())?;
        self.names.leave(depth)?;
        Ok(())
    }

    /// The body of a `let` with its pattern.
    #[cycle(walk)]
    fn body(
        &mut self,
        before: Result<(), NoMemory>,
        body: &mut Box<Expr>,
        pattern: &mut Pattern,
    ) -> Result<(), NoMemory>
        ensures { IfOk result (λ _. AfterOk before
            (Bound (pattern_view pattern.old) (view body.old) (pattern_view pattern.new) (view body.new) self.old self.new)) }
    {
        before?;
        let depth = self.names.depth();
        self.sure(pattern)?;
        self.expr(body.get_mut())?;
        self.names.leave(depth)?;
        Ok(())
    }

    #[cycle(walk)]
    fn items(&mut self, items: &mut Exprs) -> Result<(), NoMemory>
        ensures { IfOk result (λ _. ItemsWalk (exps_view items.old) (exps_view items.new) self.old self.new) }
    {
        let items = items.slice_mut();
        'items: for i in 0..items.len() {
            self.expr(&mut items[i])?;
        }
        Ok(())
    }

    #[cycle(walk)]
    fn call(&mut self, word: &mut Word, args: &mut Exprs) -> Result<(), NoMemory>
        ensures { IfOk result (λ _. ExprWalk (Call word.old (exps_view args.old)) (Call word.new (exps_view args.new)) self.old self.new) }
    {
        let sense = self.names.called(&word.text);
        self.findings.name(sense, word, args.slice().len())?;
        self.items(args)?;
        Ok(())
    }

    #[cycle(walk)]
    fn record(&mut self, entries: &mut ExprFields) -> Result<(), NoMemory>
        ensures { IfOk result (λ _. ExprWalk (Rec (fields_view entries.old)) (Rec (fields_view entries.new)) self.old self.new) }
    {
        self.findings.labels(self.alloc, entries.slice())?;
        let entries = entries.slice_mut();
        'fields: for i in 0..entries.len() {
            self.expr(&mut entries[i].1)?;
        }
        Ok(())
    }

    /// Qualifiers, with their variables from then on.
    #[cycle(walk)]
    fn quals(&mut self, quals: &mut Quals) -> Result<(), NoMemory>
        ensures { IfOk result (λ _. QualsWalk (quals_view quals.old) (quals_view quals.new) self.old self.new) }
    {
        let quals = quals.slice_mut();
        'quals: for i in 0..quals.len() {
            self.qual(&mut quals[i])?;
        }
        Ok(())
    }

    #[cycle(walk)]
    fn qual(&mut self, qual: &mut Qual) -> Result<(), NoMemory>
        ensures { IfOk result (λ _. QualFront (qual_view qual.old) (qual_view qual.new) self.old self.new) }
    {
        match qual {
            Qual::Gen(pattern, e) => {
                self.expr(e)?;
                self.drawn(pattern)?;
                Ok(())
            }
            Qual::Cond(e) => {
                self.expr(e)?;
                Ok(())
            }
        }
    }

    #[cycle(walk)]
    fn branches(
        &mut self,
        before: Result<(), NoMemory>,
        branches: &mut Branches,
    ) -> Result<(), NoMemory>
        ensures { IfOk result (λ _. AfterOk before (BranchesWalk branches.old branches.new self.old self.new)) }
    {
        before?;
        self.findings.branch_labels(self.alloc, branches.slice())?;
        let branches = branches.slice_mut();
        'branches: for i in 0..branches.len() {
            self.branch(&mut branches[i])?;
        }
        Ok(())
    }

    #[cycle(walk)]
    fn branch(&mut self, branch: &mut Branch) -> Result<(), NoMemory>
        ensures { IfOk result (λ _. BranchFront (branch_view branch.old) (branch_view branch.new) self.old self.new) }
    {
        let depth = self.names.depth();
        self.sure(&mut branch.pat)?;
        self.expr(&mut branch.body)?;
        self.names.leave(depth)?;
        Ok(())
    }

    #[cycle(walk)]
    fn rest(
        &mut self,
        before: Result<(), NoMemory>,
        rest: &mut Option<Box<Expr>>,
    ) -> Result<(), NoMemory>
        ensures { IfOk result (λ _. AfterOk before (RestWalk rest.old rest.new self.old self.new)) }
    {
        before?;
        match rest {
            Some(e) => self.expr(e.get_mut()),
            None => Ok(()),
        }
    }

    #[cycle(walk)]
    fn steps(&mut self, before: Result<(), NoMemory>, steps: &mut Steps) -> Result<(), NoMemory>
        ensures { IfOk result (λ _. AfterOk before (StepsWalk (steps_view steps.old) (steps_view steps.new) self.old self.new)) }
    {
        before?;
        let steps = steps.slice_mut();
        'steps: for i in 0..steps.len() {
            self.expr(&mut steps[i].1)?;
        }
        Ok(())
    }

    fn decl(&mut self, decl: &mut Decl) -> Result<(), NoMemory>
        ensures { IfOk result (λ _. DeclWalk decl.old decl.new self.old self.new) }
    {
        self.taken(&decl.name)?;
        match &mut decl.param {
            Some(pattern) => {
                let depth = self.names.depth();
                self.sure(pattern)?;
                self.expr(&mut decl.body)?;
                self.names.leave(depth)?;
                self.names.define(&decl.name.text, true)?;
                Ok(())
            }
            None => {
                self.expr(&mut decl.body)?;
                self.names.define(&decl.name.text, false)?;
                Ok(())
            }
        }
    }

    /// Finds the name of a definition that has a meaning already.
    fn taken(&mut self, name: &Word) -> Result<(), NoMemory>
        ensures names { IfOk result (λ _. self.new.names ≡ self.old.names) }
        ensures found { IfOk result (λ _. self.new.findings ≡ gathered self.old.findings (taken self.old.names name.now)) }
    {
        if self.names.is_taken(&name.text) {
            self.findings.twice(name)
        } else {
            Ok(())
        }
    }

    fn decls(&mut self, decls: &mut [Decl]) -> Result<(), NoMemory>
        ensures { IfOk result (λ _. DeclsWalk decls.old decls.new self.old self.new) }
    {
        for i in 0..decls.len() {
            self.decl(&mut decls[i])?;
        }
        Ok(())
    }

    /// A whole program.
    fn program(&mut self, program: &mut Program) -> Result<(), NoMemory>
        ensures { IfOk result (λ _. ProgramWalk program.old program.new self.old self.new) }
    {
        self.decls(program.defs.slice_mut())?;
        self.expr(&mut program.last)?;
        Ok(())
    }
}

/// Walks through a whole program with these sources.
pub fn walk_through(
    alloc: Global,
    program: &mut Program,
    sources: &[Label],
) -> Result<Walk, NoMemory>
    ensures { IfOk result (Whole program.old program.new sources.now) }
{
    let names = Names::new(alloc, sources)?;
    let findings = Findings::new(alloc, sources.len())?;
    let mut walk = Walk {
        alloc,
        names,
        findings,
    };
    walk.program(program)?;
    Ok(walk)
}
