//! Where names stand in a declaration.
ghost use Rattle.std.specs.Prelude.{◌≡◌, ◌++◌, ◌∷◌, [], true, false, map, IfOk};
ghost use Rattle.std.specs.Option.{option_map};
ghost use Rattle.kl_syntax.specs.Syntax.{Quals, Branches};
ghost use Rattle.kl_syntax.specs.View.{pattern_view, patterns_view, view, exps_view, fields_view, quals_view, qual_view};
ghost use Rattle.kl_syntax.specs.View.{branches_of, branch_view, rest_of, steps_view};
ghost use Rattle.kl_scope.specs.Walks.{AfterOk};
ghost use Rattle.kl_ho.specs.Functions.{behind_quals};
ghost use Rattle.kl_ho.specs.Highers.{bare};
ghost use Rattle.kl_functions.specs.Occurrences as spec;
ghost use Rattle.kl_functions.specs.Occurrences.{names_of, OnOk, roles_of, literal_at, argument_at, unless_told};
ghost use Rattle.kl_functions.specs.Occurrences.{pattern_occurrences, patterns_occurrences, occurrences, occurrences_all};
ghost use Rattle.kl_functions.specs.Occurrences.{occurrences_fields, occurrences_quals, occurrences_branches, occurrences_steps};

use crate::variables::{behind, copied, is_among};
use kl_base::{Box, Label, NoMemory, Seq};
use kl_syntax::{Branch, Expr, Op, Pattern, Qual, Word};
use std::alloc::Global;

/// What a name refers to where it stands.
#[derive(Drop)]
pub enum Referent {
    /// A field of the parameter that may be a function, by its variable.
    Field(Label),
    /// A name that is no variable.
    Global(Label),
    /// Any other variable.
    Local,
}

/// The fields of a record literal, each with the bare name that stands in it, if one does.
pub type Literal = Seq<(Label, Option<Referent>)>;

/// A place where a name stands. A bare name in a field of the literal that is the one argument of a call is told with
/// the head of the call.
#[derive(Drop)]
pub enum Occurrence {
    /// Alone.
    Alone(Referent),
    /// The head of a call, with the literal that is the one argument, if it is one.
    Head(Referent, Option<Literal>),
}

/// The variables of a definition's parameter: all of them, and those of the fields that may be functions.
#[derive(Drop)]
pub struct Parameter<'a> {
    pub alloc: Global,
    pub variables: Vec<&'a Label>,
    pub candidates: Vec<&'a Label>,
}

impl<'a> Parameter<'a> {
    /// What a name refers to behind these variables.
    fn referent(&self, hiding: &[&Label], name: &Label) -> Result<Referent, NoMemory>
        ensures { IfOk result (λ r. r ≡ spec.referent (roles_of self.now) (names_of hiding.now) name.now) }
    {
        if is_among(name, hiding) {
            Ok(Referent::Local)
        } else if is_among(name, &self.candidates) {
            Ok(Referent::Field(name.dup()?))
        } else if is_among(name, &self.variables) {
            Ok(Referent::Local)
        } else {
            Ok(Referent::Global(name.dup()?))
        }
    }

    // The bare name that stands in a field.
    fn standing(&self, hiding: &[&Label], e: &Expr) -> Result<Option<Referent>, NoMemory>
        ensures { IfOk result (λ r. r ≡ option_map (λ x. spec.referent (roles_of self.now) (names_of hiding.now) x) (bare (view e.now))) }
    {
        match e {
            Expr::Name(word) => Ok(Some(self.referent(hiding, &word.text)?)),
            _ => Ok(None),
        }
    }

    fn literal(&self, hiding: &[&Label], fields: &[(Word, Expr)]) -> Result<Literal, NoMemory>
        ensures { IfOk result (λ l. l ≡ spec.referents (roles_of self.now) (fields_view fields.now) (names_of hiding.now)) }
    {
        let mut literal = Vec::with_capacity(self.alloc, fields.len())?;
        'fields: for field in fields {
            let label = field.0.text.dup()?;
            let stands = self.standing(hiding, &field.1)?;
            literal.push((label, stands))?;
        }
        Ok(Seq::of(literal))
    }

    fn literal_at(&self, hiding: &[&Label], e: &Expr) -> Result<Option<Literal>, NoMemory>
        ensures { IfOk result (λ l. l ≡ literal_at (roles_of self.now) (view e.now) (names_of hiding.now)) }
    {
        match e {
            Expr::Rec(fields) => Ok(Some(self.literal(hiding, fields.slice())?)),
            _ => Ok(None),
        }
    }

    // The literal that is the one argument.
    fn argument(&self, hiding: &[&Label], args: &[Expr]) -> Result<Option<Literal>, NoMemory>
        ensures { IfOk result (λ l. l ≡ argument_at (roles_of self.now) (exps_view args.now) (names_of hiding.now)) }
    {
        match args {
            [] => Ok(None),
            [e] => self.literal_at(hiding, e),
            [_, _, ..] => Ok(None),
        }
    }

    fn alone(
        &self,
        hiding: &[&Label],
        word: &Word,
        found: &mut Vec<Occurrence>,
    ) -> Result<(), NoMemory>
        ensures { IfOk result (λ _. found.new.items ≡ found.old.items
            ++ Occurrence.Alone (spec.referent (roles_of self.now) (names_of hiding.now) word.now.text) ∷ []) }
    {
        found.push(Occurrence::Alone(self.referent(hiding, &word.text)?))?;
        Ok(())
    }

    fn head(
        &self,
        hiding: &[&Label],
        word: &Word,
        args: &[Expr],
        found: &mut Vec<Occurrence>,
    ) -> Result<(), NoMemory>
        ensures { IfOk result (λ _. found.new.items ≡ found.old.items
            ++ Occurrence.Head (spec.referent (roles_of self.now) (names_of hiding.now) word.now.text)
            (argument_at (roles_of self.now) (exps_view args.now) (names_of hiding.now)) ∷ []) }
    {
        let head = self.referent(hiding, &word.text)?;
        let argument = self.argument(hiding, args)?;
        found.push(Occurrence::Head(head, argument))?;
        Ok(())
    }

    #[cycle(pattern)]
    fn pattern(
        &self,
        hiding: &[&Label],
        pattern: &Pattern,
        found: &mut Vec<Occurrence>,
    ) -> Result<(), NoMemory>
        ensures { IfOk result (λ _. found.new.items ≡ found.old.items
            ++ pattern_occurrences (roles_of self.now) (pattern_view pattern.now) (names_of hiding.now)) }
    {
        match pattern {
            Pattern::Same(word) => self.alone(hiding, word, found),
            Pattern::Bind(_) | Pattern::Any | Pattern::Is(_, _) => Ok(()),
            Pattern::Rec(fields, _) => self.patterns(hiding, fields.slice(), found),
            Pattern::Inj(_, inner) => self.pattern(hiding, inner.get(), found),
        }
    }

    #[cycle(pattern)]
    fn patterns(
        &self,
        hiding: &[&Label],
        fields: &[(Word, Pattern)],
        found: &mut Vec<Occurrence>,
    ) -> Result<(), NoMemory>
        ensures { IfOk result (λ _. found.new.items ≡ found.old.items
            ++ patterns_occurrences (roles_of self.now) (patterns_view fields.now) (names_of hiding.now)) }
    {
        'fields: for field in fields {
            self.pattern(hiding, &field.1, found)?;
        }
        Ok(())
    }

    /// Adds the places where names stand in an expression; `given` where it is the one argument of a call.
    #[cycle(places)]
    pub fn expr<'e>(
        &self,
        hiding: &[&'e Label],
        given: bool,
        e: &'e Expr,
        found: &mut Vec<Occurrence>,
    ) -> Result<(), NoMemory>
        ensures { IfOk result (λ _. found.new.items ≡ found.old.items
            ++ occurrences (roles_of self.now) (view e.now) given (names_of hiding.now)) }
    {
        match e {
            Expr::Const(_) => Ok(()),
            Expr::Name(word) => self.alone(hiding, word, found),
            Expr::Call(word, args) => {
                let args = args.slice();
                let called = self.head(hiding, word, args, found);
                self.handed(called, hiding, args, found)
            }
            Expr::Rec(fields) => self.fields(hiding, given, fields.slice(), found),
            Expr::More(fields, a) => {
                let written = self.fields(hiding, false, fields.slice(), found);
                self.next(written, hiding, a.get(), found)
            }
            Expr::Coll(_, items) => self.items(hiding, false, items.slice(), found),
            Expr::Comp(_, head, quals) => {
                let behind = self.quals(hiding, quals.slice(), found);
                self.within(behind, head.get(), found)
            }
            Expr::If(a, b, c) => {
                let tested = self.expr(hiding, false, a.get(), found);
                let chosen = self.next(tested, hiding, b.get(), found);
                self.next(chosen, hiding, c.get(), found)
            }
            Expr::Let(pattern, a, b) => {
                let bound = self.expr(hiding, false, a.get(), found);
                self.body(bound, hiding, b.get(), pattern, found)
            }
            Expr::Case(a, branches, rest) => {
                let looked = self.expr(hiding, false, a.get(), found);
                let branched = self.branches(looked, hiding, branches.slice(), found);
                self.rest(branched, hiding, rest, found)
            }
            Expr::Inj(_, a) => self.expr(hiding, false, a.get(), found),
            Expr::Path(a, _) => self.expr(hiding, false, a.get(), found),
            Expr::Not(a) => self.expr(hiding, false, a.get(), found),
            Expr::Neg(a) => self.expr(hiding, false, a.get(), found),
            Expr::Chain(a, steps) => {
                let begun = self.expr(hiding, false, a.get(), found);
                self.steps(begun, hiding, steps.slice(), found)
            }
        }
    }

    // These take what came of the part before theirs, so that `expr` ends in one place for each form.
    #[cycle(places)]
    fn next<'e>(
        &self,
        before: Result<(), NoMemory>,
        hiding: &[&'e Label],
        e: &'e Expr,
        found: &mut Vec<Occurrence>,
    ) -> Result<(), NoMemory>
        ensures { IfOk result (λ _. AfterOk before (found.new.items ≡ found.old.items
            ++ occurrences (roles_of self.now) (view e.now) false (names_of hiding.now))) }
    {
        before?;
        self.expr(hiding, false, e, found)
    }

    #[cycle(places)]
    fn handed<'e>(
        &self,
        before: Result<(), NoMemory>,
        hiding: &[&'e Label],
        args: &'e [Expr],
        found: &mut Vec<Occurrence>,
    ) -> Result<(), NoMemory>
        ensures { IfOk result (λ _. AfterOk before (found.new.items ≡ found.old.items
            ++ occurrences_all (roles_of self.now) (exps_view args.now) (spec.is_one (exps_view args.now)) (names_of hiding.now))) }
    {
        before?;
        self.items(hiding, is_one(args), args, found)
    }

    #[cycle(places)]
    fn items<'e>(
        &self,
        hiding: &[&'e Label],
        given: bool,
        items: &'e [Expr],
        found: &mut Vec<Occurrence>,
    ) -> Result<(), NoMemory>
        ensures { IfOk result (λ _. found.new.items ≡ found.old.items
            ++ occurrences_all (roles_of self.now) (exps_view items.now) given (names_of hiding.now)) }
    {
        'items: for item in items {
            self.expr(hiding, given, item, found)?;
        }
        Ok(())
    }

    #[cycle(places)]
    fn fields<'e>(
        &self,
        hiding: &[&'e Label],
        given: bool,
        fields: &'e [(Word, Expr)],
        found: &mut Vec<Occurrence>,
    ) -> Result<(), NoMemory>
        ensures { IfOk result (λ _. found.new.items ≡ found.old.items
            ++ occurrences_fields (roles_of self.now) (fields_view fields.now) given (names_of hiding.now)) }
    {
        'fields: for field in fields {
            self.field(hiding, given, &field.1, found)?;
        }
        Ok(())
    }

    #[cycle(places)]
    fn field<'e>(
        &self,
        hiding: &[&'e Label],
        given: bool,
        e: &'e Expr,
        found: &mut Vec<Occurrence>,
    ) -> Result<(), NoMemory>
        ensures { IfOk result (λ _. found.new.items ≡ found.old.items
            ++ unless_told given (view e.now) (occurrences (roles_of self.now) (view e.now) false (names_of hiding.now))) }
    {
        if given && is_bare(e) {
            Ok(())
        } else {
            self.expr(hiding, false, e, found)
        }
    }

    /// Qualifiers, and the variables that stand behind them.
    #[cycle(places)]
    fn quals<'e>(
        &self,
        hiding: &[&'e Label],
        quals: &'e [Qual],
        found: &mut Vec<Occurrence>,
    ) -> Result<Vec<&'e Label>, NoMemory>
        ensures behind { IfOk result (λ names. names_of names.items ≡ behind_quals (quals_view quals.now) (names_of hiding.now)) }
        ensures found { IfOk result (λ _. found.new.items ≡ found.old.items
            ++ occurrences_quals (roles_of self.now) (quals_view quals.now) (names_of hiding.now)) }
    {
        let mut names = copied(self.alloc, hiding)?;
        'quals: for qual in quals {
            names = self.qual(&names, qual, found)?;
        }
        Ok(names)
    }

    #[cycle(places)]
    fn qual<'e>(
        &self,
        hiding: &[&'e Label],
        qual: &'e Qual,
        found: &mut Vec<Occurrence>,
    ) -> Result<Vec<&'e Label>, NoMemory>
        ensures behind { IfOk result (λ names. (rest : Quals) → behind_quals rest (names_of names.items)
            ≡ behind_quals (qual_view qual.now rest) (names_of hiding.now)) }
        ensures found { IfOk result (λ names. (rest : Quals) → found.new.items ++ occurrences_quals (roles_of self.now) rest (names_of names.items)
            ≡ found.old.items ++ occurrences_quals (roles_of self.now) (qual_view qual.now rest) (names_of hiding.now)) }
    {
        match qual {
            Qual::Gen(pattern, e) => {
                self.expr(hiding, false, e, found)?;
                self.pattern(hiding, pattern, found)?;
                behind(self.alloc, pattern, hiding)
            }
            Qual::Cond(e) => {
                self.expr(hiding, false, e, found)?;
                copied(self.alloc, hiding)
            }
        }
    }

    #[cycle(places)]
    fn within<'e>(
        &self,
        hiding: Result<Vec<&'e Label>, NoMemory>,
        e: &'e Expr,
        found: &mut Vec<Occurrence>,
    ) -> Result<(), NoMemory>
        ensures { IfOk result (λ _. OnOk hiding.entry (λ names. found.new.items ≡ found.old.items
            ++ occurrences (roles_of self.now) (view e.now) false (names_of names.items))) }
    {
        let hiding = hiding?;
        self.expr(&hiding, false, e, found)
    }

    /// What a pattern is bound in, and the pattern.
    #[cycle(places)]
    fn body<'e>(
        &self,
        before: Result<(), NoMemory>,
        hiding: &[&'e Label],
        e: &'e Expr,
        pattern: &'e Pattern,
        found: &mut Vec<Occurrence>,
    ) -> Result<(), NoMemory>
        ensures { IfOk result (λ _. AfterOk before (found.new.items ≡ found.old.items
            ++ spec.occurrences_bound (roles_of self.now) (pattern_view pattern.now) (view e.now) (names_of hiding.now))) }
    {
        before?;
        self.pattern(hiding, pattern, found)?;
        let inner = behind(self.alloc, pattern, hiding)?;
        self.expr(&inner, false, e, found)?;
        Ok(())
    }

    /// Branches before others.
    #[cycle(places)]
    fn branches<'e>(
        &self,
        before: Result<(), NoMemory>,
        hiding: &[&'e Label],
        branches: &'e [Branch],
        found: &mut Vec<Occurrence>,
    ) -> Result<(), NoMemory>
        ensures { IfOk result (λ _. AfterOk before ((rest : Branches)
            → found.new.items ++ occurrences_branches (roles_of self.now) rest (names_of hiding.now)
            ≡ found.old.items ++ occurrences_branches (roles_of self.now) (branches_of (map branch_view branches.now) rest) (names_of hiding.now))) }
    {
        before?;
        'branches: for branch in branches {
            self.branch(hiding, branch, found)?;
        }
        Ok(())
    }

    #[cycle(places)]
    fn branch<'e>(
        &self,
        hiding: &[&'e Label],
        branch: &'e Branch,
        found: &mut Vec<Occurrence>,
    ) -> Result<(), NoMemory>
        ensures { IfOk result (λ _. (rest : Branches) → found.new.items ++ occurrences_branches (roles_of self.now) rest (names_of hiding.now)
            ≡ found.old.items ++ occurrences_branches (roles_of self.now) (branch_view branch.now rest) (names_of hiding.now)) }
    {
        self.pattern(hiding, &branch.pat, found)?;
        let inner = behind(self.alloc, &branch.pat, hiding)?;
        self.expr(&inner, false, &branch.body, found)?;
        Ok(())
    }

    #[cycle(places)]
    fn rest<'e>(
        &self,
        before: Result<(), NoMemory>,
        hiding: &[&'e Label],
        rest: &'e Option<Box<Expr>>,
        found: &mut Vec<Occurrence>,
    ) -> Result<(), NoMemory>
        ensures { IfOk result (λ _. AfterOk before (found.new.items ≡ found.old.items
            ++ occurrences_branches (roles_of self.now) (rest_of (option_map view rest.now)) (names_of hiding.now))) }
    {
        before?;
        match rest {
            Some(e) => self.expr(hiding, false, e.get(), found),
            None => Ok(()),
        }
    }

    #[cycle(places)]
    fn steps<'e>(
        &self,
        before: Result<(), NoMemory>,
        hiding: &[&'e Label],
        steps: &'e [(Op, Expr)],
        found: &mut Vec<Occurrence>,
    ) -> Result<(), NoMemory>
        ensures { IfOk result (λ _. AfterOk before (found.new.items ≡ found.old.items
            ++ occurrences_steps (roles_of self.now) (steps_view steps.now) (names_of hiding.now))) }
    {
        before?;
        'steps: for step in steps {
            self.expr(hiding, false, &step.1, found)?;
        }
        Ok(())
    }
}

fn is_bare(e: &Expr) -> bool
    ensures { result ≡ spec.is_bare (view e.now) }
{
    matches!(e, Expr::Name(_))
}

fn is_one(args: &[Expr]) -> bool
    ensures { result ≡ spec.is_one (exps_view args.now) }
{
    args.len() == 1
}
