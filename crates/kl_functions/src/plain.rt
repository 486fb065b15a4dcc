//! The copy of a program without its functions: each call of a function parameter is its argument, and each function that is
//! handed over a constant.
ghost use Rattle.std.specs.Prelude.{◌≡◌, [], ◌∷◌, None, IfOk, cond};
ghost use Rattle.std.specs.Option.{option_map, option_copied};
ghost use Rattle.kl_syntax.specs.declared.tree.Expr.TheVariants as expr;
ghost use Rattle.kl_syntax.specs.Syntax as tree;
ghost use Rattle.kl_syntax.specs.View.{pattern_view, view, exps_view, fields_view, quals_view, qual_view, steps_view, branch_view, rest_of};
ghost use Rattle.kl_scope.specs.Walks.{onto};
ghost use Rattle.kl_ho.specs.Plain.{nothing, is_parameter, is_bare_function, takes_function, called_parameter};
ghost use Rattle.kl_ho.specs.Shapes.{names_after, behind_shaped};
ghost use Rattle.kl_functions.specs.Occurrences.{names_of, OnOk};
ghost use Rattle.kl_functions.specs.Known.{fields_in};
ghost use Rattle.kl_functions.specs.Plainly.{fields_at, functions_at, params_at, is_handed, plain_copy, plain_handed, plain_all, plain_fields, plain_field, plain_quals, plain_branches, plain_steps};

use crate::copies::{pattern_copy, word_copies, word_copy};
use crate::first::is_label;
use crate::functions::{Before, Known};
use crate::hiding::enter;
use crate::variables::{copied, is_among};
use kl_base::{Box, Label, NoMemory, Seq};
use kl_syntax::{Branch, Branches, Expr, ExprFields, Exprs, Op, Pattern, Qual, Quals, Steps, Word};
use kl_value::{Kind, Value, dup};
use std::alloc::Global;

/// What is known where a body stands: all definitions, by whose function fields calls are read; those before it; and its
/// function parameters.
#[derive(Clone, Copy)]
pub struct Place<'p> {
    pub alloc: Global,
    pub all: &'p [Known],
    pub before: Before<'p>,
    pub params: &'p [&'p Label],
}

/// The labels of the function fields of the first definition of a name.
pub fn labels_of<'p>(all: &'p [Known], name: &Label) -> &'p [Label]
    ensures { result.now ≡ fields_in all.now name.now }
{
    'known: for known in all {
        if *name == known.name {
            return known.fields.slice();
        }
    }
    &[]
}

// ---- what is made of the copies of parts

fn constant() -> Expr
    ensures { view result ≡ nothing }
{
    Expr::Const(Value::Bool(true))
}

fn boxed(alloc: Global, e: Result<Expr, NoMemory>) -> Result<Box<Expr>, NoMemory>
    ensures { IfOk result (λ x. OnOk e (λ y. x ≡ y)) }
{
    Ok(Box::new(alloc, e?)?)
}

fn one(alloc: Global, e: Result<Expr, NoMemory>) -> Result<Exprs, NoMemory>
    ensures { IfOk result (λ x. OnOk e (λ y. x ≡ y ∷ [])) }
{
    let e = e?;
    let mut all = Vec::with_capacity(alloc, 1)?;
    all.push(e)?;
    Ok(Seq::of(all))
}

fn named(word: &Word) -> Result<Expr, NoMemory>
    ensures { IfOk result (λ x. x ≡ expr.Name word.now) }
{
    Ok(Expr::Name(word_copy(word)?))
}

fn record(fields: Result<ExprFields, NoMemory>) -> Result<Expr, NoMemory>
    ensures { IfOk result (λ x. OnOk fields (λ y. x ≡ expr.Rec y)) }
{
    Ok(Expr::Rec(fields?))
}

fn extended(
    fields: Result<ExprFields, NoMemory>,
    a: Result<Box<Expr>, NoMemory>,
) -> Result<Expr, NoMemory>
    ensures { IfOk result (λ x. OnOk fields (λ y. OnOk a (λ z. x ≡ expr.More y z))) }
{
    Ok(Expr::More(fields?, a?))
}

fn injection(label: &Word, a: Result<Box<Expr>, NoMemory>) -> Result<Expr, NoMemory>
    ensures { IfOk result (λ x. OnOk a (λ y. x ≡ expr.Inj label.now y)) }
{
    let a = a?;
    Ok(Expr::Inj(word_copy(label)?, a))
}

fn collection(kind: Kind, items: Result<Exprs, NoMemory>) -> Result<Expr, NoMemory>
    ensures { IfOk result (λ x. OnOk items (λ y. x ≡ expr.Coll kind y)) }
{
    Ok(Expr::Coll(kind, items?))
}

fn comprehension(
    alloc: Global,
    kind: Kind,
    quals: Quals,
    head: Result<Expr, NoMemory>,
) -> Result<Expr, NoMemory>
    ensures { IfOk result (λ x. OnOk head (λ y. x ≡ expr.Comp kind y quals)) }
{
    Ok(Expr::Comp(kind, Box::new(alloc, head?)?, quals))
}

fn choice(
    a: Result<Box<Expr>, NoMemory>,
    b: Result<Box<Expr>, NoMemory>,
    c: Result<Box<Expr>, NoMemory>,
) -> Result<Expr, NoMemory>
    ensures { IfOk result (λ x. OnOk a (λ y. OnOk b (λ z. OnOk c (λ w. x ≡ expr.If y z w)))) }
{
    Ok(Expr::If(a?, b?, c?))
}

fn binding(
    alloc: Global,
    pattern: &Pattern,
    a: Result<Box<Expr>, NoMemory>,
    body: Result<Expr, NoMemory>,
) -> Result<Expr, NoMemory>
    ensures { IfOk result (λ x. OnOk a (λ y. OnOk body (λ z. x ≡ expr.Let pattern.now y z))) }
{
    let a = a?;
    let body = boxed(alloc, body)?;
    Ok(Expr::Let(pattern_copy(alloc, pattern)?, a, body))
}

fn case(
    a: Result<Box<Expr>, NoMemory>,
    branches: Result<Branches, NoMemory>,
    rest: Result<Option<Box<Expr>>, NoMemory>,
) -> Result<Expr, NoMemory>
    ensures { IfOk result (λ x. OnOk a (λ y. OnOk branches (λ z. OnOk rest (λ w. x ≡ expr.Case y z w)))) }
{
    Ok(Expr::Case(a?, branches?, rest?))
}

fn path(alloc: Global, a: Result<Box<Expr>, NoMemory>, labels: &[Word]) -> Result<Expr, NoMemory>
    ensures { IfOk result (λ x. OnOk a (λ y. x ≡ expr.Path y labels.now)) }
{
    let a = a?;
    Ok(Expr::Path(a, word_copies(alloc, labels)?))
}

fn negation(a: Result<Box<Expr>, NoMemory>) -> Result<Expr, NoMemory>
    ensures { IfOk result (λ x. OnOk a (λ y. x ≡ expr.Not y)) }
{
    Ok(Expr::Not(a?))
}

fn minus(a: Result<Box<Expr>, NoMemory>) -> Result<Expr, NoMemory>
    ensures { IfOk result (λ x. OnOk a (λ y. x ≡ expr.Neg y)) }
{
    Ok(Expr::Neg(a?))
}

fn chain(a: Result<Box<Expr>, NoMemory>, steps: Result<Steps, NoMemory>) -> Result<Expr, NoMemory>
    ensures { IfOk result (λ x. OnOk a (λ y. OnOk steps (λ z. x ≡ expr.Chain y z))) }
{
    Ok(Expr::Chain(a?, steps?))
}

fn call(word: &Word, args: Result<Exprs, NoMemory>) -> Result<Expr, NoMemory>
    ensures { IfOk result (λ x. OnOk args (λ y. x ≡ expr.Call word.now y)) }
{
    let args = args?;
    Ok(Expr::Call(word_copy(word)?, args))
}

// A call of a function parameter with one argument is the argument; another has one more, so that it is refused as well.
fn parameter_call(
    alloc: Global,
    word: &Word,
    args: Result<Exprs, NoMemory>,
) -> Result<Expr, NoMemory>
    ensures { IfOk result (λ x. OnOk args (λ y. view x ≡ called_parameter word.now (exps_view y))) }
{
    let mut args = args?.into_vec();
    if args.len() == 1 {
        let arg = args.remove(0);
        return Ok(Expr::Not(Box::new(alloc, arg)?));
    }
    args.insert(0, constant())?;
    Ok(Expr::Call(word_copy(word)?, Seq::of(args)))
}

impl<'p> Place<'p> {
    fn is_parameter(&self, hiding: &[&Label], name: &Label) -> bool
        ensures { result ≡ is_parameter (params_at self.now) (names_of hiding.now) name.now }
    {
        !is_among(name, hiding) && is_among(name, self.params)
    }

    // Whether a function may stand bare in the field of this label, in the one argument of this head.
    fn takes_function(&self, head: Option<&Label>, label: &Label) -> bool
        ensures { result ≡ takes_function (fields_at self.now) (params_at self.now) (option_copied head.entry) label.now }
    {
        match head {
            Some(head) => {
                is_among(head, self.params) || is_label(label, labels_of(self.all, head))
            }
            None => false,
        }
    }

    fn is_bare_function(&self, hiding: &[&Label], e: &Expr) -> bool
        ensures { result ≡ is_bare_function (functions_at self.now) (params_at self.now) (view e.now) (names_of hiding.now) }
    {
        match e {
            Expr::Name(word) => {
                !is_among(&word.text, hiding)
                    && (is_among(&word.text, self.params) || self.before.is_function(&word.text))
            }
            _ => false,
        }
    }

    fn is_handed(&self, hiding: &[&Label], head: Option<&Label>, e: &Expr, label: &Word) -> bool
        ensures { result ≡ is_handed self.now (view e.now) (option_copied head.entry) label.now.text (names_of hiding.now) }
    {
        self.is_bare_function(hiding, e) && self.takes_function(head, &label.text)
    }

    fn called(
        &self,
        hiding: &[&Label],
        word: &Word,
        args: Result<Exprs, NoMemory>,
    ) -> Result<Expr, NoMemory>
        ensures { IfOk result (λ x. OnOk args (λ y. view x ≡ cond (is_parameter (params_at self.now) (names_of hiding.now) word.now.text)
            (called_parameter word.now (exps_view y)) (tree.Call word.now (exps_view y)))) }
    {
        if self.is_parameter(hiding, &word.text) {
            parameter_call(self.alloc, word, args)
        } else {
            call(word, args)
        }
    }

    /// The copy of an expression behind these variables; `head` where it is the one argument of a call.
    #[cycle(plain)]
    pub fn expr<'e>(
        &self,
        hiding: &[&'e Label],
        head: Option<&'e Label>,
        e: &'e Expr,
    ) -> Result<Expr, NoMemory>
        ensures { IfOk result (λ x. view x ≡ plain_copy self.now (view e.now) (option_copied head.entry) (names_of hiding.now)) }
    {
        match e {
            Expr::Const(v) => Ok(Expr::Const(dup(self.alloc, v)?)),
            Expr::Name(word) => named(word),
            Expr::Call(word, args) => {
                let args = self.handed(hiding, &word.text, args.slice());
                self.called(hiding, word, args)
            }
            Expr::Rec(fields) => record(self.fields(hiding, head, fields.slice())),
            Expr::More(fields, a) => {
                let fields = self.fields(hiding, None, fields.slice());
                extended(fields, self.part(hiding, a))
            }
            Expr::Inj(label, a) => injection(label, self.part(hiding, a)),
            Expr::Coll(kind, items) => collection(*kind, self.items(hiding, items.slice())),
            Expr::Comp(kind, head, quals) => {
                let quals = self.quals(hiding, quals.slice());
                self.comp(*kind, quals, head.get())
            }
            Expr::If(a, b, c) => {
                let a = self.part(hiding, a);
                let b = self.part(hiding, b);
                let c = self.part(hiding, c);
                choice(a, b, c)
            }
            Expr::Let(pattern, a, b) => {
                let a = self.part(hiding, a);
                binding(
                    self.alloc,
                    pattern,
                    a,
                    self.within(hiding, b.get(), pattern),
                )
            }
            Expr::Case(a, branches, rest) => {
                let a = self.part(hiding, a);
                let branches = self.branches(hiding, branches.slice());
                case(a, branches, self.rest(hiding, rest))
            }
            Expr::Path(a, labels) => path(self.alloc, self.part(hiding, a), labels.slice()),
            Expr::Not(a) => negation(self.part(hiding, a)),
            Expr::Neg(a) => minus(self.part(hiding, a)),
            Expr::Chain(a, steps) => {
                let a = self.part(hiding, a);
                chain(a, self.steps(hiding, steps.slice()))
            }
        }
    }

    #[cycle(plain)]
    fn part<'e>(&self, hiding: &[&'e Label], e: &'e Box<Expr>) -> Result<Box<Expr>, NoMemory>
        ensures { IfOk result (λ x. view x ≡ plain_copy self.now (view e.now) None (names_of hiding.now)) }
    {
        boxed(self.alloc, self.expr(hiding, None, e.get()))
    }

    #[cycle(plain)]
    fn handed<'e>(
        &self,
        hiding: &[&'e Label],
        head: &'e Label,
        args: &'e [Expr],
    ) -> Result<Exprs, NoMemory>
        ensures { IfOk result (λ x. exps_view x ≡ plain_handed self.now (exps_view args.now) head.now (names_of hiding.now)) }
    {
        match args {
            [] => self.items(hiding, args),
            [e] => one(self.alloc, self.expr(hiding, Some(head), e)),
            [_, _, ..] => self.items(hiding, args),
        }
    }

    #[cycle(plain)]
    fn items<'e>(&self, hiding: &[&'e Label], items: &'e [Expr]) -> Result<Exprs, NoMemory>
        ensures { IfOk result (λ x. exps_view x ≡ plain_all self.now (exps_view items.now) (names_of hiding.now)) }
    {
        let mut made = Vec::with_capacity(self.alloc, items.len())?;
        'items: for item in items {
            made.push(self.expr(hiding, None, item)?)?;
        }
        Ok(Seq::of(made))
    }

    #[cycle(plain)]
    fn fields<'e>(
        &self,
        hiding: &[&'e Label],
        head: Option<&'e Label>,
        fields: &'e [(Word, Expr)],
    ) -> Result<ExprFields, NoMemory>
        ensures { IfOk result (λ x. fields_view x ≡ plain_fields self.now (fields_view fields.now) (option_copied head.entry) (names_of hiding.now)) }
    {
        let mut made = Vec::with_capacity(self.alloc, fields.len())?;
        'fields: for field in fields {
            let label = word_copy(&field.0)?;
            made.push((label, self.field(hiding, head, &field.1, &field.0)?))?;
        }
        Ok(Seq::of(made))
    }

    #[cycle(plain)]
    fn field<'e>(
        &self,
        hiding: &[&'e Label],
        head: Option<&'e Label>,
        e: &'e Expr,
        label: &Word,
    ) -> Result<Expr, NoMemory>
        ensures { IfOk result (λ x. view x ≡ plain_field self.now (view e.now) (option_copied head.entry) label.now.text (names_of hiding.now)) }
    {
        if self.is_handed(hiding, head, e, label) {
            Ok(constant())
        } else {
            self.expr(hiding, None, e)
        }
    }

    // What a loop answers over its qualifiers.
    #[cycle(plain)]
    fn comp<'e>(
        &self,
        kind: Kind,
        quals: Result<(Quals, Vec<&'e Label>), NoMemory>,
        head: &'e Expr,
    ) -> Result<Expr, NoMemory>
        ensures { IfOk result (λ x. OnOk quals.entry (λ q. view x ≡ tree.Comp kind (plain_copy self.now (view head.now) None (names_of q.1.items)) (quals_view q.0))) }
    {
        let (quals, inner) = quals?;
        comprehension(self.alloc, kind, quals, self.expr(&inner, None, head))
    }

    /// Qualifiers, and the variables behind them.
    #[cycle(plain)]
    fn quals<'e>(
        &self,
        hiding: &[&'e Label],
        quals: &'e [Qual],
    ) -> Result<(Quals, Vec<&'e Label>), NoMemory>
        ensures copied { IfOk result (λ x. quals_view x.0 ≡ plain_quals self.now (quals_view quals.now) (names_of hiding.now)) }
        ensures behind { IfOk result (λ x. names_of x.1.items ≡ behind_shaped (quals_view quals.now) (names_of hiding.now)) }
    {
        let mut inner = copied(self.alloc, hiding)?;
        let mut made = Vec::with_capacity(self.alloc, quals.len())?;
        'quals: for qual in quals {
            made.push(self.qual(&mut inner, qual)?)?;
        }
        Ok((Seq::of(made), inner))
    }

    #[cycle(plain)]
    fn qual<'e>(&self, hiding: &mut Vec<&'e Label>, qual: &'e Qual) -> Result<Qual, NoMemory>
        ensures copied { IfOk result (λ x. (rest : tree.Quals) → plain_quals self.now (qual_view qual.now rest) (names_of hiding.old.items)
            ≡ qual_view x (plain_quals self.now rest (names_of hiding.new.items))) }
        ensures behind { IfOk result (λ _. (rest : tree.Quals) → behind_shaped (qual_view qual.now rest) (names_of hiding.old.items)
            ≡ behind_shaped rest (names_of hiding.new.items)) }
    {
        match qual {
            Qual::Gen(pattern, e) => {
                let e = self.expr(&*hiding, None, e)?;
                enter(pattern, hiding)?;
                Ok(Qual::Gen(pattern_copy(self.alloc, pattern)?, e))
            }
            Qual::Cond(e) => Ok(Qual::Cond(self.expr(&*hiding, None, e)?)),
        }
    }

    /// An expression behind a pattern.
    #[cycle(plain)]
    fn within<'e>(
        &self,
        hiding: &[&'e Label],
        e: &'e Expr,
        pattern: &'e Pattern,
    ) -> Result<Expr, NoMemory>
        ensures { IfOk result (λ x. view x ≡ plain_copy self.now (view e.now) None (names_after (pattern_view pattern.now) (names_of hiding.now))) }
    {
        let mut inner = copied(self.alloc, hiding)?;
        enter(pattern, &mut inner)?;
        self.expr(&inner, None, e)
    }

    /// Branches before others.
    #[cycle(plain)]
    fn branches<'e>(
        &self,
        hiding: &[&'e Label],
        branches: &'e [Branch],
    ) -> Result<Branches, NoMemory>
        ensures { IfOk result (λ x. (rest : tree.Branches) → onto branch_view x (plain_branches self.now rest (names_of hiding.now))
            ≡ plain_branches self.now (onto branch_view branches.now rest) (names_of hiding.now)) }
    {
        let mut made = Vec::with_capacity(self.alloc, branches.len())?;
        'branches: for branch in branches {
            made.push(self.branch(hiding, branch)?)?;
        }
        Ok(Seq::of(made))
    }

    #[cycle(plain)]
    fn branch<'e>(&self, hiding: &[&'e Label], branch: &'e Branch) -> Result<Branch, NoMemory>
        ensures { IfOk result (λ x. (rest : tree.Branches) → branch_view x (plain_branches self.now rest (names_of hiding.now))
            ≡ plain_branches self.now (branch_view branch.now rest) (names_of hiding.now)) }
    {
        let body = self.within(hiding, &branch.body, &branch.pat)?;
        let label = word_copy(&branch.label)?;
        let pat = pattern_copy(self.alloc, &branch.pat)?;
        Ok(Branch { label, pat, body })
    }

    #[cycle(plain)]
    fn rest<'e>(
        &self,
        hiding: &[&'e Label],
        rest: &'e Option<Box<Expr>>,
    ) -> Result<Option<Box<Expr>>, NoMemory>
        ensures { IfOk result (λ x. rest_of (option_map view x) ≡ plain_branches self.now (rest_of (option_map view rest.now)) (names_of hiding.now)) }
    {
        match rest {
            Some(e) => Ok(Some(boxed(self.alloc, self.expr(hiding, None, e.get()))?)),
            None => Ok(None),
        }
    }

    #[cycle(plain)]
    fn steps<'e>(&self, hiding: &[&'e Label], steps: &'e [(Op, Expr)]) -> Result<Steps, NoMemory>
        ensures { IfOk result (λ x. steps_view x ≡ plain_steps self.now (steps_view steps.now) (names_of hiding.now)) }
    {
        let mut made = Vec::with_capacity(self.alloc, steps.len())?;
        'steps: for step in steps {
            made.push((step.0, self.expr(hiding, None, &step.1)?))?;
        }
        Ok(Seq::of(made))
    }
}
