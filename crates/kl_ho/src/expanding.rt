//! Expansions of expressions.
ghost use Rattle.std.specs.Prelude.{◌≡◌, ◌≤◌, ◌+◌, ◌++◌, [], ◌∷◌, false, Some, is_some, IfOk, IfErr};
ghost use Rattle.std.specs.Option.{option_map, option_copied};
ghost use Rattle.kl_base.specs.Fields.{field};
ghost use Rattle.kl_syntax.specs.declared.tree.Expr.TheVariants as expr;
ghost use Rattle.kl_syntax.specs.declared.tree.Pattern.TheVariants as code;
ghost use Rattle.kl_syntax.specs.declared.tree.Qual.TheVariants as quals;
ghost use Rattle.kl_syntax.specs.declared.tree.Tail.TheVariants as tail;
ghost use Rattle.kl_syntax.specs.declared.tree.Word.{Word as Worded};
ghost use Rattle.kl_syntax.specs.Syntax.{Call as called, Comp};
ghost use Rattle.kl_syntax.specs.View.{view, qual_view, pattern_view, patterns_view, exps_view, fields_view, quals_view, steps_view, branches_view, rest_of};
ghost use Rattle.kl_ho.specs.declared.stop.Stop.TheVariants.{TooBig as Big};
ghost use Rattle.kl_ho.specs.Highers.{head, given_by, bare, bare_at};
ghost use Rattle.kl_ho.specs.HoPrograms.{is_among, rest_in};
ghost use Rattle.kl_ho.specs.KeptPrograms.{begins};
ghost use Rattle.kl_ho.specs.Growing.{scope_of, highers_of, told, Passes, Makes, Draws};
ghost use Rattle.kl_ho.specs.Growing.{GivesExp, GivesAll, GivesFields, GivesQuals, GivesBranches, GivesSteps, GivesWithin, GivesQual};
ghost use Rattle.kl_ho.specs.Growing.{higher_of, within_view, arms_view, other_view};
ghost use Rattle.kl_ho.specs.Shapes.{names_after, names_after_all, behind_shaped, rest_after};
ghost use Rattle.kl_ho.specs.Expansion.{Becomes, PatBecomes, PatsBecome, TailBecomes};

use crate::stop::Stop;
use crate::table::{Parts, Table, defined, given};
use kl_base::{Box, Label, NoMemory, Seq};
use kl_syntax::{
    Branch, Branches, Expr, ExprFields, Exprs, Op, PatFields, Pattern, Qual, Quals, Steps, Tail,
    Word,
};
use kl_value::{Kind, dup};
use std::alloc::Global;

// ---- names

fn new_name(alloc: Global, base: &Label, name: &Label) -> Result<Label, NoMemory>
    ensures { IfOk result (λ l. l ≡ base.now ++ name.now) }
{
    let mut bytes = Vec::from_slice(alloc, base.slice())?;
    bytes.extend_from_slice(name.slice())?;
    match Label::new(alloc, &bytes)? {
        Some(label) => Ok(label),
        None => Err(NoMemory),
    }
}

fn word_of(text: Label, word: &Word) -> Word
    ensures { result ≡ record { text = text; token = word.now.token; means = word.now.means } }
{
    Word {
        text,
        token: word.token,
        means: word.means,
    }
}

pub(crate) fn copied(word: &Word) -> Result<Word, NoMemory>
    ensures { IfOk result (λ w. w ≡ word.now) }
{
    Ok(word_of(word.text.dup()?, word))
}

pub(crate) fn is_among(name: &Label, names: &[Label]) -> bool
    ensures { result ≡ is_among name.now names.now }
{
    for other in names {
        if *name == *other {
            return true;
        }
    }
    false
}

// A name that is no variable, and does not begin with the base.
fn kept(base: &Label, name: &Label) -> Result<Label, NoMemory>
    ensures same { IfOk result (λ l. l ≡ name.now) }
    ensures old { IfOk result (λ l. begins base.now l ≡ false) }
{
    if name.slice().starts_with(base.slice()) {
        return Err(NoMemory);
    }
    Ok(name.dup()?)
}

// What a name becomes where it is used: a variable its new name, and another stays.
fn becomes(alloc: Global, base: &Label, vars: &[Label], name: &Label) -> Result<Label, NoMemory>
    ensures { IfOk result (λ l. Becomes (begins base.now) (scope_of base.now vars.now) name.now l) }
{
    if is_among(name, vars) {
        new_name(alloc, base, name)
    } else {
        kept(base, name)
    }
}

fn renamed(alloc: Global, t: &Table<'_>, vars: &[Label], word: &Word) -> Result<Word, NoMemory>
    ensures { IfOk result (λ w. Becomes (begins t.now.base.now) (scope_of t.now.base.now vars.now) word.now.text w.text) }
{
    Ok(word_of(becomes(alloc, t.base, vars, &word.text)?, word))
}

fn called_by(funs: &[(Label, Label)], name: &Label) -> Result<Label, NoMemory>
    ensures { IfOk result (λ l. l ≡ head funs.now name.now) }
{
    match given(funs, name) {
        Some(function) => function.dup(),
        None => name.dup(),
    }
}

fn copied_all(alloc: Global, labels: &[Label]) -> Result<Vec<Label>, NoMemory>
    ensures { IfOk result (λ copies. copies.items ≡ labels.now) }
{
    let mut copies = Vec::new(alloc);
    for label in labels {
        copies.push(label.dup()?)?;
    }
    Ok(copies)
}

fn copied_words(alloc: Global, words: &[Word]) -> Result<Vec<Word>, NoMemory>
    ensures { IfOk result (λ copies. copies.items ≡ words.now) }
{
    let mut copies = Vec::with_capacity(alloc, words.len())?;
    for word in words {
        copies.push(copied(word)?)?;
    }
    Ok(copies)
}

// ---- patterns

// A pattern with new names; its variables are put in front of those that are there. Bare names are looked up outside.
#[cycle(pattern)]
fn new_pattern(
    alloc: Global,
    t: &Table<'_>,
    outside: &[Label],
    vars: &mut Vec<Label>,
    pattern: &Pattern,
) -> Result<Pattern, NoMemory>
    ensures becomes { IfOk result (λ q. PatBecomes (begins t.now.base.now) (scope_of t.now.base.now outside.now) (scope_of t.now.base.now vars.old.items)
        (pattern_view pattern.now) (pattern_view q) (scope_of t.now.base.now vars.new.items)) }
    ensures vars { IfOk result (λ q. vars.new.items ≡ names_after (pattern_view pattern.now) vars.old.items) }
{
    match pattern {
        Pattern::Bind(word) => {
            let text = new_name(alloc, t.base, &word.text)?;
            vars.insert(0, word.text.dup()?)?;
            Ok(Pattern::Bind(word_of(text, word)))
        }
        Pattern::Any => Ok(Pattern::Any),
        Pattern::Same(word) => Ok(Pattern::Same(renamed(alloc, t, outside, word)?)),
        Pattern::Is(v, token) => Ok(Pattern::Is(dup(alloc, v)?, *token)),
        Pattern::Rec(fields, tail) => {
            let fields = new_fields(alloc, t, outside, vars, fields.slice())?;
            let tail = new_tail(alloc, t, vars, tail)?;
            Ok(Pattern::Rec(fields, tail))
        }
        Pattern::Inj(label, inner) => {
            let inner = new_pattern(alloc, t, outside, vars, inner.get())?;
            let label = copied(label)?;
            Ok(Pattern::Inj(label, Box::new(alloc, inner)?))
        }
    }
}

#[cycle(pattern)]
fn new_fields(
    alloc: Global,
    t: &Table<'_>,
    outside: &[Label],
    vars: &mut Vec<Label>,
    fields: &[(Word, Pattern)],
) -> Result<PatFields, NoMemory>
    ensures made { IfOk result (λ qs. PatsBecome (begins t.now.base.now) (scope_of t.now.base.now outside.now) (scope_of t.now.base.now vars.old.items)
        (patterns_view fields.now) (patterns_view qs) (scope_of t.now.base.now vars.new.items)) }
    ensures vars { IfOk result (λ qs. vars.new.items ≡ names_after_all (patterns_view fields.now) vars.old.items) }
{
    let mut made = Vec::with_capacity(alloc, fields.len())?;
    for field in fields {
        let label = copied(&field.0)?;
        made.push((label, new_pattern(alloc, t, outside, vars, &field.1)?))?;
    }
    Ok(Seq::of(made))
}

// The same without the fields at these labels, outside of everything.
fn new_rest(
    alloc: Global,
    t: &Table<'_>,
    vars: &mut Vec<Label>,
    labels: &[Label],
    fields: &[(Word, Pattern)],
) -> Result<PatFields, NoMemory>
    ensures made { IfOk result (λ qs. PatsBecome (begins t.now.base.now) [] (scope_of t.now.base.now vars.old.items)
        (rest_in labels.now (patterns_view fields.now)) (patterns_view qs) (scope_of t.now.base.now vars.new.items)) }
    ensures vars { IfOk result (λ qs. vars.new.items ≡ names_after_all (rest_in labels.now (patterns_view fields.now)) vars.old.items) }
{
    let mut made = Vec::new(alloc);
    for field in fields {
        if !is_among(&field.0.text, labels) {
            let label = copied(&field.0)?;
            made.push((label, new_pattern(alloc, t, &[], vars, &field.1)?))?;
        }
    }
    Ok(Seq::of(made))
}

fn new_tail(
    alloc: Global,
    t: &Table<'_>,
    vars: &mut Vec<Label>,
    tail: &Tail,
) -> Result<Tail, NoMemory>
    ensures becomes { IfOk result (λ end. TailBecomes (begins t.now.base.now) (scope_of t.now.base.now vars.old.items) tail.now end (scope_of t.now.base.now vars.new.items)) }
    ensures vars { IfOk result (λ end. vars.new.items ≡ rest_after tail.now vars.old.items) }
{
    match tail {
        Tail::Exact => Ok(Tail::Exact),
        Tail::Open => Ok(Tail::Open),
        Tail::Rest(word) => {
            let text = new_name(alloc, t.base, &word.text)?;
            vars.insert(0, word.text.dup()?)?;
            Ok(Tail::Rest(word_of(text, word)))
        }
    }
}

// A pattern with new names, with the variables behind it.
fn pattern_behind(
    alloc: Global,
    t: &Table<'_>,
    vars: &[Label],
    pattern: &Pattern,
) -> Result<(Pattern, Vec<Label>), NoMemory>
    ensures becomes { IfOk result (λ r. PatBecomes (begins t.now.base.now) (scope_of t.now.base.now vars.now) (scope_of t.now.base.now vars.now)
        (pattern_view pattern.now) (pattern_view r.0) (scope_of t.now.base.now r.1.items)) }
    ensures vars { IfOk result (λ r. r.1.items ≡ names_after (pattern_view pattern.now) vars.now) }
{
    let mut inner = copied_all(alloc, vars)?;
    let pattern = new_pattern(alloc, t, vars, &mut inner, pattern)?;
    Ok((pattern, inner))
}

// ---- what is handed over

fn bare(e: &Expr) -> Option<&Label>
    ensures { option_copied result ≡ bare (view e.now) }
{
    match e {
        Expr::Name(word) => Some(&word.text),
        _ => None,
    }
}

// The bare name at a label.
fn bare_at<'e>(label: &Label, fields: &'e [(Word, Expr)]) -> Option<&'e Label>
    ensures { option_copied result ≡ bare_at label.now (fields_view fields.now) }
{
    for field in fields {
        if *label == field.0.text {
            return bare(&field.1);
        }
    }
    None
}

// What a literal gives for the function fields.
fn given_by(
    alloc: Global,
    handed: &[(Label, Label)],
    fields: &[(Word, Expr)],
    funs: &[(Label, Label)],
) -> Result<Vec<(Label, Label)>, NoMemory>
    ensures { IfOk result (λ given. given_by handed.now (fields_view fields.now) funs.now ≡ Some given.items) }
{
    let mut given = Vec::new(alloc);
    for field in handed {
        match bare_at(&field.0, fields) {
            Some(name) => {
                let variable = field.1.dup()?;
                given.push((variable, called_by(funs, name)?))?;
            }
            None => return Err(NoMemory),
        }
    }
    Ok(given)
}

// Whether the field of this label is left out.
fn is_skipped(skips: &[(Label, Label)], label: &Label) -> bool
    ensures { result ≡ is_some (field label.now skips.now) }
{
    given(skips, label).is_some()
}

fn literal(args: &[Expr]) -> Result<&ExprFields, NoMemory>
    ensures { IfOk result (λ fields. args.now ≡ expr.Rec fields.now ∷ []) }
{
    match args {
        [Expr::Rec(fields)] => Ok(fields),
        _ => Err(NoMemory),
    }
}

// ---- what is made of parts with what stopped them

fn spend(budget: &mut u32) -> Result<(), Stop>
    ensures spent { IfOk result (λ _. budget.old ≡ 1 + budget.new) }
    ensures empty { IfErr result (λ e. (e ≡ Big) × (budget.old ≡ 0)) }
    ensures less { budget.new ≤ budget.old }
{
    if *budget == 0 {
        return Err(Stop::TooBig);
    }
    *budget -= 1;
    Ok(())
}

fn boxed(alloc: Global, e: Result<Expr, Stop>) -> Result<Box<Expr>, Stop>
    ensures { Passes e result (λ e. Makes result (λ x. x ≡ e)) }
{
    Ok(Box::new(alloc, e?)?)
}

fn test(
    a: Result<Box<Expr>, Stop>,
    b: Result<Box<Expr>, Stop>,
    c: Result<Box<Expr>, Stop>,
) -> Result<Expr, Stop>
    ensures { Passes a result (λ a. Passes b result (λ b. Passes c result (λ c. Makes result (λ x. x ≡ expr.If a b c)))) }
{
    Ok(Expr::If(a?, b?, c?))
}

fn record(fields: Result<ExprFields, Stop>) -> Result<Expr, Stop>
    ensures { Passes fields result (λ fs. Makes result (λ x. x ≡ expr.Rec fs)) }
{
    Ok(Expr::Rec(fields?))
}

fn extended(fields: Result<ExprFields, Stop>, a: Result<Box<Expr>, Stop>) -> Result<Expr, Stop>
    ensures { Passes fields result (λ fs. Passes a result (λ a. Makes result (λ x. x ≡ expr.More fs a))) }
{
    Ok(Expr::More(fields?, a?))
}

fn injection(label: &Word, a: Result<Box<Expr>, Stop>) -> Result<Expr, Stop>
    ensures { Passes a result (λ a. Makes result (λ x. x ≡ expr.Inj label.now a)) }
{
    let a = a?;
    Ok(Expr::Inj(copied(label)?, a))
}

fn collection(kind: Kind, items: Result<Exprs, Stop>) -> Result<Expr, Stop>
    ensures { Passes items result (λ es. Makes result (λ x. x ≡ expr.Coll kind es)) }
{
    Ok(Expr::Coll(kind, items?))
}

fn path(alloc: Global, a: Result<Box<Expr>, Stop>, labels: &[Word]) -> Result<Expr, Stop>
    ensures { Passes a result (λ a. Makes result (λ x. x ≡ expr.Path a labels.now)) }
{
    let a = a?;
    Ok(Expr::Path(a, Seq::of(copied_words(alloc, labels)?)))
}

fn negation(a: Result<Box<Expr>, Stop>) -> Result<Expr, Stop>
    ensures { Passes a result (λ a. Makes result (λ x. x ≡ expr.Not a)) }
{
    Ok(Expr::Not(a?))
}

fn minus(a: Result<Box<Expr>, Stop>) -> Result<Expr, Stop>
    ensures { Passes a result (λ a. Makes result (λ x. x ≡ expr.Neg a)) }
{
    Ok(Expr::Neg(a?))
}

fn chain(a: Result<Box<Expr>, Stop>, steps: Result<Steps, Stop>) -> Result<Expr, Stop>
    ensures { Passes a result (λ a. Passes steps result (λ ss. Makes result (λ x. x ≡ expr.Chain a ss))) }
{
    Ok(Expr::Chain(a?, steps?))
}

fn call(name: Label, word: &Word, args: Result<Exprs, Stop>) -> Result<Expr, Stop>
    ensures { Passes args result (λ es. Makes result (λ x. x ≡ expr.Call (record { text = name; token = word.now.token; means = word.now.means }) es)) }
{
    Ok(Expr::Call(word_of(name, word), args?))
}

fn case(
    a: Result<Box<Expr>, Stop>,
    branches: Result<(Branches, Option<Box<Expr>>), Stop>,
) -> Result<Expr, Stop>
    ensures { Passes a result (λ a. Passes branches result (λ bs. Makes result (λ x. x ≡ expr.Case a bs.0 bs.1))) }
{
    let a = a?;
    let (branches, other) = branches?;
    Ok(Expr::Case(a, branches, other))
}

fn comprehension(
    kind: Kind,
    quals: Result<Quals, Stop>,
    head: Result<Box<Expr>, Stop>,
) -> Result<Expr, Stop>
    ensures { Passes quals result (λ qs. Passes head result (λ e. Makes result (λ x. x ≡ expr.Comp kind e qs))) }
{
    let quals = quals?;
    Ok(Expr::Comp(kind, head?, quals))
}

fn unfolded(
    rest: PatFields,
    alloc: Global,
    fields: Result<ExprFields, Stop>,
    body: Result<Box<Expr>, Stop>,
) -> Result<Expr, Stop>
    ensures { Passes fields result (λ fs. Passes body result (λ b. Makes result (λ x. x ≡ expr.Let (code.Rec rest tail.Exact) (expr.Rec fs) b))) }
{
    let fields = fields?;
    let body = body?;
    let argument = Box::new(alloc, Expr::Rec(fields))?;
    Ok(Expr::Let(Pattern::Rec(rest, Tail::Exact), argument, body))
}

fn binding(
    a: Result<Box<Expr>, Stop>,
    within: Result<(Pattern, Box<Expr>), Stop>,
) -> Result<Expr, Stop>
    ensures { Passes a result (λ a. Passes within result (λ w. Makes result (λ x. x ≡ expr.Let w.0 a w.1))) }
{
    let a = a?;
    let (pattern, body) = within?;
    Ok(Expr::Let(pattern, a, body))
}

fn within(pattern: Pattern, body: Result<Box<Expr>, Stop>) -> Result<(Pattern, Box<Expr>), Stop>
    ensures { Passes body result (λ b. Makes result (λ w. w ≡ (pattern, b))) }
{
    Ok((pattern, body?))
}

// A generator, whose pattern is given new names: the variables are those behind it then.
fn generator(
    alloc: Global,
    t: &Table<'_>,
    vars: &mut Vec<Label>,
    pattern: &Pattern,
    source: Result<Expr, Stop>,
) -> Result<Qual, Stop>
    ensures { Passes source result (λ x. Makes result (Draws t.now.base.now vars.old.items vars.new.items (pattern_view pattern.now) x)) }
{
    let source = source?;
    let (pattern, inner) = pattern_behind(alloc, t, &*vars, pattern)?;
    *vars = inner;
    Ok(Qual::Gen(pattern, source))
}

fn condition(test: Result<Expr, Stop>) -> Result<Qual, Stop>
    ensures { Passes test result (λ x. Makes result (λ q. q ≡ quals.Cond x)) }
{
    Ok(Qual::Cond(test?))
}

// ---- expressions

/// The expansion of an expression, with as many expressions as are let in.
#[cycle(expand)]
pub(crate) fn expand(
    alloc: Global,
    t: &Table<'_>,
    funs: &[(Label, Label)],
    vars: &[Label],
    budget: &mut u32,
    e: &Expr,
) -> Result<Expr, Stop>
    ensures less { budget.new ≤ budget.old }
    ensures gives { GivesExp t.now.base.now (highers_of t.now) funs.now vars.now (view e.now) budget.old (told view result budget.new) }
{
    spend(budget)?;
    match e {
        Expr::Const(v) => Ok(Expr::Const(dup(alloc, v)?)),
        Expr::Name(word) => Ok(Expr::Name(renamed(alloc, t, vars, word)?)),
        Expr::Call(word, args) => expand_call(alloc, t, funs, vars, budget, word, args),
        Expr::Rec(fields) => record(expand_fields(
            alloc,
            t,
            funs,
            vars,
            budget,
            &[],
            fields.slice(),
        )),
        Expr::More(fields, a) => {
            let fields = expand_fields(alloc, t, funs, vars, budget, &[], fields.slice());
            extended(fields, expand_box(alloc, t, funs, vars, budget, a))
        }
        Expr::Inj(label, a) => injection(label, expand_box(alloc, t, funs, vars, budget, a)),
        Expr::Coll(kind, items) => collection(
            *kind,
            expand_all(alloc, t, funs, vars, budget, items.slice()),
        ),
        Expr::Comp(kind, head, quals) => expand_comp(
            alloc,
            t,
            funs,
            vars,
            budget,
            *kind,
            head,
            quals.slice(),
        ),
        Expr::If(a, b, c) => {
            let a = expand_box(alloc, t, funs, vars, budget, a);
            let b = expand_box(alloc, t, funs, vars, budget, b);
            let c = expand_box(alloc, t, funs, vars, budget, c);
            test(a, b, c)
        }
        Expr::Let(pattern, a, b) => {
            let a = expand_box(alloc, t, funs, vars, budget, a);
            binding(
                a,
                expand_within(alloc, t, funs, vars, budget, pattern, b.get()),
            )
        }
        Expr::Case(a, branches, other) => {
            let a = expand_box(alloc, t, funs, vars, budget, a);
            case(
                a,
                expand_branches(alloc, t, funs, vars, budget, branches.slice(), other),
            )
        }
        Expr::Path(a, labels) => path(
            alloc,
            expand_box(alloc, t, funs, vars, budget, a),
            labels.slice(),
        ),
        Expr::Not(a) => negation(expand_box(alloc, t, funs, vars, budget, a)),
        Expr::Neg(a) => minus(expand_box(alloc, t, funs, vars, budget, a)),
        Expr::Chain(a, steps) => {
            let a = expand_box(alloc, t, funs, vars, budget, a);
            chain(a, expand_steps(alloc, t, funs, vars, budget, steps.slice()))
        }
    }
}

#[cycle(expand)]
fn expand_box(
    alloc: Global,
    t: &Table<'_>,
    funs: &[(Label, Label)],
    vars: &[Label],
    budget: &mut u32,
    e: &Box<Expr>,
) -> Result<Box<Expr>, Stop>
    ensures less { budget.new ≤ budget.old }
    ensures gives { GivesExp t.now.base.now (highers_of t.now) funs.now vars.now (view e.now) budget.old (told view result budget.new) }
{
    boxed(alloc, expand(alloc, t, funs, vars, budget, e.get()))
}

// A pattern with new names, and what stands behind it.
#[cycle(expand)]
pub(crate) fn expand_within(
    alloc: Global,
    t: &Table<'_>,
    funs: &[(Label, Label)],
    vars: &[Label],
    budget: &mut u32,
    pattern: &Pattern,
    body: &Expr,
) -> Result<(Pattern, Box<Expr>), Stop>
    ensures less { budget.new ≤ budget.old }
    ensures gives { GivesWithin t.now.base.now (highers_of t.now) funs.now vars.now (pattern_view pattern.now) (view body.now) budget.old (told within_view result budget.new) }
{
    let (pattern, inner) = pattern_behind(alloc, t, vars, pattern)?;
    let body = boxed(alloc, expand(alloc, t, funs, &inner, budget, body));
    within(pattern, body)
}

#[cycle(expand)]
fn expand_comp(
    alloc: Global,
    t: &Table<'_>,
    funs: &[(Label, Label)],
    vars: &[Label],
    budget: &mut u32,
    kind: Kind,
    head: &Box<Expr>,
    quals: &[Qual],
) -> Result<Expr, Stop>
    ensures less { budget.new ≤ budget.old }
    ensures gives { GivesExp t.now.base.now (highers_of t.now) funs.now vars.now (Comp kind (view head.now) (quals_view quals.now)) (1 + budget.old) (told view result budget.new) }
{
    let mut inner = copied_all(alloc, vars)?;
    let quals = expand_quals(alloc, t, funs, &mut inner, budget, quals);
    let head = expand_box(alloc, t, funs, &inner, budget, head);
    comprehension(kind, quals, head)
}

// The qualifiers, with the variables behind them.
#[cycle(expand)]
fn expand_quals(
    alloc: Global,
    t: &Table<'_>,
    funs: &[(Label, Label)],
    vars: &mut Vec<Label>,
    budget: &mut u32,
    quals: &[Qual],
) -> Result<Quals, Stop>
    ensures less { budget.new ≤ budget.old }
    ensures gives { GivesQuals t.now.base.now (highers_of t.now) funs.now vars.old.items (quals_view quals.now) budget.old (told quals_view result budget.new) }
    ensures vars { IfOk result (λ _. vars.new.items ≡ behind_shaped (quals_view quals.now) vars.old.items) }
{
    let mut made = Vec::with_capacity(alloc, quals.len())?;
    for qual in quals {
        made.push(expand_qual(alloc, t, funs, vars, budget, qual)?)?;
    }
    Ok(Seq::of(made))
}

#[cycle(expand)]
fn expand_qual(
    alloc: Global,
    t: &Table<'_>,
    funs: &[(Label, Label)],
    vars: &mut Vec<Label>,
    budget: &mut u32,
    qual: &Qual,
) -> Result<Qual, Stop>
    ensures less { budget.new ≤ budget.old }
    ensures gives { GivesQual t.now.base.now (highers_of t.now) funs.now vars.old.items vars.new.items (qual_view qual.now) budget.old budget.new result }
{
    match qual {
        Qual::Gen(pattern, source) => {
            let source = expand(alloc, t, funs, &*vars, budget, source);
            generator(alloc, t, vars, pattern, source)
        }
        Qual::Cond(test) => condition(expand(alloc, t, funs, &*vars, budget, test)),
    }
}

#[cycle(expand)]
fn expand_branches(
    alloc: Global,
    t: &Table<'_>,
    funs: &[(Label, Label)],
    vars: &[Label],
    budget: &mut u32,
    branches: &[Branch],
    other: &Option<Box<Expr>>,
) -> Result<(Branches, Option<Box<Expr>>), Stop>
    ensures less { budget.new ≤ budget.old }
    ensures gives { GivesBranches t.now.base.now (highers_of t.now) funs.now vars.now (branches_view branches.now other.now) budget.old (told arms_view result budget.new) }
{
    let mut made = Vec::with_capacity(alloc, branches.len())?;
    for branch in branches {
        let label = copied(&branch.label)?;
        let (pat, body) = expand_within(alloc, t, funs, vars, budget, &branch.pat, &branch.body)?;
        made.push(Branch {
            label,
            pat,
            body: body.into_inner(),
        })?;
    }
    let other = expand_other(alloc, t, funs, vars, budget, other)?;
    Ok((Seq::of(made), other))
}

#[cycle(expand)]
fn expand_other(
    alloc: Global,
    t: &Table<'_>,
    funs: &[(Label, Label)],
    vars: &[Label],
    budget: &mut u32,
    other: &Option<Box<Expr>>,
) -> Result<Option<Box<Expr>>, Stop>
    ensures less { budget.new ≤ budget.old }
    ensures gives { GivesBranches t.now.base.now (highers_of t.now) funs.now vars.now (rest_of (option_map view other.now)) budget.old (told other_view result budget.new) }
{
    match other {
        Some(other) => Ok(Some(expand_box(alloc, t, funs, vars, budget, other)?)),
        None => Ok(None),
    }
}

#[cycle(expand)]
fn expand_steps(
    alloc: Global,
    t: &Table<'_>,
    funs: &[(Label, Label)],
    vars: &[Label],
    budget: &mut u32,
    steps: &[(Op, Expr)],
) -> Result<Steps, Stop>
    ensures less { budget.new ≤ budget.old }
    ensures gives { GivesSteps t.now.base.now (highers_of t.now) funs.now vars.now (steps_view steps.now) budget.old (told steps_view result budget.new) }
{
    let mut made = Vec::with_capacity(alloc, steps.len())?;
    for step in steps {
        made.push((step.0, expand(alloc, t, funs, vars, budget, &step.1)?))?;
    }
    Ok(Seq::of(made))
}

#[cycle(expand)]
fn expand_all(
    alloc: Global,
    t: &Table<'_>,
    funs: &[(Label, Label)],
    vars: &[Label],
    budget: &mut u32,
    es: &[Expr],
) -> Result<Exprs, Stop>
    ensures less { budget.new ≤ budget.old }
    ensures gives { GivesAll t.now.base.now (highers_of t.now) funs.now vars.now (exps_view es.now) budget.old (told exps_view result budget.new) }
{
    let mut made = Vec::with_capacity(alloc, es.len())?;
    for e in es {
        made.push(expand(alloc, t, funs, vars, budget, e)?)?;
    }
    Ok(Seq::of(made))
}

// The fields but those at these labels.
#[cycle(expand)]
fn expand_fields(
    alloc: Global,
    t: &Table<'_>,
    funs: &[(Label, Label)],
    vars: &[Label],
    budget: &mut u32,
    skips: &[(Label, Label)],
    fields: &[(Word, Expr)],
) -> Result<ExprFields, Stop>
    ensures less { budget.new ≤ budget.old }
    ensures gives { GivesFields t.now.base.now (highers_of t.now) funs.now vars.now (fields_view fields.now) skips.now budget.old (told fields_view result budget.new) }
{
    let mut made = Vec::new(alloc);
    for field in fields {
        if !is_skipped(skips, &field.0.text) {
            let label = copied(&field.0)?;
            made.push((label, expand(alloc, t, funs, vars, budget, &field.1)?))?;
        }
    }
    Ok(Seq::of(made))
}

#[cycle(expand)]
fn expand_call(
    alloc: Global,
    t: &Table<'_>,
    funs: &[(Label, Label)],
    vars: &[Label],
    budget: &mut u32,
    word: &Word,
    args: &Exprs,
) -> Result<Expr, Stop>
    ensures less { budget.new ≤ budget.old }
    ensures gives { GivesExp t.now.base.now (highers_of t.now) funs.now vars.now (called word.now (exps_view args.now)) (1 + budget.old) (told view result budget.new) }
{
    let name = called_by(funs, &word.text)?;
    match defined(&t.parts, &name) {
        Some(parts) => unfold(alloc, t, funs, vars, budget, parts, args.slice()),
        None => {
            let name = kept(t.base, &name)?;
            call(
                name,
                word,
                expand_all(alloc, t, funs, vars, budget, args.slice()),
            )
        }
    }
}

// The body of a definition, behind its pattern without function fields.
#[cycle(expand)]
fn unfold(
    alloc: Global,
    t: &Table<'_>,
    funs: &[(Label, Label)],
    vars: &[Label],
    budget: &mut u32,
    parts: &Parts<'_>,
    args: &[Expr],
) -> Result<Expr, Stop>
    ensures less { budget.new ≤ budget.old }
    ensures gives { (f : Worded) → highers_of t.now (head funs.now f.text) ≡ Some (higher_of parts.now)
        → GivesExp t.now.base.now (highers_of t.now) funs.now vars.now (called f (exps_view args.now)) (1 + budget.old) (told view result budget.new) }
{
    let fields = literal(args)?;
    let given = given_by(alloc, &parts.handed, fields.slice(), funs)?;
    spend(budget)?;
    let fields = expand_fields(alloc, t, funs, vars, budget, &parts.handed, fields.slice());
    let mut inner = Vec::new(alloc);
    let rest = new_rest(alloc, t, &mut inner, parts.labels, parts.fields)?;
    let body = boxed(alloc, expand(alloc, t, &given, &inner, budget, parts.body));
    unfolded(rest, alloc, fields, body)
}
