//! Terms of the core language, written as values.
//!
//! Positions count from the nearest binder, 0 first; sources and primitives have their numbers. T is a term, and V a value.
//!
//! - `<var=0>`, `<const=V>` and `<source=0>`.
//! - `<rec=[a=T, b=T]>`, and `<proj=<a=T>>`, its field.
//! - `<inj=<a=T>>`, and `<case=[branches=[a=T, b=T], of=T, other=[|T|]]>`, where `other` is empty if there is no `otherwise`.
//! - `<make=<set=[|T, T|]>>`, a collection of these items; so with `bag` and `list`.
//! - `<union=[|T, T|]>`.
//! - `<ext=<set=[|T, T|]>>`, a loop: the body and the source.
//! - `<test=[|T, T, T|]>`, a condition and its two parts.
//! - `<bind=[|T, T|]>`, what is bound and the body.
//! - `<prim=[code=5, of=[|T, T|]]>`, a primitive of these arguments.
ghost use Rattle.std.specs.Prelude.{All, IfOk, IfSome};
ghost use Rattle.kl_core.specs.Trees.{view};
ghost use Rattle.kl_core.specs.Leaves.{Leaves};
ghost use Rattle.kl_core.specs.Positions.{AnySource};
ghost use Rattle.kl_rules.specs.Rewriting.{IsLowPosition};

use anyhow::{Context, Result, bail, ensure};
use kl_base::{Box, Label, Seq};
use kl_core::{Term, TermFields, Terms};
use kl_value::{Fields, Items, Kind, Value, dup};
use std::alloc::Global;

// The forms of a term.
#[derive(Clone, Copy)]
enum Form {
    Var,
    Const,
    Source,
    Rec,
    Proj,
    Inj,
    Case,
    Make,
    Union,
    Ext,
    If,
    Let,
    Prim,
}

fn form_of(label: &[u8]) -> Result<Form> {
    match label {
        b"var" => Ok(Form::Var),
        b"const" => Ok(Form::Const),
        b"source" => Ok(Form::Source),
        b"rec" => Ok(Form::Rec),
        b"proj" => Ok(Form::Proj),
        b"inj" => Ok(Form::Inj),
        b"case" => Ok(Form::Case),
        b"make" => Ok(Form::Make),
        b"union" => Ok(Form::Union),
        b"ext" => Ok(Form::Ext),
        b"test" => Ok(Form::If),
        b"bind" => Ok(Form::Let),
        b"prim" => Ok(Form::Prim),
        _ => bail!("no such form of a term"),
    }
}

/// The term that a value writes. Its positions are below 2147483648.
///
/// # Errors
/// The value writes no term, or one with a greater position; want of memory.
#[cycle(read)]
pub fn read_term(alloc: Global, value: &Value) -> Result<Box<Term>>
    ensures { IfOk result (λ t. Leaves IsLowPosition AnySource (view t)) }
{
    let Value::Inj(label, written) = value else {
        bail!("a term is a variant");
    };
    let written = written.get();
    match form_of(label.slice())? {
        Form::Var => variable(alloc, written),
        Form::Const => constant(alloc, written),
        Form::Source => source(alloc, written),
        Form::Rec => record(alloc, read_fields(alloc, written)?),
        Form::Proj => projection(alloc, read_labelled(alloc, written)?),
        Form::Inj => injection(alloc, read_labelled(alloc, written)?),
        Form::Case => read_case(alloc, written),
        Form::Make => read_make(alloc, written),
        Form::Union => union(alloc, read_pair(alloc, written)?),
        Form::Ext => read_loop(alloc, written),
        Form::If => read_test(alloc, written),
        Form::Let => binding(alloc, read_pair(alloc, written)?),
        Form::Prim => read_primitive(alloc, written),
    }
}

#[cycle(read)]
fn read_list(alloc: Global, value: &Value) -> Result<Terms>
    ensures { IfOk result (λ ts. All (λ t. Leaves IsLowPosition AnySource (view t)) ts) }
{
    let Value::List(items) = value else {
        bail!("terms are a list");
    };
    let mut terms = Vec::new(alloc);
    for item in items.slice() {
        terms.push(read_term(alloc, item)?.into_inner())?;
    }
    Ok(Seq::of(terms))
}

#[cycle(read)]
fn read_fields(alloc: Global, value: &Value) -> Result<TermFields>
    ensures { IfOk result (λ fs. All (λ f. Leaves IsLowPosition AnySource (view f.1)) fs) }
{
    let Value::Rec(fields) = value else {
        bail!("fields and branches are a record");
    };
    let mut terms = Vec::new(alloc);
    for field in fields.slice() {
        let label = field.0.dup()?;
        terms.push((label, read_term(alloc, &field.1)?.into_inner()))?;
    }
    Ok(Seq::of(terms))
}

#[cycle(read)]
fn read_labelled(alloc: Global, value: &Value) -> Result<(Label, Box<Term>)>
    ensures { IfOk result (λ p. Leaves IsLowPosition AnySource (view p.1)) }
{
    let Value::Inj(label, written) = value else {
        bail!("a term under a label is a variant");
    };
    let label = label.dup()?;
    Ok((label, read_term(alloc, written.get())?))
}

#[cycle(read)]
fn read_pair(alloc: Global, value: &Value) -> Result<(Box<Term>, Box<Term>)>
    ensures { IfOk result (λ p. Leaves IsLowPosition AnySource (view p.0) × Leaves IsLowPosition AnySource (view p.1)) }
{
    let Value::List(items) = value else {
        bail!("terms are a list");
    };
    let [first, second] = items.slice() else {
        bail!("two terms are wanted");
    };
    let first = read_term(alloc, first)?;
    Ok((first, read_term(alloc, second)?))
}

#[cycle(read)]
fn read_test(alloc: Global, value: &Value) -> Result<Box<Term>>
    ensures { IfOk result (λ t. Leaves IsLowPosition AnySource (view t)) }
{
    let Value::List(items) = value else {
        bail!("terms are a list");
    };
    let [condition, yes, no] = items.slice() else {
        bail!("three terms are wanted");
    };
    let condition = read_term(alloc, condition)?;
    let yes = read_term(alloc, yes)?;
    let no = read_term(alloc, no)?;
    test(alloc, condition, yes, no)
}

#[cycle(read)]
fn read_make(alloc: Global, value: &Value) -> Result<Box<Term>>
    ensures { IfOk result (λ t. Leaves IsLowPosition AnySource (view t)) }
{
    let Value::Inj(label, items) = value else {
        bail!("items have a kind");
    };
    let kind = kind_of(label.slice())?;
    collection(alloc, kind, read_list(alloc, items.get())?)
}

#[cycle(read)]
fn read_loop(alloc: Global, value: &Value) -> Result<Box<Term>>
    ensures { IfOk result (λ t. Leaves IsLowPosition AnySource (view t)) }
{
    let Value::Inj(label, parts) = value else {
        bail!("a loop has a kind");
    };
    let kind = kind_of(label.slice())?;
    extension(alloc, kind, read_pair(alloc, parts.get())?)
}

#[cycle(read)]
fn read_case(alloc: Global, value: &Value) -> Result<Box<Term>>
    ensures { IfOk result (λ t. Leaves IsLowPosition AnySource (view t)) }
{
    let Value::Rec(fields) = value else {
        bail!("a case is a record");
    };
    let [branches, subject, other] = fields.slice() else {
        bail!("a case has three fields");
    };
    ensure!(is(&branches.0, b"branches"), "a case has branches");
    ensure!(is(&subject.0, b"of"), "a case is of a term");
    ensure!(is(&other.0, b"other"), "a case has a list for otherwise");
    let branches = read_fields(alloc, &branches.1)?;
    let subject = read_term(alloc, &subject.1)?;
    let other = read_other(alloc, &other.1)?;
    case(alloc, subject, branches, other)
}

#[cycle(read)]
fn read_other(alloc: Global, value: &Value) -> Result<Option<Box<Term>>>
    ensures { IfOk result (λ o. IfSome o (λ t. Leaves IsLowPosition AnySource (view t))) }
{
    let Value::List(items) = value else {
        bail!("terms are a list");
    };
    match items.slice() {
        [] => Ok(None),
        [other] => Ok(Some(read_term(alloc, other)?)),
        _ => bail!("one term at most is wanted"),
    }
}

#[cycle(read)]
fn read_primitive(alloc: Global, value: &Value) -> Result<Box<Term>>
    ensures { IfOk result (λ t. Leaves IsLowPosition AnySource (view t)) }
{
    let Value::Rec(fields) = value else {
        bail!("a primitive is a record");
    };
    let [code, arguments] = fields.slice() else {
        bail!("a primitive has two fields");
    };
    ensure!(is(&code.0, b"code"), "a primitive has a code");
    ensure!(is(&arguments.0, b"of"), "a primitive is of arguments");
    let code = u8::try_from(number_of(&code.1)?)?;
    primitive(alloc, code, read_list(alloc, &arguments.1)?)
}

fn is(label: &Label, word: &[u8]) -> bool {
    label.slice() == word
}

fn number_of(value: &Value) -> Result<i64> {
    match value {
        Value::Int(number) => Ok(*number),
        _ => bail!("a number is wanted"),
    }
}

fn kind_of(label: &[u8]) -> Result<Kind> {
    match label {
        b"set" => Ok(Kind::Set),
        b"bag" => Ok(Kind::Bag),
        b"list" => Ok(Kind::List),
        _ => bail!("no such kind"),
    }
}

fn variable(alloc: Global, written: &Value) -> Result<Box<Term>>
    ensures { IfOk result (λ t. Leaves IsLowPosition AnySource (view t)) }
{
    let at = u32::try_from(number_of(written)?)?;
    if at >= 1 << 31 {
        bail!("a position is too great");
    }
    Ok(Box::new(alloc, Term::Var(at))?)
}

fn constant(alloc: Global, value: &Value) -> Result<Box<Term>>
    ensures { IfOk result (λ t. Leaves IsLowPosition AnySource (view t)) }
{
    Ok(Box::new(alloc, Term::Const(dup(alloc, value)?))?)
}

fn source(alloc: Global, written: &Value) -> Result<Box<Term>>
    ensures { IfOk result (λ t. Leaves IsLowPosition AnySource (view t)) }
{
    let number = u32::try_from(number_of(written)?)?;
    Ok(Box::new(alloc, Term::Source(number))?)
}

fn record(alloc: Global, fields: TermFields) -> Result<Box<Term>>
    requires { All (λ f. Leaves IsLowPosition AnySource (view f.1)) fields }
    ensures { IfOk result (λ t. Leaves IsLowPosition AnySource (view t)) }
{
    Ok(Box::new(alloc, Term::Rec(fields))?)
}

fn projection(alloc: Global, part: (Label, Box<Term>)) -> Result<Box<Term>>
    requires { Leaves IsLowPosition AnySource (view part.1) }
    ensures { IfOk result (λ t. Leaves IsLowPosition AnySource (view t)) }
{
    Ok(Box::new(alloc, Term::Proj(part.0, part.1))?)
}

fn injection(alloc: Global, part: (Label, Box<Term>)) -> Result<Box<Term>>
    requires { Leaves IsLowPosition AnySource (view part.1) }
    ensures { IfOk result (λ t. Leaves IsLowPosition AnySource (view t)) }
{
    Ok(Box::new(alloc, Term::Inj(part.0, part.1))?)
}

fn case(
    alloc: Global,
    subject: Box<Term>,
    branches: TermFields,
    other: Option<Box<Term>>,
) -> Result<Box<Term>>
    requires subject { Leaves IsLowPosition AnySource (view subject) }
    requires branches { All (λ b. Leaves IsLowPosition AnySource (view b.1)) branches }
    requires other { IfSome other (λ t. Leaves IsLowPosition AnySource (view t)) }
    ensures { IfOk result (λ t. Leaves IsLowPosition AnySource (view t)) }
{
    Ok(Box::new(alloc, Term::Case(subject, branches, other))?)
}

fn collection(alloc: Global, kind: Kind, items: Terms) -> Result<Box<Term>>
    requires { All (λ t. Leaves IsLowPosition AnySource (view t)) items }
    ensures { IfOk result (λ t. Leaves IsLowPosition AnySource (view t)) }
{
    Ok(Box::new(alloc, Term::Make(kind, items))?)
}

fn union(alloc: Global, parts: (Box<Term>, Box<Term>)) -> Result<Box<Term>>
    requires first { Leaves IsLowPosition AnySource (view parts.0) }
    requires second { Leaves IsLowPosition AnySource (view parts.1) }
    ensures { IfOk result (λ t. Leaves IsLowPosition AnySource (view t)) }
{
    Ok(Box::new(alloc, Term::Union(parts.0, parts.1))?)
}

fn extension(alloc: Global, kind: Kind, parts: (Box<Term>, Box<Term>)) -> Result<Box<Term>>
    requires first { Leaves IsLowPosition AnySource (view parts.0) }
    requires second { Leaves IsLowPosition AnySource (view parts.1) }
    ensures { IfOk result (λ t. Leaves IsLowPosition AnySource (view t)) }
{
    Ok(Box::new(alloc, Term::Ext(kind, parts.0, parts.1))?)
}

fn test(alloc: Global, condition: Box<Term>, yes: Box<Term>, no: Box<Term>) -> Result<Box<Term>>
    requires condition { Leaves IsLowPosition AnySource (view condition) }
    requires yes { Leaves IsLowPosition AnySource (view yes) }
    requires no { Leaves IsLowPosition AnySource (view no) }
    ensures { IfOk result (λ t. Leaves IsLowPosition AnySource (view t)) }
{
    Ok(Box::new(alloc, Term::If(condition, yes, no))?)
}

fn binding(alloc: Global, parts: (Box<Term>, Box<Term>)) -> Result<Box<Term>>
    requires first { Leaves IsLowPosition AnySource (view parts.0) }
    requires second { Leaves IsLowPosition AnySource (view parts.1) }
    ensures { IfOk result (λ t. Leaves IsLowPosition AnySource (view t)) }
{
    Ok(Box::new(alloc, Term::Let(parts.0, parts.1))?)
}

fn primitive(alloc: Global, code: u8, arguments: Terms) -> Result<Box<Term>>
    requires { All (λ t. Leaves IsLowPosition AnySource (view t)) arguments }
    ensures { IfOk result (λ t. Leaves IsLowPosition AnySource (view t)) }
{
    Ok(Box::new(alloc, Term::Prim(code, arguments))?)
}

/// The value that writes a term.
///
/// # Errors
/// Want of memory.
#[cycle(write)]
pub fn write_term(alloc: Global, term: &Term) -> Result<Value> {
    match term {
        Term::Var(at) => under(alloc, b"var", Value::Int(i64::from(*at))),
        Term::Const(value) => under(alloc, b"const", dup(alloc, value)?),
        Term::Source(number) => under(alloc, b"source", Value::Int(i64::from(*number))),
        Term::Rec(fields) => {
            let fields = write_fields(alloc, fields.slice())?;
            under(alloc, b"rec", Value::Rec(fields))
        }
        Term::Proj(label, whole) => {
            let whole = write_term(alloc, whole.get())?;
            under(alloc, b"proj", labelled(alloc, label, whole)?)
        }
        Term::Inj(label, carried) => {
            let carried = write_term(alloc, carried.get())?;
            under(alloc, b"inj", labelled(alloc, label, carried)?)
        }
        Term::Case(subject, branches, other) => {
            let branches = Value::Rec(write_fields(alloc, branches.slice())?);
            let subject = write_term(alloc, subject.get())?;
            let other = Value::List(write_other(alloc, other)?);
            under(alloc, b"case", case_of(alloc, branches, subject, other)?)
        }
        Term::Make(kind, items) => {
            let items = write_list(alloc, items.slice())?;
            under(alloc, b"make", of_kind(alloc, *kind, items)?)
        }
        Term::Union(first, second) => {
            let mut parts = Vec::new(alloc);
            write_behind(alloc, first.get(), &mut parts)?;
            write_behind(alloc, second.get(), &mut parts)?;
            under(alloc, b"union", Value::List(Seq::of(parts)))
        }
        Term::Ext(kind, body, source) => {
            let mut parts = Vec::new(alloc);
            write_behind(alloc, body.get(), &mut parts)?;
            write_behind(alloc, source.get(), &mut parts)?;
            under(alloc, b"ext", of_kind(alloc, *kind, Seq::of(parts))?)
        }
        Term::If(condition, yes, no) => {
            let mut parts = Vec::new(alloc);
            write_behind(alloc, condition.get(), &mut parts)?;
            write_behind(alloc, yes.get(), &mut parts)?;
            write_behind(alloc, no.get(), &mut parts)?;
            under(alloc, b"test", Value::List(Seq::of(parts)))
        }
        Term::Let(first, body) => {
            let mut parts = Vec::new(alloc);
            write_behind(alloc, first.get(), &mut parts)?;
            write_behind(alloc, body.get(), &mut parts)?;
            under(alloc, b"bind", Value::List(Seq::of(parts)))
        }
        Term::Prim(code, arguments) => {
            let arguments = write_list(alloc, arguments.slice())?;
            under(alloc, b"prim", primitive_of(alloc, *code, arguments)?)
        }
    }
}

#[cycle(write)]
fn write_list(alloc: Global, terms: &[Term]) -> Result<Items> {
    let mut values = Vec::new(alloc);
    for term in terms {
        values.push(write_term(alloc, term)?)?;
    }
    Ok(Seq::of(values))
}

#[cycle(write)]
fn write_fields(alloc: Global, terms: &[(Label, Term)]) -> Result<Fields> {
    let mut values = Vec::new(alloc);
    for term in terms {
        let label = term.0.dup()?;
        values.push((label, write_term(alloc, &term.1)?))?;
    }
    Ok(Seq::of(values))
}

// Behind the values that are there.
#[cycle(write)]
fn write_behind(alloc: Global, term: &Term, values: &mut Vec<Value>) -> Result<()> {
    Ok(values.push(write_term(alloc, term)?)?)
}

#[cycle(write)]
fn write_other(alloc: Global, other: &Option<Box<Term>>) -> Result<Items> {
    let mut values = Vec::new(alloc);
    if let Some(other) = other {
        write_behind(alloc, other.get(), &mut values)?;
    }
    Ok(Seq::of(values))
}

fn label(alloc: Global, word: &[u8]) -> Result<Label> {
    Label::new(alloc, word)?.context("no word")
}

fn under(alloc: Global, word: &[u8], written: Value) -> Result<Value> {
    let written = Box::new(alloc, written)?;
    Ok(Value::Inj(label(alloc, word)?, written))
}

fn labelled(alloc: Global, label: &Label, written: Value) -> Result<Value> {
    let written = Box::new(alloc, written)?;
    Ok(Value::Inj(label.dup()?, written))
}

fn of_kind(alloc: Global, kind: Kind, parts: Items) -> Result<Value> {
    let word: &[u8] = match kind {
        Kind::Set => b"set",
        Kind::Bag => b"bag",
        Kind::List => b"list",
    };
    under(alloc, word, Value::List(parts))
}

fn case_of(alloc: Global, branches: Value, subject: Value, other: Value) -> Result<Value> {
    let mut fields = Vec::new(alloc);
    fields.push((label(alloc, b"branches")?, branches))?;
    fields.push((label(alloc, b"of")?, subject))?;
    fields.push((label(alloc, b"other")?, other))?;
    Ok(Value::Rec(Seq::of(fields)))
}

fn primitive_of(alloc: Global, code: u8, arguments: Items) -> Result<Value> {
    let mut fields = Vec::new(alloc);
    fields.push((label(alloc, b"code")?, Value::Int(i64::from(code))))?;
    fields.push((label(alloc, b"of")?, Value::List(arguments)))?;
    Ok(Value::Rec(Seq::of(fields)))
}
