use kl_base::{Box, Label, Seq};
use kl_scope::{Scoped, resolve};
use kl_syntax::{Expr, Meaning, Pattern, Program, Qual, Quals, Word};
use kl_value::{Kind, Value};
use std::alloc::Global;
use std::test::Fail;

pub fn label(alloc: Global, word: &[u8]) -> Result<Label, Fail> {
    Ok(Label::new(alloc, word)?.ok_or("no word")?)
}

fn word(alloc: Global, text: &[u8], token: u32) -> Result<Word, Fail> {
    let text = label(alloc, text)?;
    let means = Meaning::Open;
    Ok(Word { text, token, means })
}

fn generator(alloc: Global) -> Result<Quals, Fail> {
    let x = word(alloc, b"x", 4)?;
    let pubs = word(alloc, b"pubs", 6)?;
    let drawn = Qual::Gen(Pattern::Bind(x), Expr::Name(pubs));
    Ok(Seq::of(vec![in alloc; drawn]?))
}

fn head(alloc: Global) -> Result<Box<Expr>, Fail> {
    let x = word(alloc, b"x", 1)?;
    Ok(Box::new(alloc, Expr::Name(x))?)
}

// {x | \x <- pubs};
pub fn draws(alloc: Global) -> Result<Program, Fail> {
    let head = head(alloc)?;
    let quals = generator(alloc)?;
    Ok(Program {
        defs: Seq::of(Vec::new(alloc)),
        last: Expr::Comp(Kind::Set, head, quals),
    })
}

// The one place where a program in scope is dropped.
pub fn let_go(_scoped: Scoped) {}

fn names(alloc: Global) -> Result<Vec<Label>, Fail> {
    Ok(vec![in alloc; label(alloc, b"none")?, label(alloc, b"pubs")?]?)
}

// The same, with the sources `none` and `pubs`.
pub fn scoped(alloc: Global) -> Result<Scoped, Fail> {
    let sources = names(alloc)?;
    match resolve(alloc, draws(alloc)?, &sources) {
        Ok(scoped) => Ok(scoped),
        Err(_) => Err(Fail::from("not in scope")),
    }
}

// {1};
fn set(alloc: Global) -> Result<Program, Fail> {
    let items = vec![in alloc; Expr::Const(Value::Int(1))]?;
    Ok(Program {
        defs: Seq::of(Vec::new(alloc)),
        last: Expr::Coll(Kind::Set, Seq::of(items)),
    })
}

// The same, without sources.
pub fn constant(alloc: Global) -> Result<Scoped, Fail> {
    match resolve(alloc, set(alloc)?, &[]) {
        Ok(scoped) => Ok(scoped),
        Err(_) => Err(Fail::from("not in scope")),
    }
}
