use kl_base::{Box, Label, Seq};
use kl_lex::{Lexed, Placed, lex_all};
use kl_type::{Ty, TypeError, has, print_type, read_front, read_type};
use kl_value::{Kind, Value};
use std::alloc::Global;
use std::test::Fail;

fn label(alloc: Global, word: &[u8]) -> Result<Label, Fail> {
    Ok(Label::new(alloc, word)?.ok_or("no word")?)
}

// `{|<chr: int, seq: string>|}`
fn loci(alloc: Global) -> Result<Ty, Fail> {
    let fields = vec![in alloc;
        (label(alloc, b"chr")?, Ty::Int),
        (label(alloc, b"seq")?, Ty::Str),
    ]?;
    Ok(Ty::Coll(Kind::Bag, Box::new(alloc, Ty::Var(Seq::of(fields)))?))
}

// `{|<chr=7>|}`
fn locus(alloc: Global) -> Result<Value, Fail> {
    let chr = label(alloc, b"chr")?;
    let item = Value::Inj(chr, Box::new(alloc, Value::Int(7))?);
    Ok(Value::Bag(Seq::of(vec![in alloc; item]?)))
}

#[test]
fn a_type_is_copied(rt: HostRuntime) -> Result<(), Fail> {
    let whole = loci(rt.alloc())?;
    assert!(rt; whole.dup(rt.alloc())? == whole);
    Ok(())
}

#[test]
fn a_type_is_printed(rt: HostRuntime) -> Result<(), Fail> {
    let text = print_type(rt.alloc(), &loci(rt.alloc())?)?;
    assert!(rt; text.slice() == b"{|<chr: int, seq: string>|}".as_slice());
    Ok(())
}

#[test]
fn a_value_has_a_type(rt: HostRuntime) -> Result<(), Fail> {
    let whole = loci(rt.alloc())?;
    let bag = locus(rt.alloc())?;
    assert!(rt; has(&bag, &whole));
    assert!(rt; !has(&bag, &Ty::Int));
    Ok(())
}

#[test]
fn a_type_is_read_off_its_text(rt: HostRuntime) -> Result<(), Fail> {
    let whole = Ty::Coll(Kind::Set, Box::new(rt.alloc(), Ty::Int)?);
    assert!(rt; read_type(rt.alloc(), b"{ int }") == Ok(whole));
    Ok(())
}

#[test]
fn a_text_of_no_type_is_refused(rt: HostRuntime) {
    assert!(rt; read_type(rt.alloc(), b"[a:int,a") == Err(TypeError::Bad { place: 7 }));
}

fn begins_with_int(alloc: Global, tokens: &[Placed]) -> bool {
    matches!(read_front(alloc, tokens), Ok((Ty::Int, [_])))
}

#[test]
fn a_type_is_read_off_the_front(rt: HostRuntime) -> Result<(), Fail> {
    match lex_all(rt.alloc(), b"int;")? {
        Lexed::Tokens(tokens) => assert!(rt; begins_with_int(rt.alloc(), tokens.slice())),
        Lexed::Bad { .. } => return Err(Fail::from("refused")),
    }
    Ok(())
}
