use kl_ask::{Ask, Cmp, ColTest, DriverError, Right, count_ask, sum_asked, unread_by};
use kl_base::{Label, Seq};
use kl_value::Value;
use std::alloc::Global;
use std::test::Fail;

fn label(alloc: Global, word: &[u8]) -> Result<Label, Fail> {
    Ok(Label::new(alloc, word)?.ok_or("no word")?)
}

// `year = 1999`
fn test(alloc: Global) -> Result<ColTest, Fail> {
    Ok(ColTest {
        left: label(alloc, b"year")?,
        op: Cmp::Eq,
        right: Right::Const(Value::Int(1999)),
    })
}

fn kept(alloc: Global) -> Result<Seq<Label>, Fail> {
    Ok(Seq::of(vec![in alloc; label(alloc, b"year")?]?))
}

fn tests(alloc: Global) -> Result<Seq<ColTest>, Fail> {
    Ok(Seq::of(vec![in alloc; test(alloc)?]?))
}

fn rows(alloc: Global) -> Result<Ask, Fail> {
    let source = label(alloc, b"pubs")?;
    let keep = kept(alloc)?;
    let tests = tests(alloc)?;
    Ok(Ask::Rows {
        source,
        keep,
        tests,
    })
}

#[test]
fn an_ask_is_copied(rt: HostRuntime) -> Result<(), Fail> {
    let ask = rows(rt.alloc())?;
    assert!(rt; ask.dup(rt.alloc())? == ask);
    Ok(())
}

fn ask_twice(alloc: Global, asked: &mut Vec<(Ask, u64)>) -> Result<(), Fail> {
    let ask = rows(alloc)?;
    count_ask(alloc, asked, &ask)?;
    count_ask(alloc, asked, &ask)?;
    Ok(())
}

#[test]
fn asks_are_counted(rt: HostRuntime) -> Result<(), Fail> {
    let mut asked = Vec::new(rt.alloc());
    ask_twice(rt.alloc(), &mut asked)?;
    assert_eq!(rt; asked.len(), 1);
    assert_eq!(rt; sum_asked(&asked), 2);
    Ok(())
}

#[test]
fn an_unreadable_source_is_counted(rt: HostRuntime) -> Result<(), Fail> {
    let bad = DriverError::BadSource { place: 0 };
    assert_eq!(rt; unread_by(&bad, 2), 3);
    assert_eq!(rt; unread_by(&DriverError::Failed, 2), 2);
    Ok(())
}
