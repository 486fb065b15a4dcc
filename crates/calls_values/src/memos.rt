use kl_memo::{Memo, MemoKey, key_laws};
use kl_value::{Items, Value};
use std::alloc::Global;
use std::test::Fail;

fn key(alloc: Global, number: u32, at: i64) -> Result<MemoKey, Fail> {
    let values = Items::of(vec![in alloc; Value::Int(at)]?);
    Ok(MemoKey { number, values })
}

fn keep(alloc: Global, memo: &mut Memo, at: i64) -> Result<(), Fail> {
    Ok(memo.keep(key(alloc, 0, at)?, Value::Int(at))?)
}

// Room for two; 1 and 2 are kept, in this order.
fn two(alloc: Global) -> Result<Memo, Fail> {
    let mut memo = Memo::new(alloc, 2)?;
    keep(alloc, &mut memo, 1)?;
    keep(alloc, &mut memo, 2)?;
    Ok(memo)
}

fn holds(memo: &mut Memo, key: &MemoKey, at: i64) -> bool {
    match memo.get(key) {
        Some(Value::Int(found)) => *found == at,
        _ => false,
    }
}

fn finds(alloc: Global, memo: &mut Memo, number: u32, at: i64) -> Result<bool, Fail> {
    Ok(holds(memo, &key(alloc, number, at)?, at))
}

fn counts(memo: &Memo, hits: u64, misses: u64) -> bool {
    memo.hits() == hits && memo.misses() == misses
}

// 1 is used and 3 is kept, so that 2 goes.
fn keeps_what_is_used(alloc: Global, memo: &mut Memo) -> Result<bool, Fail> {
    let used = finds(alloc, memo, 0, 1)?;
    keep(alloc, memo, 3)?;
    Ok(used && !finds(alloc, memo, 0, 2)? && finds(alloc, memo, 0, 1)?)
}

#[test]
fn what_was_not_used_for_longest_goes(rt: HostRuntime) -> Result<(), Fail> {
    let mut memo = two(rt.alloc())?;
    assert!(rt; keeps_what_is_used(rt.alloc(), &mut memo)? && counts(&memo, 2, 1));
    Ok(())
}

#[test]
fn numbers_tell_keys_apart(rt: HostRuntime) -> Result<(), Fail> {
    let mut memo = two(rt.alloc())?;
    assert!(rt; !finds(rt.alloc(), &mut memo, 1, 1)?);
    key_laws();
    Ok(())
}
