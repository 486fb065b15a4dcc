use kl_base::{Box, Label, Seq, Shared, Text, labels_of};
use std::alloc::Global;
use std::test::Fail;

#[test]
fn a_text_is_copied(rt: HostRuntime) -> Result<(), Fail> {
    let alloc = rt.alloc();
    let text = Text::of(Vec::from_slice(alloc, b"gene")?);
    assert!(rt; text.dup(alloc)? == text && text.len() == 4);
    Ok(())
}

#[test]
fn a_box_hands_back_what_it_holds(rt: HostRuntime) -> Result<(), Fail> {
    let boxed = Box::new(rt.alloc(), 7u8)?;
    let held = *boxed;
    assert!(rt; held == 7 && boxed.into_inner() == 7);
    Ok(())
}

#[test]
fn a_shared_list_is_held_twice(rt: HostRuntime) -> Result<(), Fail> {
    let alloc = rt.alloc();
    let shared = Shared::new(alloc, Seq::of(vec![in alloc; 1u8, 2]?))?;
    let other = shared.dup()?;
    assert!(rt; shared == other && other.get().len() == 2);
    Ok(())
}

fn label(alloc: Global, word: &[u8]) -> Result<Label, Fail> {
    Ok(Label::new(alloc, word)?.ok_or("no word")?)
}

// `[year=3, id_2=5]`
fn fields(alloc: Global) -> Result<Seq<(Label, u8)>, Fail> {
    let pairs = vec![in alloc; (label(alloc, b"year")?, 3u8), (label(alloc, b"id_2")?, 5)]?;
    Ok(Seq::<(Label, u8)>::new(pairs)?.ok_or("a label repeats")?)
}

#[test]
fn fields_stand_by_label(rt: HostRuntime) -> Result<(), Fail> {
    let alloc = rt.alloc();
    let fields = fields(alloc)?;
    let year = label(alloc, b"year")?;
    assert!(rt; fields.slice().first().is_some_and(|field| field.1 == 5));
    assert!(rt; fields.get(&year) == Some(&3));
    Ok(())
}

#[test]
fn no_field_stands_at_another_label(rt: HostRuntime) -> Result<(), Fail> {
    let fields = fields(rt.alloc())?;
    let vol = label(rt.alloc(), b"vol")?;
    assert!(rt; fields.get(&vol).is_none());
    Ok(())
}

#[test]
fn labels_are_listed(rt: HostRuntime) -> Result<(), Fail> {
    let fields = fields(rt.alloc())?;
    let labels = labels_of(rt.alloc(), fields.slice())?;
    let first = labels
        .first()
        .is_some_and(|label| label.slice() == b"id_2".as_slice());
    assert!(rt; labels.len() == 2 && first);
    Ok(())
}

#[test]
fn no_label_stands_twice(rt: HostRuntime) -> Result<(), Fail> {
    let alloc = rt.alloc();
    let year = label(alloc, b"year")?;
    let twice = vec![in alloc; (year.dup()?, 3u8), (year, 3)]?;
    assert!(rt; Seq::<(Label, u8)>::new(twice)?.is_none());
    Ok(())
}

#[test]
fn no_label_begins_with_a_digit(rt: HostRuntime) -> Result<(), Fail> {
    assert!(rt; Label::new(rt.alloc(), b"2nd")?.is_none());
    Ok(())
}
