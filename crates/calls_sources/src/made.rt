use kl_ask::Driver;
use kl_base::{Label, Text};
use kl_tools::{MadeDriver, gen_texts};
use kl_type::read_type;
use std::alloc::Global;
use std::test::Fail;

// Whether the made source is attached, with three rows.
fn attaches(alloc: Global) -> Result<bool, Fail> {
    let ty = read_type(alloc, b"{|[grp: int, id: int, name: string]|}")?;
    let mut driver = MadeDriver::new(alloc);
    if !driver.suits(&ty) {
        return Ok(false);
    }
    let name = Label::new(alloc, b"m")?.ok_or("no word")?;
    let locator = Text::of(Vec::from_slice(alloc, b"5 3")?);
    let count = driver.attach(&name, &locator, &ty);
    Ok(count == Ok(3) && driver.starts() == 0)
}

#[test]
fn a_made_source_is_attached(rt: HostRuntime) -> Result<(), Fail> {
    assert!(rt; attaches(rt.alloc())?);
    Ok(())
}

#[test]
fn the_texts_of_gen_are_made(rt: HostRuntime) -> Result<(), Fail> {
    let texts = gen_texts(rt.alloc(), 7, 1000)?;
    assert!(rt; texts.catalogue.len() > 100);
    Ok(())
}
