ghost use Rattle.std.specs.Prelude.{IfOk};
ghost use Rattle.kl_outside.specs.Files.{NoneOpen};
ghost use Rattle.kl_outside.specs.Memory.{files_state};

use kl_ask::{Driver, DriverError};
use kl_base::{Label, Text};
use kl_nested::NestedDriver;
use kl_outside::MemFiles;
use kl_type::read_type;
use std::alloc::Global;
use std::test::Fail;

fn text(alloc: Global, bytes: &[u8]) -> Result<Text, Fail> {
    Ok(Text::of(Vec::from_slice(alloc, bytes)?))
}

fn files(alloc: Global) -> Result<MemFiles, Fail>
    ensures { IfOk result (λ f. NoneOpen (files_state f)) }
{
    let path = text(alloc, b"n.kx")?;
    let items = text(alloc, b"{3, 1}; {};")?;
    let typed_path = text(alloc, b"t.kx")?;
    let typed = text(alloc, b"type {int}; {3, 1}; {};")?;
    Ok(MemFiles::new(alloc, vec![in alloc; (path, items), (typed_path, typed)]?))
}

// What attaching the file at a path as a collection of this type answers.
fn attaches(alloc: Global, path: &[u8], ty: &[u8]) -> Result<Result<u64, DriverError>, Fail> {
    let ty = read_type(alloc, ty)?;
    let mut driver = NestedDriver::new(alloc, files(alloc)?);
    if !driver.suits(&ty) {
        return Ok(Err(DriverError::Failed));
    }
    let name = Label::new(alloc, b"n")?.ok_or("no word")?;
    let path = text(alloc, path)?;
    Ok(driver.attach(&name, &path, &ty))
}

#[test]
fn a_file_of_values_is_attached(rt: HostRuntime) -> Result<(), Fail> {
    assert!(rt; attaches(rt.alloc(), b"n.kx", b"[|{int}|]")? == Ok(2));
    Ok(())
}

#[test]
fn a_file_that_states_its_type_is_attached(rt: HostRuntime) -> Result<(), Fail> {
    assert!(rt; attaches(rt.alloc(), b"t.kx", b"{{int}}")? == Ok(2));
    Ok(())
}

#[test]
fn a_file_that_states_another_type_is_not_attached(rt: HostRuntime) -> Result<(), Fail> {
    let other = DriverError::BadSource { place: 0 };
    assert!(rt; attaches(rt.alloc(), b"t.kx", b"{{|int|}}")? == Err(other));
    Ok(())
}
