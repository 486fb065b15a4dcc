ghost use Rattle.std.specs.Prelude.{◌<◌, ◌^◌, length};

use kl_ask::Driver;
use kl_base::Label;
use kl_catalogue::read_catalogue;
use kl_flat::FlatDriver;
use kl_outside::MemFiles;
use kl_sources::{Source, names_of, place_sources, types_of};
use std::alloc::Global;
use std::test::Fail;

// Whether the one source is placed at the first driver.
fn is_placed(alloc: Global, drivers: &Vec<Box<dyn Driver>>) -> Result<bool, Fail>
    requires { length drivers.now.items < 2 ^ 32 }
{
    let entries = read_catalogue(alloc, b"source pubs : {[year: int]} = flat \"pubs.csv\";")?;
    let placed = place_sources(alloc, entries.slice(), drivers)?;
    Ok(is_first(&placed) && is_listed(alloc, &placed)?)
}

fn has_name(names: &[Label]) -> bool {
    matches!(names, [name] if name.slice() == b"pubs".as_slice())
}

fn is_listed(alloc: Global, sources: &[Source]) -> Result<bool, Fail> {
    Ok(has_name(&names_of(alloc, sources)?) && types_of(alloc, sources)?.len() == 1)
}

fn is_pubs(source: &Source) -> bool {
    source.name.slice() == b"pubs".as_slice()
        && source.locator.slice() == b"pubs.csv".as_slice()
        && source.driver == 0
}

fn is_first(sources: &Vec<Source>) -> bool {
    matches!(sources.as_slice(), [source] if is_pubs(source))
}

fn places(alloc: Global, driver: Box<dyn Driver>) -> Result<bool, Fail> {
    let mut drivers = Vec::new(alloc);
    drivers.push(driver)?;
    is_placed(alloc, &drivers)
}

#[test]
fn a_source_is_placed(rt: HostRuntime) -> Result<(), Fail> {
    let files = MemFiles::new(rt.alloc(), Vec::new(rt.alloc()));
    let driver = Box::new(rt.alloc(), FlatDriver::new(rt.alloc(), files))?;
    assert!(rt; places(rt.alloc(), driver)?);
    Ok(())
}
