use kl_catalogue::{CatalogueError, Entry, read_catalogue};
use std::test::Fail;

fn is_pubs(entry: &Entry) -> bool {
    entry.name.slice() == b"pubs".as_slice()
        && entry.driver.slice() == b"flat".as_slice()
        && entry.locator.slice() == b"pubs.csv".as_slice()
}

#[test]
fn a_catalogue_is_read(rt: HostRuntime) -> Result<(), Fail> {
    let found = read_catalogue(
        rt.alloc(),
        b"source pubs : {[year: int]} = flat \"pubs.csv\"; # a table\n",
    )?;
    assert!(rt; matches!(found.slice(), [entry] if is_pubs(entry)));
    Ok(())
}

#[test]
fn a_colon_is_missing(rt: HostRuntime) {
    assert!(rt;
        read_catalogue(rt.alloc(), b"source p {int}") == Err(CatalogueError::Bad { byte: 9 })
    );
}
