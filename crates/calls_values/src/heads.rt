ghost use Rattle.std.specs.Prelude.{◌≡◌, IsSome};

use kl_base::Text;
use kl_exchange::{MOST_READ, ReadError};
use kl_heads::{FileReader, Item, Reader, head_laws, states_no_other, text_laws};
use kl_outside::{Files, MemFiles};
use kl_type::Ty;
use std::alloc::Global;
use std::test::Fail;

fn fed(alloc: Global, bytes: &[u8]) -> Result<Reader, Fail> {
    let mut reader = Reader::new(alloc);
    reader.feed(bytes)?;
    reader.finish();
    Ok(reader)
}

fn reads_head(reader: &mut Reader) -> bool {
    matches!(reader.next(), Ok(Item::Head(Ty::Int)))
}

fn reads_value(reader: &mut Reader) -> bool {
    matches!(reader.next(), Ok(Item::Value(_)))
}

fn is_at_end(reader: &mut Reader) -> bool {
    matches!(reader.next(), Ok(Item::End))
}

#[test]
fn a_head_and_an_item_are_read(rt: HostRuntime) -> Result<(), Fail> {
    let mut reader = fed(rt.alloc(), b"type int; 1; ")?;
    assert!(rt; reads_head(&mut reader) && reader.place() == 9);
    assert!(rt; reads_value(&mut reader) && reader.place() == 12 && is_at_end(&mut reader));
    head_laws();
    text_laws();
    Ok(())
}

// Its label may go on, and may not stand twice.
#[test]
fn what_is_no_head_has_its_place(rt: HostRuntime) -> Result<(), Fail> {
    let mut reader = fed(rt.alloc(), b"type [a:int,a")?;
    assert!(rt; matches!(reader.next(), Err(ReadError::Bad { place: 13 })));
    Ok(())
}

fn one_file(alloc: Global) -> Result<MemFiles, Fail> {
    let path = Text::of(Vec::from_slice(alloc, b"a")?);
    let items = Text::of(Vec::from_slice(alloc, b"type {int}; {3, 1}; ")?);
    Ok(MemFiles::new(alloc, vec![in alloc; (path, items)]?))
}

// Whether a head and an item are read, and no more are left. The file stays open.
fn reads_file<F: Files>(reader: &mut FileReader, files: &mut F) -> bool
    requires is_open { IsSome ((F.state files.old).left reader.old.items.file) }
    ensures stays { IsSome ((F.state files.new).left reader.new.items.file) }
    ensures same { reader.new.items.file ≡ reader.old.items.file }
{
    if !reader.is_at_front() {
        return false;
    }
    let has_head = matches!(reader.head(files), Ok(Some(_)));
    has_head && reads_item(reader, files) && reads_end(reader, files)
}

// Whether the head was read, and then an item. The file stays open.
fn reads_item<F: Files>(reader: &mut FileReader, files: &mut F) -> bool
    requires is_open { IsSome ((F.state files.old).left reader.old.items.file) }
    ensures stays { IsSome ((F.state files.new).left reader.new.items.file) }
    ensures same { reader.new.items.file ≡ reader.old.items.file }
{
    !reader.is_at_front() && matches!(reader.next(files), Ok(Some(_)))
}

// Whether the head was read, and no item is left. The file stays open.
fn reads_end<F: Files>(reader: &mut FileReader, files: &mut F) -> bool
    requires is_open { IsSome ((F.state files.old).left reader.old.items.file) }
    ensures stays { IsSome ((F.state files.new).left reader.new.items.file) }
    ensures same { reader.new.items.file ≡ reader.old.items.file }
{
    !reader.is_at_front() && matches!(reader.next(files), Ok(None))
}

#[test]
fn the_head_of_a_file_is_read(rt: HostRuntime) -> Result<(), Fail> {
    let mut files = one_file(rt.alloc())?;
    let file = files.open_path(b"a").expect(&rt, "a is there");
    let mut reader = FileReader::new(rt.alloc(), file, MOST_READ, 4);
    assert!(rt; reads_file(&mut reader, &mut files));
    assert!(rt; reader.place() == 19 && reader.total() == 20);
    files.close(file);
    Ok(())
}

// Whether a piece is wanted, and fetched. The file stays open.
fn fetches<F: Files>(reader: &mut FileReader, files: &mut F) -> bool
    requires is_open { IsSome ((F.state files.old).left reader.old.items.file) }
    ensures stays { IsSome ((F.state files.new).left reader.new.items.file) }
    ensures same { reader.new.items.file ≡ reader.old.items.file }
{
    match reader.next_held() {
        Ok(Item::NeedMore) => reader.fetch(files).is_ok(),
        _ => false,
    }
}

#[test]
fn pieces_are_fetched_when_they_are_wanted(rt: HostRuntime) -> Result<(), Fail> {
    let mut files = one_file(rt.alloc())?;
    let file = files.open_path(b"a").expect(&rt, "a is there");
    let mut reader = FileReader::new(rt.alloc(), file, MOST_READ, 16);
    assert!(rt; fetches(&mut reader, &mut files));
    assert!(rt; matches!(reader.next_held(), Ok(Item::Head(_))));
    files.close(file);
    Ok(())
}

#[test]
fn a_stated_type_is_compared(rt: HostRuntime) -> Result<(), Fail> {
    assert!(rt; states_no_other(&None, &Ty::Int));
    assert!(rt; states_no_other(&Some(Ty::Int), &Ty::Int));
    assert!(rt; !states_no_other(&Some(Ty::Bool), &Ty::Int));
    Ok(())
}
