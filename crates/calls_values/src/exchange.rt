ghost use Rattle.std.specs.Prelude.{◌≡◌, IsSome};

use kl_base::Text;
use kl_exchange::{
    FileReader, Item, MOST_READ, Page, Reader, file_laws, found_laws, print, reading_laws,
};
use kl_outside::{Files, MemFiles, MemSink};
use kl_value::Value;
use std::alloc::Global;
use std::test::Fail;

fn fed(alloc: Global, bytes: &[u8]) -> Result<Reader, Fail> {
    let mut reader = Reader::new(alloc);
    reader.feed(bytes)?;
    reader.finish();
    Ok(reader)
}

fn reads_value(reader: &mut Reader) -> bool {
    matches!(reader.next(), Ok(Item::Value(_)))
}

fn is_at_end(reader: &mut Reader) -> bool {
    matches!(reader.next(), Ok(Item::End))
}

#[test]
fn items_are_read(rt: HostRuntime) -> Result<(), Fail> {
    let mut reader = fed(rt.alloc(), b"{3, 1 ,3};")?;
    assert!(rt; reads_value(&mut reader) && reader.place() == 10 && is_at_end(&mut reader));
    reading_laws();
    Ok(())
}

#[test]
fn a_value_is_printed(rt: HostRuntime) -> Result<(), Fail> {
    let mut sink = MemSink::new(rt.alloc());
    assert!(rt; print(&Value::Int(-7), &mut sink).is_ok());
    assert!(rt; sink.bytes() == b"-7".as_slice());
    Ok(())
}

#[test]
fn a_page_is_flushed(rt: HostRuntime) -> Result<(), Fail> {
    let mut sink = MemSink::new(rt.alloc());
    let mut page = Page::new();
    assert!(rt; page.print(&Value::Bool(true), &mut sink).is_ok());
    assert!(rt; page.put(b"\n", &mut sink).is_ok());
    assert!(rt; sink.bytes().is_empty());
    assert!(rt; page.flush(&mut sink).is_ok());
    assert!(rt; sink.bytes() == b"true\n".as_slice());
    Ok(())
}

fn one_file(alloc: Global) -> Result<MemFiles, Fail> {
    let path = Text::of(Vec::from_slice(alloc, b"a")?);
    let text = Text::of(Vec::from_slice(alloc, b"1; {2};\n")?);
    Ok(MemFiles::new(alloc, vec![in alloc; (path, text)]?))
}

// Whether an item was read. The file stays open.
fn reads_item<F: Files>(reader: &mut FileReader, files: &mut F) -> bool
    requires is_open { IsSome ((F.state files.old).left reader.old.file) }
    ensures stays { IsSome ((F.state files.new).left reader.new.file) }
    ensures same { reader.new.file ≡ reader.old.file }
{
    matches!(reader.next(files), Ok(Some(_)))
}

// Whether no item is left. The file stays open.
fn reads_end<F: Files>(reader: &mut FileReader, files: &mut F) -> bool
    requires is_open { IsSome ((F.state files.old).left reader.old.file) }
    ensures stays { IsSome ((F.state files.new).left reader.new.file) }
    ensures same { reader.new.file ≡ reader.old.file }
{
    matches!(reader.next(files), Ok(None))
}

// Whether two items were read, and no more are left. The file stays open.
fn reads_two<F: Files>(reader: &mut FileReader, files: &mut F) -> bool
    requires is_open { IsSome ((F.state files.old).left reader.old.file) }
    ensures stays { IsSome ((F.state files.new).left reader.new.file) }
    ensures same { reader.new.file ≡ reader.old.file }
{
    reads_item(reader, files) && reads_item(reader, files) && reads_end(reader, files)
}

#[test]
fn the_items_of_a_file_are_read(rt: HostRuntime) -> Result<(), Fail> {
    let mut files = one_file(rt.alloc())?;
    let file = files.open_path(b"a").expect(&rt, "a is there");
    let mut reader = FileReader::new(rt.alloc(), file, MOST_READ, 4);
    assert!(rt; reads_two(&mut reader, &mut files));
    assert!(rt; reader.place() == 7 && reader.total() == 8);
    files.close(file);
    file_laws();
    found_laws();
    Ok(())
}

// Whether a piece is wanted, and fetched. The file stays open.
fn fetches<F: Files>(reader: &mut FileReader, files: &mut F) -> bool
    requires is_open { IsSome ((F.state files.old).left reader.old.file) }
    ensures stays { IsSome ((F.state files.new).left reader.new.file) }
    ensures same { reader.new.file ≡ reader.old.file }
{
    match reader.next_held() {
        Ok(Item::NeedMore) => reader.fetch(files).is_ok(),
        _ => false,
    }
}

fn holds_value(reader: &mut FileReader) -> bool {
    matches!(reader.next_held(), Ok(Item::Value(_)))
}

#[test]
fn pieces_are_fetched_when_they_are_wanted(rt: HostRuntime) -> Result<(), Fail> {
    let mut files = one_file(rt.alloc())?;
    let file = files.open_path(b"a").expect(&rt, "a is there");
    let mut reader = FileReader::new(rt.alloc(), file, MOST_READ, 4);
    assert!(rt; fetches(&mut reader, &mut files) && holds_value(&mut reader));
    files.close(file);
    Ok(())
}
