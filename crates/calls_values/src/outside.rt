use kl_base::Text;
use kl_outside::{
    Files, HostFiles, HostSink, MemFiles, MemSink, Sink, Stop, Whole, read_whole, write_whole,
};
use std::alloc::Global;
use std::io;
use std::io::{ErrorKind, Write};
use std::test::Fail;

// At "a" stands `{1}`.
fn one_file(alloc: Global) -> Result<MemFiles, Fail> {
    let path = Text::of(Vec::from_slice(alloc, b"a")?);
    let text = Text::of(Vec::from_slice(alloc, b"{1}")?);
    Ok(MemFiles::new(alloc, vec![in alloc; (path, text)]?))
}

fn reads<F: Files>(alloc: Global, files: &mut F, path: &[u8], most: u64, wanted: &[u8]) -> bool {
    match read_whole(alloc, files, path, most) {
        Ok(Whole::Bytes(bytes)) => bytes.slice() == wanted,
        _ => false,
    }
}

fn is_too_long<F: Files>(alloc: Global, files: &mut F, path: &[u8], most: u64) -> bool {
    matches!(read_whole(alloc, files, path, most), Ok(Whole::TooLong))
}

fn fails<F: Files>(alloc: Global, files: &mut F, path: &[u8]) -> bool {
    matches!(read_whole(alloc, files, path, 9), Err(Stop::Failed))
}

fn begins_with<F: Files>(files: &mut F, path: &[u8], wanted: u8) -> bool {
    let mut byte = [0u8];
    match files.open_path(path) {
        Ok(file) => {
            let count = files.read(file, &mut byte);
            files.close(file);
            count == Ok(1) && byte == [wanted]
        }
        Err(_) => false,
    }
}

#[test]
fn files_in_memory_are_read(rt: HostRuntime) -> Result<(), Fail> {
    let alloc = rt.alloc();
    let mut files = one_file(alloc)?;
    files.fail_at(6)?;
    assert!(rt; reads(alloc, &mut files, b"a", 3, b"{1}"));
    assert!(rt; begins_with(&mut files, b"a", b'{'));
    assert!(rt; fails(alloc, &mut files, b"a"));
    Ok(())
}

// At "a" stands `{1}`, from the second opening on `{2}`; at "b" nothing, from the third opening on `{3}`.
fn changing_files(alloc: Global) -> Result<MemFiles, Fail> {
    let mut files = one_file(alloc)?;
    let bytes = Text::of(Vec::from_slice(alloc, b"{2}")?);
    files.change_at(2, Text::of(Vec::from_slice(alloc, b"a")?), bytes)?;
    let bytes = Text::of(Vec::from_slice(alloc, b"{3}")?);
    files.change_at(3, Text::of(Vec::from_slice(alloc, b"b")?), bytes)?;
    Ok(files)
}

#[test]
fn files_in_memory_change(rt: HostRuntime) -> Result<(), Fail> {
    let alloc = rt.alloc();
    let mut files = changing_files(alloc)?;
    assert!(rt; reads(alloc, &mut files, b"a", 3, b"{1}"));
    assert!(rt; reads(alloc, &mut files, b"a", 3, b"{2}"));
    assert!(rt; reads(alloc, &mut files, b"a", 3, b"{2}"));
    assert!(rt; fails(alloc, &mut files, b"b") && fails(alloc, &mut files, b"b"));
    assert!(rt; reads(alloc, &mut files, b"b", 3, b"{3}"));
    Ok(())
}

#[test]
fn a_sink_in_memory_keeps_what_it_took(rt: HostRuntime) -> Result<(), Fail> {
    let mut sink = MemSink::new(rt.alloc());
    sink.fail_at(2)?;
    assert!(rt; write_whole(&mut sink, b"{1") == Ok(()));
    assert!(rt; write_whole(&mut sink, b"9") == Err(Stop::Failed));
    assert!(rt; sink.bytes() == b"{1".as_slice());
    Ok(())
}

#[test]
fn the_systems_files_are_read(rt: HostRuntime) {
    let alloc = rt.alloc();
    let mut files = HostFiles::new(rt);
    assert!(rt; reads(alloc, &mut files, b"/dev/null", 0, b""));
    assert!(rt; is_too_long(alloc, &mut files, b"/dev/zero", 20_000));
    // The number of a closed file serves again.
    assert!(rt; files.open_path(b"/dev/null") == Ok(0));
}

#[test]
fn a_path_of_no_file_of_the_system_fails(rt: HostRuntime) {
    let mut files = HostFiles::new(rt);
    let bad: [&[u8]; 3] = [b"/no/such/file", b"/dev/\xff", b"/"];
    for path in bad {
        assert!(rt; fails(rt.alloc(), &mut files, path));
    }
}

// Is interrupted once, then takes a byte at a time, and cannot flush its third.
#[derive(Drop)]
struct Slow {
    taken: Vec<u8>,
    calls: u64,
}

impl Write for Slow {
    fn write(&mut self, piece: &[u8]) -> io::Result<usize> {
        self.calls = self.calls.saturating_add(1);
        match piece.first() {
            Some(byte) if self.calls > 1 => {
                self.taken.push(*byte)?;
                Ok(1)
            }
            _ => Err(ErrorKind::Interrupted.into()),
        }
    }

    fn flush(&mut self) -> io::Result<()> {
        if self.taken.len() == 3 {
            return Err(ErrorKind::BrokenPipe.into());
        }
        Ok(())
    }
}

#[test]
fn a_stream_is_written_and_flushed(rt: HostRuntime) {
    let mut slow = Slow {
        taken: Vec::new(rt.alloc()),
        calls: 0,
    };
    let mut sink = HostSink::new(&mut slow);
    assert!(rt; sink.write(b"") == Ok(0));
    assert!(rt; write_whole(&mut sink, b"ab") == Ok(()));
    assert!(rt; write_whole(&mut sink, b"cd") == Err(Stop::Failed));
    assert!(rt; slow.taken.as_slice() == b"abc".as_slice());
}

#[test]
fn a_full_stream_fails(rt: HostRuntime) {
    let mut room = [0u8; 3];
    let mut sink = HostSink::new(room.as_mut_slice());
    assert!(rt; write_whole(&mut sink, b"abcd") == Err(Stop::Failed));
}
