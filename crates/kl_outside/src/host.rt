//! The system's files and streams, which tell no bytes.
ghost use Rattle.std.specs.Prelude.{◌≡◌, ◌≤◌, None, IfOk, length};
ghost use Rattle.kl_base.specs.Counts.{Rose};

use crate::{Files, Sink, Stop};
use slab::Slab;
use std::fs::File;
use std::io::{ErrorKind, Read, Write};
use std::{io, str};

/// The system's files. The number of a closed file is used again, so that opening and closing files in turn takes no
/// more memory than the files that are open at once.
#[derive(Drop)]
pub struct HostFiles {
    rt: HostRuntime,
    opened: Slab<File>,
    faults: u64,
}

impl HostFiles {
    ghost use Rattle.kl_outside.specs.Host.{host_state};

    /// The system's files, none of them open.
    pub fn new(rt: HostRuntime) -> HostFiles
        ensures { host_state result ≡ record { told = None; left = λ _. None; log = None; faults = 0 } }
    {
        HostFiles {
            rt,
            opened: Slab::new(rt.alloc()),
            faults: 0,
        }
    }

    fn fault(&mut self) -> Stop
        ensures stop { result ≡ Stop.Failed }
        ensures opened { self.new.opened ≡ self.old.opened }
        ensures faults { Rose self.old.faults self.new.faults }
        ensures later { self.old.faults ≤ self.new.faults }
    {
        self.faults = self.faults.saturating_add(1);
        Stop::Failed
    }
}

impl Files for HostFiles {
    ghost use Rattle.kl_outside.specs.Host.{host_state};

    ghost state = { λ h. host_state h };

    /// A path that is no UTF-8 or that holds a zero byte is `Failed`.
    fn open_path(&mut self, path: &[u8]) -> Result<u64, Stop> {
        let Ok(name) = str::from_utf8(path) else {
            return Err(self.fault());
        };
        let Ok(file) = File::open(&self.rt, name) else {
            return Err(self.fault());
        };
        let number = self.opened.insert(file)?;
        Ok(number as u64)
    }

    fn read(&mut self, file: u64, into: &mut [u8]) -> Result<usize, Stop> {
        let count = match self.opened.get_mut(file as usize) {
            Some(opened) => read_some(opened, into),
            None => Ok(0),
        };
        match count {
            Ok(count) => Ok(count),
            Err(_) => Err(self.fault()),
        }
    }

    fn close(&mut self, file: u64) {
        let _ = self.opened.try_remove(file as usize);
    }
}

// One read, tried again where a signal interrupted it.
fn read_some<R: Read>(reader: &mut R, into: &mut [u8]) -> io::Result<usize>
    ensures { IfOk result (λ count. count ≤ length into.new) }
{
    'tries: for _ in 0..u64::MAX {
        match reader.read(into) {
            Err(error) if error.kind() == ErrorKind::Interrupted => {}
            result => return result,
        }
    }
    Err(ErrorKind::TimedOut.into())
}

/// A stream of the system, such as its standard output. Each write is flushed before it is answered, so no bytes of an
/// answered write are lost in a buffer, and a flush that fails is a write that failed. How much of a failed write
/// reached the stream is not known.
#[derive(Drop)]
pub struct HostSink<W> {
    stream: W,
    faults: u64,
}

impl<W: Write> HostSink<W> {
    ghost use Rattle.kl_outside.specs.Host.{stream_state};

    /// A sink over a stream, with no fault so far.
    pub fn new(stream: W) -> HostSink<W>
        ensures { stream_state result ≡ record { taken = None; faults = 0; wants = 0 } }
    {
        HostSink { stream, faults: 0 }
    }
}

impl<W: Write> Sink for HostSink<W> {
    ghost use Rattle.kl_outside.specs.Host.{stream_state};

    ghost state = { λ h. stream_state h };

    /// Is never `NoMemory`.
    fn write(&mut self, piece: &[u8]) -> Result<usize, Stop> {
        if piece.is_empty() {
            return Ok(0);
        }
        if let Ok(count) = write_some(&mut self.stream, piece) {
            if count > 0 && flush(&mut self.stream).is_ok() {
                return Ok(count);
            }
        }
        self.faults = self.faults.saturating_add(1);
        Err(Stop::Failed)
    }
}

// One write, tried again where a signal interrupted it.
fn write_some<W: Write>(stream: &mut W, piece: &[u8]) -> io::Result<usize>
    ensures { IfOk result (λ count. count ≤ length piece.now) }
{
    'tries: for _ in 0..u64::MAX {
        match stream.write(piece) {
            Err(error) if error.kind() == ErrorKind::Interrupted => {}
            result => return result,
        }
    }
    Err(ErrorKind::TimedOut.into())
}

// One flush, tried again where a signal interrupted it.
fn flush<W: Write>(stream: &mut W) -> io::Result<()> {
    'tries: for _ in 0..u64::MAX {
        match stream.flush() {
            Err(error) if error.kind() == ErrorKind::Interrupted => {}
            result => return result,
        }
    }
    Err(ErrorKind::TimedOut.into())
}
