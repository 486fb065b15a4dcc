ghost use Rattle.std.specs.Prelude.{◌<◌, length, IsSome};
ghost use Rattle.kl_outside.specs.Files.{FilesState, OpensPath, ReadsPiece, Closes, ReadsWhole, ReadsRest};

use crate::Stop;
use kl_base::Text;
use std::alloc::Global;

/// Files by path, several open at once, each read from its start to its end in pieces.
pub trait Files {
    /// What is known of the files. `told`: the bytes of each path, where the files tell them, with none at a path that
    /// is missing; no call changes it. `left`: for each number, whether a file is open under it, and the bytes which
    /// that file has left, where they are known. `log`: what was read under each number since a file was opened under it,
    /// where the files keep that, which no caller can see. `faults`: how often a call failed, but for the opening of a path
    /// that is told to be missing. The count rises with the answer `Failed` alone, never falls, and stays where it has
    /// reached the greatest u64.
    ghost state: { Self → FilesState };

    /// Opens a path for reading from its start, and answers the number of a file that was not open. The files that
    /// are open stay where they are.
    ///
    /// # Errors
    /// After an error the same files are open, at the same places.
    /// - `Failed`: always where the path is told to be missing, and then no count rises. In every other case the file
    ///   could not be opened, and `faults` rose.
    /// - `NoMemory`: there was no memory for one more open file.
    fn open_path(&mut self, path: &[u8]) -> Result<u64, Stop>
        ensures { OpensPath path.now result (state self.old) (state self.new) };

    /// Copies the next bytes of an open file to the front of `into`, at least one where any is left, and answers how
    /// many. The answer 0 is the end of the file.
    ///
    /// # Errors
    /// After an error each open file stays where it was, and nothing is said of the bytes in `into`.
    /// - `Failed`: the read failed, and `faults` rose.
    /// - `NoMemory`: there was no memory for the read.
    fn read(&mut self, file: u64, into: &mut [u8]) -> Result<usize, Stop>
        requires is_open { IsSome ((state self.old).left file) }
        requires room { 0 < length into.old }
        ensures { ReadsPiece file into.new result (state self.old) (state self.new) };

    /// Closes an open file. It takes no memory, and cannot be refused.
    fn close(&mut self, file: u64)
        requires { IsSome ((state self.old).left file) }
        ensures { Closes file (state self.old) (state self.new) };
}

/// The bytes of a path, or that they are more than was allowed.
#[derive(Drop, PartialEq, Eq)]
pub enum Whole {
    /// All bytes of the file.
    Bytes(Text),
    /// The file has more bytes than was allowed.
    TooLong,
}

/// Reads a whole file of at most `most` bytes. It answers `TooLong` exactly where the path has more, and reads no
/// further then. Its file is closed in every case.
///
/// # Errors
/// - `Failed`: always where the path is told to be missing, and then no count rises. In every other case opening or
///   reading failed, and the count of faults of the files rose.
/// - `NoMemory`: there was no memory for the bytes or for one more open file.
pub fn read_whole<F: Files>(
    alloc: Global,
    files: &mut F,
    path: &[u8],
    most: u64,
) -> Result<Whole, Stop>
    ensures { ReadsWhole path.now most result (F.state files.old) (F.state files.new) }
{
    let file = files.open_path(path)?;
    let result = read_rest(alloc, files, file, most);
    files.close(file);
    result
}

// What an open file has left. No more than `most` bytes are held at any time.
fn read_rest<F: Files>(alloc: Global, files: &mut F, file: u64, most: u64) -> Result<Whole, Stop>
    requires { IsSome ((F.state files.old).left file) }
    ensures is_open { IsSome ((F.state files.new).left file) }
    ensures rest { ReadsRest file most result (F.state files.old) (F.state files.new) }
{
    let mut bytes = Vec::new(alloc);
    let mut piece = [0u8; 8192];
    'pieces: loop {
        let count = files.read(file, &mut piece)?;
        if count == 0 {
            return Ok(Whole::Bytes(Text::of(bytes)));
        }
        if count as u64 > most - bytes.len() as u64 {
            return Ok(Whole::TooLong);
        }
        bytes.extend_from_slice(&piece[..count])?;
    }
}
