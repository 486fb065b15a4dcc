//! What `check` does with a program's text: it reads it, looks its names up, and prints that it is well.
ghost use Rattle.std.specs.Prelude.{◌≤◌, List, length};
ghost use Rattle.kl_ask.specs.Driver.{State};
ghost use Rattle.kl_outside.specs.Files.{FilesState};
ghost use Rattle.kl_engine.specs.Answering.{DoesText};
ghost use Rattle.kl_engine.specs.Faults.{ending};
ghost use Rattle.kl_engine.specs.Outside.{outside_of};
ghost use Rattle.kl_engine.specs.declared.top.Purpose.TheVariants.{Check};

use crate::fault::Fault;
use crate::page::print_page;
use crate::read::read_over;
use kl_outside::Sink;
use kl_sources::Source;
use std::alloc::Global;

/// Checks the program that a text is, over these sources.
///
/// # Errors
/// The text is no program in scope. `Write`, where the sink refused the line; want of memory.
pub fn check<S: Sink>(
    alloc: Global,
    text: &[u8],
    sources: &[Source],
    out: &mut S,
) -> Result<(), Fault>
    requires { length text.now ≤ 65536 }
    ensures { (files : FilesState) (ds : List State) → DoesText sources.now Check text.now (ending result)
        (outside_of files ds (S.state out.old)) (outside_of files ds (S.state out.new)) }
{
    match read_over(alloc, text, sources) {
        Ok(_) => print_page(b"ok\n", out),
        Err(fault) => Err(fault),
    }
}
