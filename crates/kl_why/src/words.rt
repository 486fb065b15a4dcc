//! The words of the command line.
ghost use Rattle.std.specs.Prelude.{◌≡◌, map, string_bytes, IfOk};
ghost use Rattle.kl_why.specs.Words.{paths_of};

use kl_base::{NoMemory, Text};
use std::alloc::Global;

/// The paths of a program and, if there is one, of its catalogue.
#[derive(Drop, PartialEq, Eq)]
pub struct Paths {
    pub program: Text,
    pub catalogue: Option<Text>,
}

/// The paths that the words are, one or two.
///
/// # Errors
/// Want of memory.
pub fn paths_of(alloc: Global, words: &[String]) -> Result<Option<Paths>, NoMemory>
    ensures { IfOk result (λ paths. paths ≡ paths_of (map string_bytes words.now)) }
{
    match words {
        [program] => Ok(Some(Paths {
            program: text_of(alloc, program)?,
            catalogue: None,
        })),
        [program, catalogue] => Ok(Some(Paths {
            program: text_of(alloc, program)?,
            catalogue: Some(text_of(alloc, catalogue)?),
        })),
        _ => Ok(None),
    }
}

fn text_of(alloc: Global, word: &String) -> Result<Text, NoMemory>
    ensures { IfOk result (λ text. text ≡ string_bytes word.now) }
{
    Ok(Text::of(Vec::from_slice(alloc, word.as_bytes())?))
}
