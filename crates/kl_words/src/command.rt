//! What words may ask for.
ghost use Rattle.std.specs.Prelude.{◌≡◌};
ghost use Rattle.kl_words.specs.declared.command.WordsError.TheVariants.{NoMemory as WantOfMemory};

use kl_ask::Settings;
use kl_base::{NoMemory, Text};
use std::alloc::AllocError;
use thiserror::Error;

/// Why words are no command.
#[derive(Clone, Copy, Debug, PartialEq, Eq, Error)]
pub enum WordsError {
    /// The first word names no command, or the words behind it are not those of that command.
    #[error("the words are no command")]
    Usage,
    /// Want of memory.
    #[error("out of memory")]
    NoMemory,
}

impl From<NoMemory> for WordsError {
    ghost from_gives = { λ _ e. e ≡ WantOfMemory };

    fn from(_error: NoMemory) -> WordsError {
        WordsError::NoMemory
    }
}

impl From<AllocError> for WordsError {
    ghost from_gives = { λ _ e. e ≡ WantOfMemory };

    fn from(_error: AllocError) -> WordsError {
        WordsError::NoMemory
    }
}

/// What the words ask for. Programs, catalogues and files are given by their paths.
#[derive(Drop, PartialEq, Eq)]
pub enum Command {
    /// A program is run, and its value printed.
    Run(Job),
    /// What a program asks of its sources is listed. It is not run, so `first` and `stats` of the job say nothing here.
    Explain(Job),
    /// The types of a program's declarations are listed.
    Types {
        program: Text,
        catalogue: Option<Text>,
    },
    /// A program is read, and its names are looked up.
    Check {
        program: Text,
        catalogue: Option<Text>,
    },
    /// The items of a file of values are printed.
    Show {
        file: Text,
    },
    /// A file of values is printed with a head that states this type, which is given by its text.
    Upgrade {
        file: Text,
        ty: Text,
    },
    /// The program over made rows is run: with this seed, and so many rows, at most 1,000,000.
    Gen {
        seed: u32,
        size: u32,
    },
}

/// A program that is to be run or explained.
#[derive(Drop, PartialEq, Eq)]
pub struct Job {
    /// The path of the program.
    pub program: Text,
    /// The path of the catalogue of its sources. Without one there are none.
    pub catalogue: Option<Text>,
    /// How it is run.
    pub settings: Settings,
    /// After how many items the result is cut, if it is.
    pub first: Option<u32>,
    /// Whether the counts of the run are told.
    pub stats: bool,
}
