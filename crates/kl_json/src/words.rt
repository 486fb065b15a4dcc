//! The words of the command line.
ghost use Rattle.std.specs.Prelude.{◌≡◌, IfOk, map, string_bytes};
ghost use Rattle.kl_json.specs.Words.{command_in, command_of, flag_of, is_option, make, read_line, start, step, with_file, with_flag, with_label};

use crate::choices::Choices;
use kl_base::{Label, NoMemory, Text};
use std::alloc::Global;

/// What the words ask for. Files are given by their paths.
#[derive(Drop)]
pub enum Command {
    /// The JSON values of a file are printed as exchange text.
    To(Text, Choices),
    /// The items of an exchange text are printed as JSON lines.
    From(Text),
}

// The words behind the command, as far as they were read.
#[derive(Drop)]
struct Line {
    file: Option<Text>,
    choices: Choices,
    // The label of `--null` has to come.
    label_due: bool,
    // `--` was read.
    closed: bool,
}

// What a word that begins with `-` says.
#[derive(Clone, Copy)]
enum Flag {
    Close,
    Null,
    TextNumbers,
    Words,
    Unknown,
}

/// The command of these words: `to` and a path, or `from` and a path. Behind `to` may stand `--null` and a label,
/// `--text-numbers` and `--words`, each once, before the path or behind it. Behind `--` all words are paths, and `-` alone is
/// one. None exactly where they are none.
///
/// # Errors
/// Want of memory.
pub fn read_words(alloc: Global, words: &[String]) -> Result<Option<Command>, NoMemory>
    ensures { IfOk result (λ command. command ≡ command_in (map (λ w. string_bytes w) words.now)) }
{
    match words {
        [] => Ok(None),
        [first, rest @ ..] => match read_line(alloc, rest)? {
            Some(line) => Ok(make(first.as_bytes(), line)),
            None => Ok(None),
        },
    }
}

fn make(name: &[u8], line: Line) -> Option<Command>
    ensures { result ≡ make name.now line }
{
    let Line {
        file,
        choices,
        label_due,
        closed: _,
    } = line;
    if label_due {
        return None;
    }
    match file {
        Some(file) => command_of(name, file, choices),
        None => None,
    }
}

fn command_of(name: &[u8], file: Text, choices: Choices) -> Option<Command>
    ensures { result ≡ command_of name.now file choices }
{
    if name == b"to".as_slice() {
        Some(Command::To(file, choices))
    } else if name == b"from".as_slice() && choices.is_plain() {
        Some(Command::From(file))
    } else {
        None
    }
}

fn read_line(alloc: Global, words: &[String]) -> Result<Option<Line>, NoMemory>
    ensures { IfOk result (λ line. line ≡ read_line start (map (λ w. string_bytes w) words.now)) }
{
    let mut line = Line {
        file: None,
        choices: Choices {
            null: None,
            text_numbers: false,
            words: false,
        },
        label_due: false,
        closed: false,
    };
    for word in words {
        line = match step(alloc, line, word.as_bytes())? {
            Some(next) => next,
            None => return Ok(None),
        };
    }
    Ok(Some(line))
}

// The line with one word more, where it may stand there.
fn step(alloc: Global, line: Line, word: &[u8]) -> Result<Option<Line>, NoMemory>
    ensures { IfOk result (λ next. next ≡ step line word.now) }
{
    if line.label_due {
        with_label(alloc, line, word)
    } else if line.closed || !is_option(word) {
        with_file(alloc, line, word)
    } else {
        Ok(with_flag(line, flag_of(word)))
    }
}

fn is_option(word: &[u8]) -> bool
    ensures { result ≡ is_option word.now }
{
    match word {
        [first, _, ..] => *first == b'-',
        _ => false,
    }
}

fn with_label(alloc: Global, line: Line, word: &[u8]) -> Result<Option<Line>, NoMemory>
    ensures { IfOk result (λ next. next ≡ with_label line word.now) }
{
    match Label::new(alloc, word)? {
        Some(label) => {
            let mut line = line;
            line.choices.null = Some(label);
            line.label_due = false;
            Ok(Some(line))
        }
        None => Ok(None),
    }
}

fn with_file(alloc: Global, line: Line, word: &[u8]) -> Result<Option<Line>, NoMemory>
    ensures { IfOk result (λ next. next ≡ with_file line word.now) }
{
    if line.file.is_some() {
        return Ok(None);
    }
    let mut line = line;
    line.file = Some(Text::of(Vec::from_slice(alloc, word)?));
    Ok(Some(line))
}

fn flag_of(word: &[u8]) -> Flag
    ensures { result ≡ flag_of word.now }
{
    if word == b"--".as_slice() {
        Flag::Close
    } else if word == b"--null".as_slice() {
        Flag::Null
    } else if word == b"--text-numbers".as_slice() {
        Flag::TextNumbers
    } else if word == b"--words".as_slice() {
        Flag::Words
    } else {
        Flag::Unknown
    }
}

fn with_flag(line: Line, flag: Flag) -> Option<Line>
    ensures { result ≡ with_flag line flag }
{
    let mut line = line;
    match flag {
        Flag::Close => {
            line.closed = true;
            Some(line)
        }
        Flag::Null => {
            if line.choices.null.is_some() {
                return None;
            }
            line.label_due = true;
            Some(line)
        }
        Flag::TextNumbers => {
            if line.choices.text_numbers {
                return None;
            }
            line.choices.text_numbers = true;
            Some(line)
        }
        Flag::Words => {
            if line.choices.words {
                return None;
            }
            line.choices.words = true;
            Some(line)
        }
        Flag::Unknown => None,
    }
}
