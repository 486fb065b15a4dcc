//! The words of the command line.
ghost use Rattle.std.specs.Prelude.{◌≡◌, IfOk, is_some, map, option_map, string_bytes};
ghost use Rattle.kl_base.specs.Fields.{field};
ghost use Rattle.kl_tidy.specs.Words.{as_decimals, command_in, command_of, decimals_of, delimiter_of, flag_of, is_option, nothing_asked, option_due};
ghost use Rattle.kl_tidy.specs.Words.{read_words, step, with_decimals, with_kind, with_path, with_value, word_read};

use kl_base::{NoMemory, Seq, Text};
use kl_prim::number_in;
use std::alloc::Global;

// The most decimals that an integer of 64 bits can have.
const MOST_DECIMALS: i64 = 18;

/// What the words ask for.
#[derive(Drop)]
pub struct Command {
    /// The path of a table.
    pub path: Text,
    /// The byte between its cells.
    pub delimiter: u8,
    /// What empty cells become, of columns by their printed names.
    pub missing: Seq<(Text, Text)>,
    /// How many decimals cells have as integers, of columns by their printed names.
    pub scale: Seq<(Text, u8)>,
}

// What was asked for so far.
#[derive(Drop)]
struct Asked {
    path: Option<Text>,
    delimiter: Option<u8>,
    missing: Seq<(Text, Text)>,
    scale: Seq<(Text, u8)>,
}

// The word that has to come.
#[derive(Drop)]
enum Due {
    // A path or an option.
    Any,
    // The kind of `--from`.
    Kind,
    // The column of `--missing`, and then its value.
    Filled,
    Value(Text),
    // The column of `--scale`, and then its number of decimals.
    Scaled,
    Decimals(Text),
}

// What was read of the words.
#[derive(Drop)]
struct Line {
    asked: Asked,
    due: Due,
}

// What a word that begins with `--` says.
#[derive(Clone, Copy)]
enum Flag {
    From,
    Missing,
    Scale,
    Unknown,
}

/// The command of these words: a path, with `--from tab` or `--from semicolon`, with `--missing`, a column and a value, and
/// with `--scale`, a column and a number from 0 to 18, before it or behind it. `--from` stands once, and each of the others
/// once for a column. None exactly where they are none.
///
/// # Errors
/// Want of memory.
pub fn command_of(alloc: Global, words: &[String]) -> Result<Option<Command>, NoMemory>
    ensures { IfOk result (λ command. command ≡ command_of (map string_bytes words.now)) }
{
    match read_words(alloc, words)? {
        Some(line) => Ok(command_in(line)),
        None => Ok(None),
    }
}

fn command_in(line: Line) -> Option<Command>
    ensures { result ≡ command_in line }
{
    let Line { asked, due } = line;
    let Asked {
        path,
        delimiter,
        missing,
        scale,
    } = asked;
    match (path, due) {
        (Some(path), Due::Any) => Some(Command {
            path,
            delimiter: delimiter.unwrap_or(b','),
            missing,
            scale,
        }),
        _ => None,
    }
}

fn read_words(alloc: Global, words: &[String]) -> Result<Option<Line>, NoMemory>
    ensures { IfOk result (λ line. line ≡ read_words nothing_asked (map string_bytes words.now)) }
{
    let mut line = Line {
        asked: Asked {
            path: None,
            delimiter: None,
            missing: Seq::of(Vec::new(alloc)),
            scale: Seq::of(Vec::new(alloc)),
        },
        due: Due::Any,
    };
    for word in words {
        line = match step(alloc, line, word.as_bytes())? {
            Some(next) => next,
            None => return Ok(None),
        };
    }
    Ok(Some(line))
}

// One word more, where it may stand there.
fn step(alloc: Global, line: Line, word: &[u8]) -> Result<Option<Line>, NoMemory>
    ensures { IfOk result (λ next. next ≡ step line word.now) }
{
    let Line { asked, due } = line;
    match due {
        Due::Any => word_read(alloc, asked, word),
        Due::Kind => Ok(with_kind(asked, word)),
        Due::Filled => Ok(Some(Line {
            asked,
            due: Due::Value(copy(alloc, word)?),
        })),
        Due::Value(column) => with_value(alloc, asked, column, word),
        Due::Scaled => Ok(Some(Line {
            asked,
            due: Due::Decimals(copy(alloc, word)?),
        })),
        Due::Decimals(column) => with_decimals(asked, column, word),
    }
}

fn word_read(alloc: Global, asked: Asked, word: &[u8]) -> Result<Option<Line>, NoMemory>
    ensures { IfOk result (λ next. next ≡ word_read asked word.now) }
{
    if is_option(word) {
        return Ok(option_due(asked, flag_of(word)));
    }
    with_path(alloc, asked, word)
}

fn option_due(asked: Asked, flag: Flag) -> Option<Line>
    ensures { result ≡ option_due asked flag }
{
    match flag {
        Flag::From => Some(Line {
            asked,
            due: Due::Kind,
        }),
        Flag::Missing => Some(Line {
            asked,
            due: Due::Filled,
        }),
        Flag::Scale => Some(Line {
            asked,
            due: Due::Scaled,
        }),
        Flag::Unknown => None,
    }
}

fn with_path(alloc: Global, asked: Asked, word: &[u8]) -> Result<Option<Line>, NoMemory>
    ensures { IfOk result (λ next. next ≡ with_path asked word.now) }
{
    if asked.path.is_some() {
        return Ok(None);
    }
    let mut asked = asked;
    asked.path = Some(copy(alloc, word)?);
    Ok(Some(Line {
        asked,
        due: Due::Any,
    }))
}

fn with_kind(asked: Asked, word: &[u8]) -> Option<Line>
    ensures { result ≡ with_kind asked word.now }
{
    if asked.delimiter.is_some() {
        return None;
    }
    match delimiter_of(word) {
        Some(delimiter) => {
            let mut asked = asked;
            asked.delimiter = Some(delimiter);
            Some(Line {
                asked,
                due: Due::Any,
            })
        }
        None => None,
    }
}

fn with_value(
    alloc: Global,
    asked: Asked,
    column: Text,
    word: &[u8],
) -> Result<Option<Line>, NoMemory>
    ensures { IfOk result (λ next. next ≡ with_value asked column word.now) }
{
    if value_at(asked.missing.slice(), column.slice()).is_some() {
        return Ok(None);
    }
    let Asked {
        path,
        delimiter,
        missing,
        scale,
    } = asked;
    let mut missing = missing.into_vec();
    missing.push((column, copy(alloc, word)?))?;
    Ok(Some(Line {
        asked: Asked {
            path,
            delimiter,
            missing: Seq::of(missing),
            scale,
        },
        due: Due::Any,
    }))
}

fn with_decimals(asked: Asked, column: Text, word: &[u8]) -> Result<Option<Line>, NoMemory>
    ensures { IfOk result (λ next. next ≡ with_decimals asked column word.now) }
{
    if value_at(asked.scale.slice(), column.slice()).is_some() {
        return Ok(None);
    }
    let Some(decimals) = decimals_of(word) else {
        return Ok(None);
    };
    let Asked {
        path,
        delimiter,
        missing,
        scale,
    } = asked;
    let mut scale = scale.into_vec();
    scale.push((column, decimals))?;
    Ok(Some(Line {
        asked: Asked {
            path,
            delimiter,
            missing,
            scale: Seq::of(scale),
        },
        due: Due::Any,
    }))
}

/// What stands at a label, first.
pub fn value_at<'a, T>(pairs: &'a [(Text, T)], label: &[u8]) -> Option<&'a T>
    ensures { option_map (λ found. found.now) result ≡ field label.now pairs.now }
{
    for pair in pairs {
        if label == pair.0.slice() {
            return Some(&pair.1);
        }
    }
    None
}

fn copy(alloc: Global, word: &[u8]) -> Result<Text, NoMemory>
    ensures { IfOk result (λ text. text ≡ word.now) }
{
    Ok(Text::of(Vec::from_slice(alloc, word)?))
}

fn flag_of(word: &[u8]) -> Flag
    ensures { result ≡ flag_of word.now }
{
    if word == b"--from".as_slice() {
        Flag::From
    } else if word == b"--missing".as_slice() {
        Flag::Missing
    } else if word == b"--scale".as_slice() {
        Flag::Scale
    } else {
        Flag::Unknown
    }
}

fn delimiter_of(kind: &[u8]) -> Option<u8>
    ensures { result ≡ delimiter_of kind.now }
{
    if kind == b"tab".as_slice() {
        Some(b'\t')
    } else if kind == b"semicolon".as_slice() {
        Some(b';')
    } else {
        None
    }
}

fn decimals_of(word: &[u8]) -> Option<u8>
    ensures { result ≡ decimals_of word.now }
{
    match number_in(word) {
        Some(number) => as_decimals(number),
        None => None,
    }
}

fn as_decimals(number: i64) -> Option<u8>
    ensures { result ≡ as_decimals number }
{
    if number < 0 || number > MOST_DECIMALS {
        None
    } else {
        Some(number as u8)
    }
}

fn is_option(word: &[u8]) -> bool
    ensures { result ≡ is_option word.now }
{
    word.starts_with(b"--")
}
