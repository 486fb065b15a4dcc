//! Reads the words.
ghost use Rattle.std.specs.Prelude.{◌≡◌, ◌≢◌, ◌≤◌, IfOk, IfErr, codes, map, string_bytes, None, Some, option_and_then, option_map, true};
ghost use Rattle.clap.specs.Words.{app_of, first_of, found_of, IsParsedFrom, is_simple_and_free, kind_of, rows_of};
ghost use Rattle.kl_words.specs.Lines.{gen_line, show_line, upgrade_line};
ghost use Rattle.kl_words.specs.Commands.{AnswersWanted, AreInRange, KeepsLimits, OnlyWants, command_of, reading};
ghost use Rattle.kl_words.specs.Commands.{has_flag, file_and_type_of, job_of, join_named, join_of, number_of};
ghost use Rattle.kl_words.specs.Commands.{numbers_of, on_job, on_program, path_at};

use crate::command::{Command, Job, WordsError};
use crate::line;
use clap::error::ErrorKind;
use clap::{ArgMatches, Error};
use kl_ask::{JoinHow, Settings};
use kl_base::Text;
use std::alloc::Global;

// What a refusal of clap is.
fn refusal(error: &Error) -> WordsError
    ensures memory { kind_of error.now ≡ ErrorKind.OutOfMemory → result ≡ WordsError.NoMemory }
    ensures usage { kind_of error.now ≢ ErrorKind.OutOfMemory → result ≡ WordsError.Usage }
{
    match error.kind() {
        ErrorKind::OutOfMemory => WordsError::NoMemory,
        _ => WordsError::Usage,
    }
}

// What clap reads of the words, of which the first is the command's name.
fn read_line<'a>(line: clap::Command<'a>, words: &'a [String]) -> Result<ArgMatches<'a>, WordsError>
    requires { is_simple_and_free (app_of line) ≡ true }
    ensures ok { IfOk result (λ matches. reading (app_of line.entry) (map string_bytes words.entry.now)
        ≡ Some (rows_of (found_of matches))) }
    ensures parsed { IfOk result (IsParsedFrom line.entry) }
    ensures usage { IfErr result (λ e. e ≡ WordsError.Usage → reading (app_of line.entry) (map string_bytes words.entry.now) ≡ None) }
{
    match line.try_get_matches_from(words) {
        Ok(matches) => Ok(matches),
        Err(error) => Err(refusal(&error)),
    }
}

fn text(alloc: Global, text: &str) -> Result<Text, WordsError>
    ensures copy { IfOk result (λ copy. copy ≡ text.now) }
    ensures wants { OnlyWants result }
{
    Ok(Text::of(Vec::from_slice(alloc, text.as_bytes())?))
}

fn path(alloc: Global, matches: &ArgMatches<'_>, id: &str) -> Result<Text, WordsError>
    ensures path { IfOk result (λ path. path ≡ path_at id.now (rows_of (found_of matches.now))) }
    ensures wants { OnlyWants result }
{
    match matches.get_str(id) {
        Some(path) => text(alloc, path),
        None => text(alloc, ""),
    }
}

fn optional_path(
    alloc: Global,
    matches: &ArgMatches<'_>,
    id: &str,
) -> Result<Option<Text>, WordsError>
    ensures path { IfOk result (λ path. path ≡ first_of id.now (rows_of (found_of matches.now))) }
    ensures wants { OnlyWants result }
{
    match matches.get_str(id) {
        Some(path) => Ok(Some(text(alloc, path)?)),
        None => Ok(None),
    }
}

fn number(matches: &ArgMatches<'_>, id: &str) -> Option<u32>
    ensures { result ≡ number_of id.now (rows_of (found_of matches.now)) }
{
    matches.get_one::<u32>(id)
}

fn flag(matches: &ArgMatches<'_>, id: &str) -> bool
    ensures { result ≡ has_flag id.now (rows_of (found_of matches.now)) }
{
    matches.get_one::<bool>(id).unwrap_or(false)
}

fn join_name(name: &str) -> Option<JoinHow>
    ensures { result ≡ join_named name.now }
{
    if name == "block" {
        Some(JoinHow::Block)
    } else if name == "index" {
        Some(JoinHow::Index)
    } else {
        None
    }
}

fn join(matches: &ArgMatches<'_>) -> Option<JoinHow>
    ensures { result ≡ join_of (rows_of (found_of matches.now)) }
{
    match matches.get_str("join") {
        Some(name) => join_name(name),
        None => Some(Settings::usual().join),
    }
}

fn job(alloc: Global, matches: &ArgMatches<'_>) -> Result<Job, WordsError>
    ensures { AnswersWanted (job_of (rows_of (found_of matches.now))) result }
{
    let Some(join) = join(matches) else {
        return Err(WordsError::Usage);
    };
    let usual = Settings::usual();
    Ok(Job {
        program: path(alloc, matches, "program")?,
        catalogue: optional_path(alloc, matches, "catalogue")?,
        settings: Settings {
            block: number(matches, "block").unwrap_or(usual.block),
            fetch: number(matches, "fetch").unwrap_or(usual.fetch),
            cache: number(matches, "cache").unwrap_or(usual.cache),
            join,
            rewrite: !flag(matches, "no-rewrite"),
            delegate: !flag(matches, "no-delegate"),
        },
        first: number(matches, "first"),
        stats: flag(matches, "stats"),
    })
}

// A job, behind a command of this name.
fn read_job(alloc: Global, name: &str, words: &[String]) -> Result<Job, WordsError>
    ensures meant { AnswersWanted (on_job name.now (map string_bytes words.now)) result }
    ensures within { IfOk result (λ job. AreInRange job.settings) }
{
    let matches = read_line(line::job(alloc, name)?, words)?;
    job(alloc, &matches)
}

// A program and perhaps a catalogue, behind a command of this name.
fn paths(alloc: Global, name: &str, words: &[String]) -> Result<(Text, Option<Text>), WordsError>
    ensures { AnswersWanted (on_program name.now (map string_bytes words.now)) result }
{
    let matches = read_line(line::program(alloc, name)?, words)?;
    Ok((
        path(alloc, &matches, "program")?,
        optional_path(alloc, &matches, "catalogue")?,
    ))
}

fn file(alloc: Global, words: &[String]) -> Result<Text, WordsError>
    ensures { AnswersWanted (option_map (path_at (codes "file")) (reading show_line (map string_bytes words.now))) result }
{
    let matches = read_line(line::show(alloc)?, words)?;
    path(alloc, &matches, "file")
}

// A file and the text of a type.
fn file_and_type(alloc: Global, words: &[String]) -> Result<(Text, Text), WordsError>
    ensures { AnswersWanted (option_map file_and_type_of (reading upgrade_line (map string_bytes words.now))) result }
{
    let matches = read_line(line::upgrade(alloc)?, words)?;
    Ok((
        path(alloc, &matches, "file")?,
        path(alloc, &matches, "type")?,
    ))
}

// A seed and a number of rows, as the arguments tell them.
fn numbers(matches: &ArgMatches<'_>) -> Result<(u32, u32), WordsError>
    ensures { AnswersWanted (numbers_of (rows_of (found_of matches.now))) result }
{
    match (number(matches, "seed"), number(matches, "size")) {
        (Some(seed), Some(size)) => Ok((seed, size)),
        _ => Err(WordsError::Usage),
    }
}

fn made(alloc: Global, words: &[String]) -> Result<(u32, u32), WordsError>
    ensures meant { AnswersWanted (option_and_then numbers_of (reading gen_line (map string_bytes words.now))) result }
    ensures within { IfOk result (λ n. n.1 ≤ 1000000) }
{
    let matches = read_line(line::made(alloc)?, words)?;
    numbers(&matches)
}

/// The command of the words, which leave out the program's own name.
///
/// `run PROGRAM [CATALOGUE]` and `explain PROGRAM [CATALOGUE]` have the options `--block N` (1 to 65,536; 256 where it is
/// not given), `--fetch N` (1 to 4,096; 64), `--cache N` (0 to 4,096; 64), `--join block` or `--join index` (the second),
/// `--no-rewrite`, `--no-delegate`, `--first N` (0 to 4,294,967,295) and `--stats`. `types PROGRAM [CATALOGUE]`, `check PROGRAM
/// [CATALOGUE]`, `show FILE`, `upgrade FILE TYPE` and `gen SEED N` (0 to 4,294,967,295; 0 to 1,000,000) have none. A number is
/// digits, with a sign before them or not.
///
/// # Errors
/// `Usage` where there is no first word or it names no command, and where the words behind it are not those of that
/// command: one too many or too few, an option that there is not, that is given twice, whose value is missing, out of its
/// range or none that it takes, a value where none is taken, or a call for help. Want of memory.
pub fn read_words(alloc: Global, words: &[String]) -> Result<Command, WordsError>
    ensures meant { AnswersWanted (command_of (map string_bytes words.now)) result }
    ensures within { IfOk result KeepsLimits }
{
    match words {
        [name, ..] if name.as_str() == "run" => Ok(Command::Run(read_job(alloc, "run", words)?)),
        [name, ..] if name.as_str() == "explain" => {
            Ok(Command::Explain(read_job(alloc, "explain", words)?))
        }
        [name, ..] if name.as_str() == "types" => {
            let (program, catalogue) = paths(alloc, "types", words)?;
            Ok(Command::Types { program, catalogue })
        }
        [name, ..] if name.as_str() == "check" => {
            let (program, catalogue) = paths(alloc, "check", words)?;
            Ok(Command::Check { program, catalogue })
        }
        [name, ..] if name.as_str() == "show" => {
            let file = file(alloc, words)?;
            Ok(Command::Show { file })
        }
        [name, ..] if name.as_str() == "upgrade" => {
            let (file, ty) = file_and_type(alloc, words)?;
            Ok(Command::Upgrade { file, ty })
        }
        [name, ..] if name.as_str() == "gen" => {
            let (seed, size) = made(alloc, words)?;
            Ok(Command::Gen { seed, size })
        }
        _ => Err(WordsError::Usage),
    }
}
