//! The words of the command line.
ghost use Rattle.std.specs.Prelude.{◌≡◌, ◌∷◌, ◌++◌, ◌||◌, [], map, string_bytes, IfOk, OnOk};
ghost use Rattle.kl_columns.specs.Words.{are_files, is_option, is_table, is_values, paths_of, wants_sql};

use kl_base::{NoMemory, Text};
use std::alloc::Global;

/// The paths among the words.
///
/// # Errors
/// Want of memory.
pub fn paths_of(alloc: Global, words: &[String]) -> Result<Vec<Text>, NoMemory>
    ensures { IfOk result (λ paths. paths.items ≡ paths_of (map string_bytes words.now)) }
{
    let mut paths = Vec::new(alloc);
    for word in words {
        add_path(alloc, word.as_bytes(), &mut paths)?;
    }
    Ok(paths)
}

// Puts a word behind the paths, unless it is the option.
fn add_path(alloc: Global, word: &[u8], paths: &mut Vec<Text>) -> Result<(), NoMemory>
    ensures { OnOk result (paths.new.items ≡ paths.old.items ++ paths_of (word.now ∷ [])) }
{
    if !is_option(word) {
        paths.push(Text::of(Vec::from_slice(alloc, word)?))?;
    }
    Ok(())
}

/// Whether a word is the option.
pub fn wants_sql(words: &[String]) -> bool
    ensures { result ≡ wants_sql (map string_bytes words.now) }
{
    for word in words {
        if is_option(word.as_bytes()) {
            return true;
        }
    }
    false
}

fn is_option(word: &[u8]) -> bool
    ensures { result ≡ is_option word.now }
{
    word == b"--sql".as_slice()
}

/// Whether these are paths of tables and files of values, one at least.
pub fn are_files(paths: &[Text]) -> bool
    ensures { result ≡ are_files paths.now }
{
    for path in paths {
        if !is_file(path.slice()) {
            return false;
        }
    }
    !paths.is_empty()
}

fn is_file(path: &[u8]) -> bool
    ensures { result ≡ (is_table path.now || is_values path.now) }
{
    is_table(path) || is_values(path)
}

/// Whether this is the path of a table.
pub fn is_table(path: &[u8]) -> bool
    ensures { result ≡ is_table path.now }
{
    path.ends_with(b".csv")
}

fn is_values(path: &[u8]) -> bool
    ensures { result ≡ is_values path.now }
{
    path.ends_with(b".kx")
}
