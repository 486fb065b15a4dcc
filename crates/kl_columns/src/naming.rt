//! Names for sources, made from the names of their files.
ghost use Rattle.std.specs.Prelude.{◌≡◌, false, map, IfOk};
ghost use Rattle.std.specs.List.{list_any};
ghost use Rattle.kl_lex.specs.Keywords.{is_keyword};
ghost use Rattle.kl_sources.specs.Sources.{is_taken, same};

use crate::writing::put;
use itoa::Buffer;
use kl_base::{Label, NoMemory};
use kl_catalogue::Entry;
use kl_lex::is_keyword;
use kl_scope::is_primitive;
use std::alloc::Global;

/// A name that no entry has, no keyword and no primitive's: the file's name without its ending, where that will do.
///
/// # Errors
/// Want of memory.
pub fn free_name(alloc: Global, entries: &[Entry], path: &[u8]) -> Result<Label, NoMemory>
    ensures taken { IfOk result (λ name. is_taken (map (λ e. e.name) entries.now) name ≡ false) }
    ensures keyword { IfOk result (λ name. is_keyword name ≡ false) }
{
    let stem = stem_of(alloc, path)?;
    for number in 1..u32::MAX {
        if let Some(name) = numbered(alloc, &stem, number)? {
            if !is_keyword(name.slice()) && !is_taken(entries, &name) {
                return Ok(name);
            }
        }
    }
    Err(NoMemory)
}

// Whether an entry or a primitive has the name.
fn is_taken(entries: &[Entry], name: &Label) -> bool
    ensures { result ≡ is_taken (map (λ e. e.name) entries.now) name.now }
{
    has_name(entries, name) || is_primitive(name)
}

fn has_name(entries: &[Entry], name: &Label) -> bool
    ensures { result ≡ list_any (same name.now) (map (λ e. e.name) entries.now) }
{
    for entry in entries {
        if *name == entry.name {
            return true;
        }
    }
    false
}

// The stem itself as the first name, and with its number behind it as each later one.
fn numbered(alloc: Global, stem: &[u8], number: u32) -> Result<Option<Label>, NoMemory> {
    let mut name = Vec::from_slice(alloc, stem)?;
    if number > 1 {
        put(b"_", &mut name)?;
        put(Buffer::new().format(number).as_bytes(), &mut name)?;
    }
    Label::new(alloc, &name)
}

// The file's name without its ending, made a word: `_` for each byte that no word has, and an `f` before what is no letter.
fn stem_of(alloc: Global, path: &[u8]) -> Result<Vec<u8>, NoMemory> {
    let name = file_name(path);
    let name = name.strip_suffix(b".csv").unwrap_or(name);
    let name = name.strip_suffix(b".kx").unwrap_or(name);
    let mut stem = Vec::new(alloc);
    for (i, byte) in name.iter().enumerate() {
        if i == 0 && !byte.is_ascii_alphabetic() {
            stem.push(b'f')?;
        }
        if byte.is_ascii_alphanumeric() {
            stem.push(*byte)?;
        } else {
            stem.push(b'_')?;
        }
    }
    if stem.is_empty() {
        stem.push(b'f')?;
    }
    Ok(stem)
}

// What stands behind the last slash.
fn file_name(path: &[u8]) -> &[u8] {
    let mut rest = path;
    for i in 0..path.len() {
        if path[i] == b'/' {
            rest = &path[i + 1..];
        }
    }
    rest
}
