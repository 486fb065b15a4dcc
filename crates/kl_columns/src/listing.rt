//! The catalogue of files.
ghost use Rattle.std.specs.Prelude.{◌≡◌, ◌++◌, ◌∷◌, [], OnOk, IfOk, IfErr};
ghost use Rattle.std.specs.List.{flat_map};
ghost use Rattle.kl_catalogue.specs.Reading.{IsCatalogue};
ghost use Rattle.kl_columns.specs.Causes.{AreNotes, WhyNoCatalogue, WhyNoText};
ghost use Rattle.kl_columns.specs.Listing.{IsCatalogueOf, IsEntryFor, ListAll, Told, driver_for};
ghost use Rattle.kl_columns.specs.Writing.{entry_line};

use crate::file::type_of_file;
use crate::naming::free_name;
use crate::refusal::Refusal;
use crate::words::is_table;
use crate::writing::put_entry;
use kl_base::{Label, NoMemory, Seq, Text};
use kl_catalogue::{Catalogue, CatalogueError, Entry, read_catalogue};
use kl_outside::Files;
use kl_type::Ty;
use std::alloc::Global;

// The greatest length of a catalogue.
const MOST_BYTES: usize = 65_536;

/// The text of the catalogue of the files at these paths. What is left out of it is told behind the notes.
///
/// # Errors
/// What is wrong with the first file that is wrong, or the catalogue's length. Want of memory.
pub fn catalogue_of<F: Files>(
    alloc: Global,
    files: &mut F,
    sql: bool,
    paths: &[Text],
    notes: &mut Vec<u8>,
) -> Result<Text, Refusal>
    requires { notes.old.items ≡ [] }
    ensures lists { IfOk result (λ page. IsCatalogueOf sql (F.state files.old).told paths.now page) }
    ensures notes { IfOk result (λ page. AreNotes (F.state files.old).told paths.now notes.new.items) }
    ensures why { IfErr result (λ r. WhyNoCatalogue r sql paths.now (F.state files.old) (F.state files.new) notes.new.items) }
{
    match entries_of(alloc, files, sql, paths, notes) {
        Ok(entries) => page_of(alloc, &Seq::of(entries)),
        Err(refusal) => Err(refusal),
    }
}

fn entries_of<F: Files>(
    alloc: Global,
    files: &mut F,
    sql: bool,
    paths: &[Text],
    notes: &mut Vec<u8>,
) -> Result<Vec<Entry>, Refusal>
    requires { notes.old.items ≡ [] }
    ensures lists { IfOk result (λ entries. ListAll sql (F.state files.old).told paths.now entries.items) }
    ensures notes { IfOk result (λ entries. AreNotes (F.state files.old).told paths.now notes.new.items) }
    ensures why { IfErr result (λ r. WhyNoCatalogue r sql paths.now (F.state files.old) (F.state files.new) notes.new.items) }
{
    let mut entries = Vec::new(alloc);
    'paths: for path in paths {
        let ty = match type_of_file(alloc, files, path, notes) {
            Ok(ty) => ty,
            Err(refusal) => return Err(refusal),
        };
        let entry = entry_of(alloc, &entries, sql, path, ty)?;
        add(&mut entries, entry)?;
    }
    Ok(entries)
}

fn add(entries: &mut Vec<Entry>, entry: Entry) -> Result<(), NoMemory>
    ensures { OnOk result (entries.new.items ≡ entries.old.items ++ entry ∷ []) }
{
    entries.push(entry)?;
    Ok(())
}

fn entry_of(
    alloc: Global,
    entries: &[Entry],
    sql: bool,
    path: &Text,
    ty: Ty,
) -> Result<Entry, NoMemory>
    ensures { IfOk result (IsEntryFor entries.now sql path.now ty) }
{
    let name = free_name(alloc, entries, path.slice())?;
    let Some(driver) = Label::new(alloc, driver_name(sql, path.slice()))? else {
        return Err(NoMemory);
    };
    Ok(Entry {
        name,
        ty,
        driver,
        locator: path.dup(alloc)?,
    })
}

fn driver_name(sql: bool, path: &[u8]) -> &'static [u8]
    ensures { (told : Told) → result.now ≡ (driver_for sql told path.now).name }
{
    if !is_table(path) {
        b"nested"
    } else if sql {
        b"sql"
    } else {
        b"flat"
    }
}

// The text of a catalogue, which reads back as it.
fn page_of(alloc: Global, entries: &Catalogue) -> Result<Text, Refusal>
    ensures text { IfOk result (λ page. page ≡ flat_map entry_line entries.now) }
    ensures reads { IfOk result (λ page. IsCatalogue page entries.now) }
    ensures why { IfErr result (WhyNoText entries.now) }
{
    let page = text_of(alloc, entries)?;
    if page.len() > MOST_BYTES {
        return Err(Refusal::CatalogueBytes);
    }
    match read_catalogue(alloc, page.slice()) {
        Ok(read) => {
            if read == *entries {
                Ok(page)
            } else {
                Err(Refusal::BadCatalogue { byte: 0 })
            }
        }
        Err(CatalogueError::Bad { byte }) => Err(Refusal::BadCatalogue { byte }),
        Err(CatalogueError::TooDeep { byte }) => Err(Refusal::BadCatalogue { byte }),
        Err(CatalogueError::NoMemory) => Err(Refusal::NoMemory),
    }
}

fn text_of(alloc: Global, entries: &Catalogue) -> Result<Text, NoMemory>
    ensures { IfOk result (λ page. page ≡ flat_map entry_line entries.now) }
{
    let mut page = Vec::new(alloc);
    for entry in entries.slice() {
        put_entry(alloc, entry, &mut page)?;
    }
    Ok(Text::of(page))
}
