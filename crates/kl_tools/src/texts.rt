//! The program over made rows, and its catalogue.
ghost use Rattle.std.specs.Prelude.{◌≡◌, ◌≤◌, ◌++◌, IfOk, length};
ghost use Rattle.kl_tools.specs.Texts.{catalogue_text, program_text, source_text};

use itoa::Buffer;
use kl_base::{NoMemory, Text};
use std::alloc::Global;

/// The texts of a program and of the catalogue of its sources.
#[derive(Drop)]
pub struct GenTexts {
    pub program: Text,
    pub catalogue: Text,
}

const PROGRAM: &[u8] =
    b"define big == {|[id=x.id, name=y.name] | \\x <- g, \\y <- h, x.grp = y.id|};\n\
    [groups=count({x.grp | \\x <- g}), join=count(big), rows=count(g), total=sum({|x.grp | \\x <- g|})];\n";

/// The program that `gen` runs, and its catalogue: a source `g` of so many made rows and a source `h` of 100, with one
/// seed; the groups of `g`, its join with `h`, its rows, and the sum of its groups.
///
/// # Errors
/// Want of memory.
pub fn gen_texts(alloc: Global, seed: u32, size: u32) -> Result<GenTexts, NoMemory>
    ensures program { IfOk result (λ texts. texts.program ≡ program_text) }
    ensures catalogue { IfOk result (λ texts. texts.catalogue ≡ catalogue_text seed size) }
    ensures short { IfOk result (λ texts. length texts.catalogue ≤ 65536) }
{
    let program = Text::of(Vec::from_slice(alloc, PROGRAM)?);
    let catalogue = catalogue_text(alloc, seed, size)?;
    Ok(GenTexts { program, catalogue })
}

fn catalogue_text(alloc: Global, seed: u32, size: u32) -> Result<Text, NoMemory>
    ensures { IfOk result (λ text. text ≡ catalogue_text seed size) }
{
    let mut bytes = Vec::new(alloc);
    put_source(&mut bytes, b"g", seed, size)?;
    put_source(&mut bytes, b"h", seed, 100)?;
    Ok(Text::of(bytes))
}

// Appends the entry of a made source.
fn put_source(bytes: &mut Vec<u8>, name: &[u8], seed: u32, size: u32) -> Result<(), NoMemory>
    ensures { IfOk result (λ x. bytes.new.items ≡ bytes.old.items ++ source_text name.now seed size) }
{
    bytes.extend_from_slice(b"source ")?;
    bytes.extend_from_slice(name)?;
    bytes.extend_from_slice(b" : {|[grp: int, id: int, name: string]|} = made \"")?;
    bytes.extend_from_slice(Buffer::new().format(seed).as_bytes())?;
    bytes.extend_from_slice(b" ")?;
    bytes.extend_from_slice(Buffer::new().format(size).as_bytes())?;
    bytes.extend_from_slice(b"\";\n")?;
    Ok(())
}
