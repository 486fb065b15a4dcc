//! Reads tables.
ghost use Rattle.std.specs.Prelude.{IsTrue};
ghost use Rattle.kl_type.specs.Ground.{IsProper};
ghost use Rattle.kl_flat.specs.Columns.{is_table_type};

use anyhow::{Context, Result, bail};
use csv::{ByteRecord, ReaderBuilder};
use kl_ask::Driver;
use kl_flat::{FlatDriver, is_table_type};
use kl_outside::{HostFiles, Whole, read_whole};
use kl_type::{Ty, read_type};
use kl_value::{Label, Text};
use std::alloc::Global;
use std::time::Instant;

const MOST_BYTES: u64 = 268_435_456;

pub fn records(rt: HostRuntime, path: &str) -> Result<()> {
    let start = Instant::now(&rt)?;
    let bytes = read(rt, path)?;
    let count = count_records(rt.alloc(), bytes.slice())?;
    let time = start.elapsed(&rt)?;
    eprintln!(rt; "{} ms", time.as_millis())?;
    println!(rt; "{count} records")?;
    Ok(())
}

pub fn table(rt: HostRuntime, path: &str, ty: &str) -> Result<()> {
    let alloc = rt.alloc();
    let Ok(ty) = read_type(alloc, ty.as_bytes()) else {
        bail!("no type");
    };
    if !is_table_type(&ty) {
        bail!("no type of tables");
    }
    let name = Label::new(alloc, b"t")?.context("no word")?;
    let path = Text::of(Vec::from_slice(alloc, path.as_bytes())?);
    hold(rt, &name, &path, &ty)
}

// Attaches a table, and tells what that took.
fn hold(rt: HostRuntime, name: &Label, path: &Text, ty: &Ty) -> Result<()>
    requires suits { IsTrue (is_table_type ty.now) }
    requires proper { IsProper ty.now }
{
    let before = pages(rt)?;
    let start = Instant::now(&rt)?;
    let Some((_driver, rows)) = attached(rt, name, path, ty) else {
        bail!("no table");
    };
    let time = start.elapsed(&rt)?;
    let held = pages(rt)?;
    eprintln!(rt; "{} ms, {before} and {held} pages", time.as_millis())?;
    println!(rt; "{rows} rows")?;
    Ok(())
}

fn attached(
    rt: HostRuntime,
    name: &Label,
    path: &Text,
    ty: &Ty,
) -> Option<(FlatDriver<HostFiles>, u64)>
    requires suits { IsTrue (is_table_type ty.now) }
    requires proper { IsProper ty.now }
{
    let mut driver = FlatDriver::new(rt.alloc(), HostFiles::new(rt));
    match driver.attach(name, path, ty) {
        Ok(rows) => Some((driver, rows)),
        Err(_) => None,
    }
}

fn read(rt: HostRuntime, path: &str) -> Result<Text> {
    let mut files = HostFiles::new(rt);
    match read_whole(rt.alloc(), &mut files, path.as_bytes(), MOST_BYTES) {
        Ok(Whole::Bytes(bytes)) => Ok(bytes),
        _ => bail!("no file"),
    }
}

// The pages of memory that the system counts for the program.
fn pages(rt: HostRuntime) -> Result<u64> {
    let bytes = read(rt, "/proc/self/statm")?;
    let line = str::from_utf8(bytes.slice())?;
    let pages = line.split(' ').nth(1).context("no pages")?;
    Ok(pages.parse::<u64>()?)
}

fn count_records(alloc: Global, bytes: &[u8]) -> Result<u64> {
    let mut reader = ReaderBuilder::new()
        .has_headers(false)
        .flexible(true)
        .from_reader(alloc, bytes);
    let mut entry = ByteRecord::new(alloc);
    for count in 0..u64::MAX {
        match reader.read_byte_record(&mut entry) {
            Ok(true) => {}
            Ok(false) => return Ok(count),
            Err(_) => bail!("no record"),
        }
    }
    Ok(u64::MAX)
}
