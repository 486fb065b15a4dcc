//! The items of a file of nested values.
ghost use Rattle.std.specs.Prelude.{IsSome};

use anyhow::{Context, Result};
use kl_exchange::{FileReader, MOST_READ, Page};
use kl_outside::{Files, HostFiles, HostSink, Sink};
use std::alloc::Global;
use std::time::Instant;

// How many bytes of a file are fetched at a time.
const PIECE: usize = 4_096;

/// Prints each item of a file, and a newline.
pub fn show(rt: HostRuntime, path: &[u8]) -> Result<()> {
    let mut files = HostFiles::new(rt);
    let mut out = HostSink::new(rt.stdout());
    let file = files.open_path(path).ok().context("no such file")?;
    show_items(rt.alloc(), file, &mut files, &mut out)
}

fn show_items<F: Files, S: Sink>(alloc: Global, file: u64, files: &mut F, out: &mut S) -> Result<()>
    requires { IsSome ((F.state files.old).left file) }
{
    let mut items = FileReader::new(alloc, file, MOST_READ, PIECE);
    let mut page = Page::new();
    'items: for _ in 0..u64::MAX {
        let Some(value) = items.next(files)? else {
            break;
        };
        page.print(&value, out)?;
        page.put(b"\n", out)?;
    }
    page.flush(out)?;
    Ok(())
}

/// Reads the items of a file, and prints how many there are.
pub fn read(rt: HostRuntime, path: &[u8]) -> Result<()> {
    let start = Instant::now(&rt)?;
    let mut files = HostFiles::new(rt);
    let file = files.open_path(path).ok().context("no such file")?;
    let count = read_items(rt.alloc(), file, &mut files)?;
    eprintln!(rt; "{} ms", start.elapsed(&rt)?.as_millis())?;
    println!(rt; "{count} items")?;
    Ok(())
}

fn read_items<F: Files>(alloc: Global, file: u64, files: &mut F) -> Result<u64>
    requires { IsSome ((F.state files.old).left file) }
{
    let mut items = FileReader::new(alloc, file, MOST_READ, PIECE);
    let mut count: u64 = 0;
    'items: for _ in 0..u64::MAX {
        match items.next(files)? {
            Some(_) => count = count.saturating_add(1),
            None => break,
        }
    }
    Ok(count)
}
