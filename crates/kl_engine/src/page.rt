//! What is printed.
ghost use Rattle.std.specs.Prelude.{◌≡◌, ◌≢◌, [], ◌++◌, codes, map};
ghost use Rattle.kl_exchange.specs.Printing.{Puts, as_stop};
ghost use Rattle.kl_outside.specs.Sinks.{WritesWhole};
ghost use Rattle.kl_value.specs.Written.{text_of, with_commas, separator};
ghost use Rattle.kl_engine.specs.Answering.{PrintsPage};
ghost use Rattle.kl_engine.specs.Faults.{ending};
ghost use Rattle.kl_engine.specs.Showing.{write_fault};
ghost use Rattle.kl_engine.specs.Verdict.{value_page, cut_list, item_line, suffice, overflowing, list_front, well};

use crate::cut::cut;
use crate::fault::Fault;
use kl_base::Seq;
use kl_exchange::{Page, PrintError};
use kl_outside::{Sink, Stop, write_whole};
use kl_value::{Value, separator};

/// Prints a page, which has at least a newline.
///
/// # Errors
/// `Write`, where the sink refused a piece; want of memory.
pub(crate) fn print_page<S: Sink>(page: &[u8], out: &mut S) -> Result<(), Fault>
    requires { page.now ≢ [] }
    ensures { PrintsPage (well page.now) (ending result) (S.state out.old) (S.state out.new) }
{
    match write_whole(out, page) {
        Ok(()) => Ok(()),
        Err(Stop::Failed) => Err(Fault::Write),
        Err(Stop::NoMemory) => Err(Fault::NoMemory),
    }
}

/// The fault of a print that was refused.
pub(crate) fn write_fault(error: PrintError) -> Fault
    ensures { result ≡ write_fault error }
{
    match error {
        PrintError::Failed => Fault::Write,
        PrintError::NoMemory => Fault::NoMemory,
    }
}

/// Puts a value and a newline on a page.
///
/// # Errors
/// Where the page was full: the sink refused it, or memory ran out.
pub(crate) fn put_line<S: Sink>(
    value: &Value,
    page: &mut Page,
    out: &mut S,
) -> Result<(), PrintError>
    ensures { Puts (text_of value.now ++ codes "\n") (as_stop result) (S.state out.old) page.old (S.state out.new) page.new }
{
    match page.print(value, out) {
        Ok(()) => page.put(b"\n", out),
        Err(error) => Err(error),
    }
}

/// Puts a value on a page as an item, which ends with `;`, and a newline.
///
/// # Errors
/// Where the page was full: the sink refused it, or memory ran out.
pub(crate) fn put_entry<S: Sink>(
    value: &Value,
    page: &mut Page,
    out: &mut S,
) -> Result<(), PrintError>
    ensures { Puts (item_line value.now) (as_stop result) (S.state out.old) page.old (S.state out.new) page.new }
{
    match page.print(value, out) {
        Ok(()) => page.put(b";\n", out),
        Err(error) => Err(error),
    }
}

/// Prints a value and a newline.
///
/// # Errors
/// `Write`, where the sink refused a piece; want of memory.
pub(crate) fn print_value<S: Sink>(value: &Value, out: &mut S) -> Result<(), Fault>
    ensures { PrintsPage (value_page value.now) (ending result) (S.state out.old) (S.state out.new) }
{
    match print_line(value, out) {
        Ok(()) => Ok(()),
        Err(error) => Err(write_fault(error)),
    }
}

fn print_line<S: Sink>(value: &Value, out: &mut S) -> Result<(), PrintError>
    ensures { WritesWhole (text_of value.now ++ codes "\n") (as_stop result) (S.state out.old) (S.state out.new) }
{
    let mut page = Page::new();
    match put_line(value, &mut page, out) {
        Ok(()) => page.flush(out),
        Err(error) => Err(error),
    }
}

// The item at a place, behind what stands between it and the one before.
pub fn put_item<S: Sink>(
    place: usize,
    item: &Value,
    page: &mut Page,
    out: &mut S,
) -> Result<(), PrintError>
    ensures { Puts (separator place ++ text_of item.now) (as_stop result) (S.state out.old) page.old (S.state out.new) page.new }
{
    match page.put(separator(place), out) {
        Ok(()) => page.print(item, out),
        Err(error) => Err(error),
    }
}
