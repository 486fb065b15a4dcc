//! The parts of the driver of files of values: attached sources and open cursors.
use kl_ask::Ask;
use kl_base::{Shared, Text};
use kl_heads::FileReader;
use kl_type::Ty;

/// A source: the path of its file, its type, and what the file was when it was attached: whether it had a head, which then
/// stated the type of the source's items, and how many bytes and items.
#[derive(Drop)]
pub struct Source {
    pub path: Text,
    pub ty: Ty,
    pub stated: bool,
    pub bytes: u64,
    pub count: u64,
}

/// An open cursor: its ask, its source, the number under which its file is open, the reader of that file, and how many of
/// its items were taken.
#[derive(Drop)]
pub struct Open {
    pub ask: Ask,
    pub source: Shared<Source>,
    pub file: u64,
    pub reader: FileReader,
    pub taken: u64,
}
