//! What is kept from item to item to spare memory.
ghost use Rattle.std.specs.Prelude.{◌≡◌, ◌≤◌, IsTrue, IfOk};
ghost use Rattle.kl_base.specs.Word.{is_word, label_of};

use kl_base::{Label, NoMemory};
use std::alloc::Global;

// How many labels are kept.
const MOST_LABELS: usize = 64;

// For how many fields room is made before the first one comes.
const MOST_ROOM: usize = 16;

/// The labels that came last, which are shared from then on, and how many fields the last record had. No contract sees
/// them.
#[derive(Drop)]
pub struct Memo {
    labels: Vec<Label>,
    // Behind the label that came last: records mostly have their fields in one order.
    next: usize,
    fields: usize,
}

impl Memo {
    pub fn new(alloc: Global) -> Memo {
        Memo {
            labels: Vec::new(alloc),
            next: 0,
            fields: 0,
        }
    }

    /// For how many fields a record may be given room.
    pub fn fields(&self) -> usize {
        self.fields
    }

    /// Keeps how many fields a record had.
    pub fn keep_fields(&mut self, count: usize) {
        self.fields = count.min(MOST_ROOM);
    }

    /// The label of these bytes, shared where it came before.
    ///
    /// # Errors
    /// Want of memory.
    pub fn label(&mut self, alloc: Global, name: &[u8]) -> Result<Option<Label>, NoMemory>
        requires { IsTrue (is_word name.now) }
        ensures { IfOk result (λ label. label ≡ label_of name.now) }
    {
        if let Some(label) = self.labels.get(self.next) {
            if label.slice() == name {
                let label = label.dup()?;
                self.next = self.next.saturating_add(1);
                return Ok(Some(label));
            }
        }
        for (i, label) in self.labels.iter().enumerate() {
            if label.slice() == name {
                let label = label.dup()?;
                self.next = i + 1;
                return Ok(Some(label));
            }
        }
        match Label::new(alloc, name)? {
            Some(label) => {
                self.keep(label.dup()?)?;
                Ok(Some(label))
            }
            None => Ok(None),
        }
    }

    fn keep(&mut self, label: Label) -> Result<(), NoMemory> {
        if self.labels.len() >= MOST_LABELS {
            self.labels.clear();
        }
        self.labels.push(label)?;
        self.next = 0;
        Ok(())
    }
}
