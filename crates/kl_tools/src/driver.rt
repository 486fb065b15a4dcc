//! The driver of made rows.
ghost use Rattle.std.specs.Prelude.{◌≡◌};
ghost use Rattle.kl_tools.specs.Driver.{fresh_state, made_state};

use crate::handing::hand_next;
use crate::locator::read_locator;
use crate::parts::{Open, Source};
use crate::sources::{add_source, new_source, opened};
use crate::types::is_made_type;
use kl_ask::{Abilities, Ask, Driver, DriverError, close_cursor, count_ask, sum_asked};
use kl_base::{Label, NoMemory, Text};
use kl_type::Ty;
use kl_value::Value;
use std::alloc::Global;
use std::collections::HashMap;

/// A driver whose sources are rows by a formula. A locator is a seed and a number of rows; rows come in the order of
/// their numbers, and are made when they are pulled.
///
/// It always tells its contents, and counts no fault.
#[derive(Drop)]
pub struct MadeDriver {
    alloc: Global,
    sources: HashMap<Label, Source>,
    cursors: Vec<Option<Open>>,
    asked: Vec<(Ask, u64)>,
    handed: u64,
}

impl MadeDriver {
    /// A driver with nothing attached, no cursor open, and its counts at 0.
    pub fn new(alloc: Global) -> MadeDriver
        ensures { ⟦<MadeDriver as Driver>⟧.state result ≡ fresh_state }
    {
        MadeDriver {
            alloc,
            sources: HashMap::new(alloc),
            cursors: Vec::new(alloc),
            asked: Vec::new(alloc),
            handed: 0,
        }
    }
}

impl Driver for MadeDriver {
    ghost state = { λ d. made_state d.sources d.cursors.items d.asked.items d.handed };

    fn name(&self) -> &[u8] {
        b"made"
    }

    fn abilities(&self) -> Abilities {
        Abilities {
            select: false,
            project: false,
            join: false,
            unique: true,
        }
    }

    fn suits(&self, ty: &Ty) -> bool {
        is_made_type(ty)
    }

    fn attach(&mut self, source: &Label, locator: &Text, ty: &Ty) -> Result<u64, DriverError> {
        let Some((seed, rows)) = read_locator(locator.slice()) else {
            return Err(DriverError::BadSource { place: 0 });
        };
        let made = new_source(self.alloc, ty, seed, rows)?;
        add_source(&mut self.sources, source, made)?;
        Ok(rows)
    }

    fn start(&mut self, ask: &Ask) -> Result<u64, DriverError> {
        let cursor = self.cursors.len();
        let open = opened(self.alloc, &self.sources, ask)?;
        self.cursors.push(Some(open))?;
        match count_ask(self.alloc, &mut self.asked, ask) {
            Ok(()) => Ok(cursor as u64),
            Err(NoMemory) => {
                self.cursors.truncate(cursor);
                Err(DriverError::NoMemory)
            }
        }
    }

    fn pull(&mut self, cursor: u64, most: u32, into: &mut Vec<Value>) -> Result<bool, DriverError> {
        let cursor = cursor as usize;
        let Some(open) = &mut self.cursors[cursor] else {
            unreachable!()
        };
        match hand_next(self.alloc, open, most, into) {
            Ok(count) => {
                self.handed = self.handed.saturating_add(count);
                Ok(count > 0)
            }
            Err(NoMemory) => {
                close_cursor(&mut self.cursors, cursor);
                Err(DriverError::NoMemory)
            }
        }
    }

    fn finish(&mut self, cursor: u64) {
        close_cursor(&mut self.cursors, cursor as usize);
    }

    fn starts(&self) -> u64 {
        sum_asked(&self.asked)
    }

    fn handed(&self) -> u64 {
        self.handed
    }
}
