//! Attached sources by their names, kept in the same way by drivers.
ghost use Rattle.std.specs.Prelude.{◌≡◌};
ghost use Rattle.std.specs.Option.{option_copied};
ghost use Rattle.kl_ask.specs.Named.{asked_source};

use crate::ask::Ask;
use kl_base::Label;
use std::collections::HashMap;

/// The attached source that is asked. None for a statement of SQL, and where none has the name.
pub fn asked_source<'a, S>(sources: &'a HashMap<Label, S>, ask: &Ask) -> Option<&'a S>
    ensures { option_copied result ≡ asked_source sources.now ask.now }
{
    match ask {
        Ask::Rows { source, .. } => sources.get(source),
        Ask::Sql { .. } => None,
    }
}
