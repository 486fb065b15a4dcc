//! How often each ask was asked and how many sources could not be read, kept in the same way by every driver.
ghost use Rattle.std.specs.Prelude.{◌≡◌, ◌-◌, ◌^◌, min, Decides, OnErr, OnOk};
ghost use Rattle.kl_ask.specs.Asked.{all_times, same_ask, unread_by, with_ask};
ghost use Rattle.kl_ask.specs.declared.ask.Ask.{Ask};

use crate::ask::{Ask, DriverError};
use kl_base::NoMemory;
use std::alloc::Global;

/// The law of the kept list: two asks are counted together exactly where they are equal.
pub fn ask_laws()
    ensures { (a b : Ask) → Decides (same_ask a b) (a ≡ b) }
{}

/// Counts an ask once more. A count stands still at its greatest value.
///
/// # Errors
/// Want of memory; the list is as before then.
pub fn count_ask(alloc: Global, asked: &mut Vec<(Ask, u64)>, ask: &Ask) -> Result<(), NoMemory>
    ensures counted { OnOk result (asked.new.items ≡ with_ask ask.now asked.old.items) }
    ensures refused { OnErr result (asked.new.items ≡ asked.old.items) }
{
    for i in 0..asked.len() {
        if asked[i].0 == *ask {
            let kept = &mut asked[i];
            kept.1 = kept.1.saturating_add(1);
            return Ok(());
        }
    }
    let ask = ask.dup(alloc)?;
    asked.push((ask, 1))?;
    Ok(())
}

/// How often anything was asked. The sum stands still at its greatest value.
pub fn sum_asked(asked: &[(Ask, u64)]) -> u64
    ensures { result ≡ min (all_times asked.now) (2 ^ 64 - 1) }
{
    let mut sum = 0u64;
    for kept in asked {
        sum = sum.saturating_add(kept.1);
    }
    sum
}

/// The count of unreadable sources after a refusal. It stands still at its greatest value.
pub fn unread_by(error: &DriverError, unread: u64) -> u64
    ensures { result ≡ unread_by error.now unread }
{
    match error {
        DriverError::BadSource { .. } | DriverError::TooLong { .. } | DriverError::TooDeep { .. } =>
            unread.saturating_add(1),
        DriverError::Failed | DriverError::Changed { .. } | DriverError::NoMemory => unread,
    }
}
