//! Stops at scans.
ghost use Rattle.kl_scans.specs.Scans.{StopOf};

use kl_ask::DriverError;
use kl_base::Label;
use kl_eval::EvalStop;

/// What a driver refused, as a stop at the source of this name.
pub fn stop_of(source: &Label, error: DriverError) -> EvalStop
    ensures { StopOf source.now error result }
{
    match error {
        DriverError::NoMemory => EvalStop::NoMemory,
        error => match source.dup() {
            Ok(source) => EvalStop::Driver { source, error },
            Err(_) => EvalStop::NoMemory,
        },
    }
}
