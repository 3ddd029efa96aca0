// What a user sees of a run, beside what it found.
ghost use Rattle.std.specs.Prelude.{◌≡◌, ◌*◌};

use crate::run_end::RunEnd;
use crate::run_outcome::RunOutcome;
use load::Load;
use std::io::{IsTerminal, Write};

/// The fewest operations of a load of which it is told what is done after its calls.
const LONG: u64 = 100_000;

/// All operations of a load.
pub fn operations(load: &Load) -> u64
    ensures { result ≡ load.now.callers * load.now.operations }
{
    u64::from(load.callers) * u64::from(load.operations)
}

/// Tells what is done now of a load whose callers have ended, if `err` is a terminal and the load is long. What `err`
/// refuses is not told.
pub fn tell_step<E: Write + IsTerminal>(err: &mut E, load: &Load, step: &str) {
    if operations(load) < LONG || !err.is_terminal() {
        return;
    }
    let _ = write!(err, "{step}\n");
    let _ = err.flush();
}

/// Tells how a run ended: the line of its end, if that has one, then what failed and what to do. What `err` refuses is not told.
pub fn tell_end<E: Write>(err: &mut E, load: &Load, ended: &RunOutcome) {
    let _ = ended.end.tell(err);
    tell_advice(err, load, ended.end);
    if let Some(cause) = &ended.cause {
        cause.tell(load, err);
    }
    let _ = err.flush();
}

/// Tells what to do after an end that has no cause of its own.
fn tell_advice<E: Write>(err: &mut E, load: &Load, end: RunEnd) {
    let gets = load.gets;
    let removes = load.removes;
    let _ = match end {
        RunEnd::SharesExceed => write!(
            err,
            "--gets {gets} and --removes {removes} are {} per cent: give shares of at most 100 per cent together\n",
            gets + removes
        ),
        RunEnd::OutOfMemory => write!(
            err,
            "memory was refused, or a thread to a caller: ask for fewer --callers, --operations, --sets, --memory or --entries\n"
        ),
        _ => Ok(()),
    };
}
