// The calls that are judged of a text.
ghost use Rattle.std.specs.Prelude.{◌≡◌, OnOk, map};
ghost use Rattle.clock_skew.specs.Widening.{widened};

use clock_skew::widened;
use std::alloc::{AllocError, Global};
use trace_file::History;

/// Widens each call by the skew of the stamps: so it is judged. With no skew nothing is copied.
pub(crate) fn widen(alloc: Global, history: &mut History, skew: u64) -> Result<(), AllocError>
    ensures { OnOk result (history.new ≡ map (widened skew) history.old) }
{
    let _calls = history.len();
    if skew == 0 {
        return Ok(());
    }
    let Ok(wider) = widened(alloc, history, skew) else {
        return Err(AllocError);
    };
    *history = wider;
    Ok(())
}
