// What of a text is kept once it is accepted.
ghost use Rattle.std.specs.Prelude.{◌≡◌, ◌≤◌, All, OnOk, length};
ghost use Rattle.history_window.specs.Streams.{IsKept};

use history_text::TextHistory;
use history_window::{unsettled, window};
use std::alloc::{AllocError, Global};
use std::hash::BuildHasher;

/// Keeps of a text what can matter at a stamp: the window of its calls, without settled hits. No call may end before it starts.
pub(crate) fn forget<S: BuildHasher + Copy + Drop>(
    alloc: Global,
    hash_builder: S,
    text: &mut TextHistory<S>,
    bound: u64,
) -> Result<(), AllocError>
    requires { All (λ call. call.start ≤ call.end) text.old.history }
    ensures kept { OnOk result (IsKept bound text.old.history text.old.lines.items
        text.new.history text.new.lines.items) }
    ensures callers { text.new.callers ≡ text.old.callers }
    ensures as_many { length text.old.lines.items ≡ length text.old.history
        → OnOk result (length text.new.lines.items ≡ length text.new.history) }
{
    let Ok(stay) = window(alloc, hash_builder, &text.history, bound) else {
        return Err(AllocError);
    };
    let Ok(()) = text.keep(alloc, &stay) else {
        return Err(AllocError);
    };
    let Ok(left) = unsettled(alloc, hash_builder, &text.history, bound) else {
        return Err(AllocError);
    };
    match text.keep(alloc, &left) {
        Ok(()) => Ok(()),
        Err(refused) => Err(refused),
    }
}
