// The hits of a history.
ghost use Rattle.std.specs.Prelude.{◌≡◌, count_by};
ghost use Rattle.load_run.specs.Summaries.{is_hit};

use trace_file::{ActRef, CallRef, History};

/// How many calls of a history are hits.
pub fn hits_of(history: &History) -> usize
    ensures { result ≡ count_by is_hit history.now }
{
    let mut hits = 0;
    for position in 0..history.len() {
        if is_hit(&history.at(position)) {
            hits += 1;
        }
    }
    hits
}

ghost use Rattle.trace_file.specs.Lent.{call_shown};

/// Whether a call read a value.
fn is_hit(call: &CallRef<'_>) -> bool
    ensures { result ≡ is_hit (call_shown call.now) }
{
    matches!(call.act, ActRef::Hit(..))
}
