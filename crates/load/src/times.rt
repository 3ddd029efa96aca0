// The times that were added to a histogram, without bytes.
ghost use Rattle.std.specs.Prelude.{◌≡◌, ℕ, ◌++◌, ◌∷◌, [], List};

use crate::times_step::TimesStep;
use std::marker::{Model, PhantomData};
use std::snapshot::Snapshot;

/// The times that were added, in order. It has no bytes: the list is there in proofs alone.
///
/// Only `after` makes one, and only its clause ties the list to anything. It owns nothing, so it goes to any thread.
pub(crate) struct Times {
    marker: PhantomData<u8>,
    pub ghost times: { List ℕ },
}

impl Model for Times {
    ghost use base.Fml.{ftrue};

    ghost also_owns = { λ _. ftrue };
}

impl Times {
    ghost use Rattle.load.specs.Trails.{times_after};

    /// The times after a step.
    pub(crate) fn after(next: &TimesStep) -> Times
        ensures { result.times ≡ times_after next.now }
    {
        let _ = next;
        Times {
            marker: PhantomData,
        }
    }
}

unsafe impl Send for Times {}

unsafe impl Sync for Times {}

impl Drop for Times {
    fn drop(self) {
        let Self { marker: _ } = self;
    }
}

/// Notes one time more.
pub(crate) fn note_added(times: &mut Times, time: u64)
    ensures { times.new.times ≡ times.old.times ++ time ∷ [] }
{
    let added = TimesStep::Added(Snapshot::of(times), Snapshot::of(&time));
    *times = Times::after(&added);
}

/// Notes the times of another list too.
pub(crate) fn note_merged(times: &mut Times, more: &Times)
    ensures { times.new.times ≡ times.old.times ++ more.now.times }
{
    let merged = TimesStep::Merged(Snapshot::of(times), Snapshot::of(more));
    *times = Times::after(&merged);
}
