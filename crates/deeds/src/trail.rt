// What was asked of a store and answered, without bytes.
ghost use Rattle.std.specs.Prelude.{◌≡◌, ◌++◌, ◌∷◌, [], List};
ghost use Rattle.trace_file.specs.Lent.{act_shown};
ghost use Rattle.certificate_checker.specs.Deeds.{Deed};

use crate::trail_step::TrailStep;
use std::marker::{Model, PhantomData};
use std::snapshot::Snapshot;
use trace_file::ActRef;

/// What was asked of a store and answered since it was opened, in order. It has no bytes: the list is there in proofs alone.
///
/// Only `after` makes one, and only its clause ties the list to anything. It owns nothing, so it goes to any thread.
pub(crate) struct Trail {
    marker: PhantomData<u8>,
    pub ghost deeds: { List Deed },
}

impl Model for Trail {
    ghost use base.Fml.{ftrue};

    ghost also_owns = { λ _. ftrue };
}

impl Trail {
    ghost use Rattle.deeds.specs.Trails.{deeds_after};

    /// The trail of a store of which nothing was asked.
    pub(crate) fn new() -> Trail
        ensures { result.deeds ≡ [] }
    {
        Trail::after(&TrailStep::Opened)
    }

    /// The trail with one deed more: the key of these bytes was acted on so.
    pub(crate) fn then(&self, key: &[u8], act: ActRef<'_>) -> Trail
        ensures { result.deeds ≡ self.now.deeds
            ++ record { key = key.now; act = act_shown act.entry } ∷ [] }
    {
        Trail::after(&TrailStep::Acted(Snapshot::of(self), Snapshot::of(&key), Snapshot::of(&act)))
    }

    // The trail that a step leaves.
    fn after(next: &TrailStep<'_>) -> Trail
        ensures { result.deeds ≡ deeds_after next.now }
    {
        let _ = next;
        Trail {
            marker: PhantomData,
        }
    }
}

unsafe impl Send for Trail {}

unsafe impl Sync for Trail {}

impl Drop for Trail {
    fn drop(self) {
        let Self { marker: _ } = self;
    }
}
