// Gets of a lane.
ghost use Rattle.std.specs.Prelude.{◌≡◌, ◌≤◌, length};
ghost use Rattle.record_pages.specs.Bounded.{IsKey};
ghost use Rattle.c_lane.specs.Lane.{laws_of};
ghost use Rattle.c_lane.specs.Getting.{Answers, AnswersOrLeases, LeasesKey, RefusesGet, TellsAnswer};

use super::CLane;
use crate::copying::copy_front;
use crate::hit::Hit;
use crate::status::Status;
use mover::AnswerKind;
use page_device::PageDevice;
use record_pages::{Key, ValueBuffer};
use service_lane::Lease;

impl<D: PageDevice<4096>> CLane<D> {
    /// Looks a key up. At `Done` its value stands at the front of the buffer, the rest of which is as it was; at any other status
    /// the whole buffer is. A miss is `Absent`, `Expired`, `Unreadable` or `Damaged`; `ShortBuffer` is a hit whose value is longer
    /// than the buffer. The hit is given at `Done` and `ShortBuffer`, with when it expires, and is all zeros otherwise. `WrongKey` changes
    /// nothing. No memory is taken.
    ///
    /// The moment is the caller's, in the unit in which puts say when they expire.
    pub fn get(&mut self, key: &[u8], moment: u64, into: &mut [u8], hit: &mut Hit) -> Status
        ensures answered { IsKey key.now →
            Answers (laws_of D.honest D.failures D.held) key.now moment into.old self.old result self.new into.new hit.new }
        ensures wrong_key { (IsKey key.now → ⊥) →
            RefusesGet into.old self.old result self.new into.new hit.new }
    {
        let seen = match self.lane.get(key, moment, &mut self.found) {
            Ok(seen) => seen,
            Err(_) => {
                *hit = Hit::none();
                return Status::WrongKey;
            }
        };
        told(seen, &self.found, into, hit)
    }

    /// Looks a key up as `get` does, and leases it at a miss: `lease` is given then, and stays at any
    /// other status. It ends with the next put, fill or removal of the key, or of another key of its slot.
    pub fn get_or_lease(
        &mut self,
        key: &[u8],
        moment: u64,
        into: &mut [u8],
        hit: &mut Hit,
        lease: &mut Lease,
    ) -> Status
        ensures answered { IsKey key.now → AnswersOrLeases (laws_of D.honest D.failures D.held) key.now moment into.old lease.old self.old
            result self.new into.new hit.new lease.new }
        ensures wrong_key { (IsKey key.now → ⊥) →
            RefusesGet into.old self.old result self.new into.new hit.new }
        ensures no_lease { (IsKey key.now → ⊥) → lease.new ≡ lease.old }
    {
        let status = self.get(key, moment, into, hit);
        if status.is_miss() {
            *lease = self.lane.lease(key);
        }
        status
    }

    /// Leases a key, whether it is there or not: in the same hold as a get that hit it, for a fill in place of what was hit.
    /// `Done`, and `lease` is given, which ends as that of `get_or_lease` does; or `WrongKey`, which
    /// changes nothing. No memory is taken.
    pub fn lease(&mut self, key: &[u8], lease: &mut Lease) -> Status
        ensures leased { IsKey key.now → LeasesKey key.now self.old result self.new lease.new }
        ensures wrong_key { (IsKey key.now → ⊥) →
            (result ≡ Status.WrongKey) × (self.new ≡ self.old) × (lease.new ≡ lease.old) }
    {
        if key.is_empty() || key.len() > Key::MAX_LEN {
            return Status::WrongKey;
        }
        *lease = self.lane.lease(key);
        Status::Done
    }
}

// Tells what was seen, the value of a hit being in `found`.
fn told(seen: AnswerKind, found: &ValueBuffer, into: &mut [u8], hit: &mut Hit) -> Status
    ensures { TellsAnswer seen found.now into.old result into.new hit.new }
{
    match seen {
        AnswerKind::Hit { tier, expires } => {
            *hit = Hit::of(found.bytes(), tier, expires);
            copy_front(found.bytes(), into)
        }
        AnswerKind::Miss(cause) => {
            *hit = Hit::none();
            Status::of_miss(cause)
        }
    }
}
