// Putting a copy back that memory has no room for.
ghost use Rattle.std.specs.Prelude.{◌≡◌};
ghost use Rattle.kset.specs.Sets.{IsPlaceIn};
ghost use Rattle.mover.specs.Lane.{lane_of};
ghost use Rattle.mover.specs.PutBack.{may_show_at, fate_of};
ghost use Rattle.mover.specs.Calls.{StorePutsBack};

use super::Store;
use crate::copy_fate::CopyFate;
use memory_cache::Pair;
use page_device::PageDevice;
use record_pages::{Pushed, is_too_large};
use set_hash::Placed;

impl<D: PageDevice<PAGE>, const PAGE: usize> Store<D, PAGE> {
    /// What a copy kept elsewhere becomes when memory has no room for it. It is dropped if the log has an entry of its set
    /// and tag, or if its set's filter admits it, unstruck: a false positive of these loses it. Otherwise it enters the log
    /// as the newest record. No admission is asked, since what it is a copy of was admitted once. No call of the device is
    /// made, and no memory taken.
    ///
    /// The caller has to hold that the pair is what its key has: that is the premise of `put_back_shows`, and is not tested.
    pub fn put_back(&mut self, pair: &Pair) -> CopyFate
        ensures { StorePutsBack PAGE D.held pair.now self.old result self.new }
    {
        let placed = self.place(&pair.key);
        if self.may_show(&placed) {
            return CopyFate::Known;
        }
        if is_too_large::<PAGE>(&pair.key, &pair.value.value) {
            return CopyFate::TooLarge;
        }
        let pushed = self.append(pair);
        fate_of(pushed)
    }

    // Whether flash may show the key of a place, as far as memory knows.
    fn may_show(&self, placed: &Placed) -> bool
        requires { IsPlaceIn self.now.sets placed.now }
        ensures { result ≡ may_show_at placed.now (lane_of D.held self.now) }
    {
        self.log.may_have(placed) || self.sets.may_have(placed)
    }
}

// What became of a copy, by what became of it as it was to enter the log.
fn fate_of(pushed: Pushed) -> CopyFate
    ensures { result ≡ fate_of pushed }
{
    match pushed {
        Pushed::Logged => CopyFate::Logged,
        Pushed::Full => CopyFate::Full,
        Pushed::IndexFull => CopyFate::IndexFull,
        Pushed::Nobody => CopyFate::Known,
        Pushed::Declined => CopyFate::Known,
    }
}
