// What enters the log, and what is struck from it.
ghost use Rattle.std.specs.Prelude.{◌≡◌, ◌≢◌, ◌<◌, ◌≤◌, ◌^◌, ℕ, [], ◌∷◌, List, Option, length, filter, not, true, false, IsTrue};
ghost use Rattle.std.specs.Bool.{OnTrue, OnFalse};
ghost use Rattle.record_pages.specs.Sizes.{IsPageSize, object_size, room, entering_prediction};
ghost use Rattle.record_pages.specs.Recs.{IsRecord, size};
ghost use Rattle.record_pages.specs.Lent.{record_shown};
ghost use Rattle.klog_index.specs.Entries.{has_tag, without};
ghost use Rattle.klog.specs.Buffer.{can_add};
ghost use Rattle.klog.specs.Log.{with_list, filling_buffer};
ghost use Rattle.klog.specs.Names.{filled_number};
ghost use Rattle.klog.specs.Shown.{IsSpelledOn, live_on, place_in};
ghost use Rattle.klog.specs.Append.{entering, sealed, put_on, is_full, entry_for, appended, AppendGives, live_entered, live_appended};

use super::KLog;
use crate::appended::Appended;
use klog_index::Place;
use record_pages::{Key, Prediction, RecordRef, TimedValue};
use set_hash::{Placed, place};
use std::mem;

/// The greatest number of a segment that holds records.
const MAX_SEGMENT: u64 = 1 << 62;

impl<const PAGE: usize> KLog<PAGE> {
    /// Adds a record of this key and value with when that expires, with the entering prediction, as the newest live
    /// one. Both refusals change nothing. No call of the device is made, and no memory taken.
    pub fn append(&mut self, key: &Key, value: &TimedValue) -> Appended
        requires page_size { IsPageSize PAGE }
        requires small { object_size key.now value.now.value ≤ room PAGE }
        ensures shape { self.new.shape ≡ self.old.shape }
        ensures gives { AppendGives PAGE self.old (entering key.now value.now) result self.new }
        ensures spelled { (held : ℕ → Option (List ℕ)) → IsSpelledOn PAGE held self.old →
            IsSpelledOn PAGE held self.new }
        ensures shown { (held : ℕ → Option (List ℕ)) → live_on held self.new
            ≡ live_appended PAGE self.old (entering key.now value.now) result
            (live_on held self.old) }
    {
        if self.index.is_full() {
            return Appended::IndexFull;
        }
        let placed = place(&self.layout, key.bytes());
        let entering = Prediction::new(Prediction::ENTERING).unwrap();
        if self.enter(placed.set, placed.tag, RecordRef::new(key, value, entering)) {
            Appended::Appended
        } else {
            Appended::Full
        }
    }

    /// Drops every live record of a set with a tag: that of the key which is placed there, and those of its neighbours.
    pub fn strike(&mut self, placed: &Placed)
        ensures shape { self.new.shape ≡ self.old.shape }
        ensures struck { self.new
            ≡ with_list self.old (without (has_tag placed.now.set placed.now.tag) self.old.entries) }
        ensures spelled { (held : ℕ → Option (List ℕ)) → IsSpelledOn PAGE held self.old →
            IsSpelledOn PAGE held self.new }
        ensures shown { (held : ℕ → Option (List ℕ)) → live_on held self.new
            ≡ filter (λ x. not (has_tag placed.now.set placed.now.tag x.0)) (live_on held self.old) }
    {
        self.index.drop_tag(placed.set, placed.tag);
    }

    // Adds a record of this set and tag if there is a place for it, and says whether there was.
    pub(super) fn enter(&mut self, set: u32, tag: u16, added: RecordRef<'_>) -> bool
        requires page_size { IsPageSize PAGE }
        requires lawful { IsRecord (record_shown added) }
        requires small { size (record_shown added) ≤ room PAGE }
        requires prediction { added.prediction ≡ entering_prediction }
        requires set { (place_in self.old.shape added.key.now).set ≡ set }
        requires tag { (place_in self.old.shape added.key.now).tag ≡ tag }
        requires listed { length self.old.entries < self.old.shape.limit }
        ensures full { result ≡ not (is_full PAGE self.old (record_shown added.entry)) }
        ensures entered { OnTrue result (self.new ≡ appended PAGE self.old (record_shown added.entry)) }
        ensures left { OnFalse result (self.new ≡ self.old) }
        ensures spelled { (held : ℕ → Option (List ℕ)) → IsSpelledOn PAGE held self.old →
            IsSpelledOn PAGE held self.new }
        ensures shown { (held : ℕ → Option (List ℕ)) → live_on held self.new
            ≡ live_entered PAGE self.old (record_shown added.entry) result
            (live_on held self.old) }
    {
        let filled = self.filled_number();
        if filled > MAX_SEGMENT {
            return false;
        }
        if self.put(set, tag, added) {
            return true;
        }
        if self.is_flushing || filled == MAX_SEGMENT {
            return false;
        }
        self.seal();
        self.put(set, tag, added)
    }

    // The filled segment becomes the flushed one.
    pub(super) fn seal(&mut self)
        requires idle { self.old.is_flushing ≡ false }
        requires some { self.old.filling ≢ [] }
        ensures sealed { self.new ≡ sealed self.old }
        ensures spelled { (held : ℕ → Option (List ℕ)) → IsSpelledOn PAGE held self.old →
            IsSpelledOn PAGE held self.new }
        ensures shown { (held : ℕ → Option (List ℕ)) →
            live_on held self.new ≡ live_on held self.old }
    {
        mem::swap(&mut self.filling, &mut self.flushing);
        self.filling.clear();
        self.is_flushing = true;
        self.done = 0;
    }

    // Adds a record to the filled segment, if that has room, and says whether it had.
    fn put(&mut self, set: u32, tag: u16, added: RecordRef<'_>) -> bool
        requires page_size { IsPageSize PAGE }
        requires lawful { IsRecord (record_shown added) }
        requires small { size (record_shown added) ≤ room PAGE }
        requires prediction { added.prediction ≡ entering_prediction }
        requires set { (place_in self.old.shape added.key.now).set ≡ set }
        requires tag { (place_in self.old.shape added.key.now).tag ≡ tag }
        requires listed { length self.old.entries < self.old.shape.limit }
        requires number { filled_number self.old ≤ 2 ^ 62 }
        ensures can { result ≡ can_add PAGE (filling_buffer self.old) (record_shown added.entry) }
        ensures put { OnTrue result (self.new ≡ put_on PAGE self.old (record_shown added.entry)) }
        ensures same { OnFalse result (self.new ≡ self.old) }
        ensures spelled { (held : ℕ → Option (List ℕ)) → IsSpelledOn PAGE held self.old →
            IsSpelledOn PAGE held self.new }
        ensures shown { (held : ℕ → Option (List ℕ)) → OnTrue result (live_on held self.new
            ≡ (entry_for PAGE self.old (record_shown added.entry), record_shown added.entry)
            ∷ live_on held self.old) }
    {
        let segment = self.name_of(self.filled_number());
        let Some(spot) = self.filling.push(added) else {
            return false;
        };
        let place = Place {
            segment,
            page: spot.page as u8,
            slot: spot.slot as u8,
        };
        let entering = Prediction::new(Prediction::ENTERING).unwrap();
        let Ok(()) = self.index.add(set, tag, place, entering) else {
            // Only a full index refuses an entry, and the log has fewer than its most.
            unreachable!();
        };
        true
    }
}
