// The index of a log over a pool of packed entries.
ghost use Rattle.std.specs.Prelude.{◌≡◌, ◌<◌, ◌≤◌, ◌↔◌, [], ◌∷◌, IfOk, IsErr, IsTrue, None, OnOk, OnErr, length, count_by, slice_get};
ghost use Rattle.std.specs.List.{last_or};

use crate::entries_of::{EntriesOf, entries_in, entry_of};
use crate::entry::Entry;
use crate::entry_test::{EntryTest, HasTag, LiesAt};
use crate::index_full::IndexFull;
use crate::place::Place;
use crate::rows::{lies_on, row_at, row_behind, row_behind_in, row_in};
use entry_pool::{EntryPool, NONE, PoolItem, Row};
use record_pages::Prediction;
use std::alloc::{AllocError, Global};
use std::marker::Model;

/// The live records of a log. All memory is taken when it is opened.
#[derive(Drop)]
pub struct LogIndex {
    pool: EntryPool,
}

/// Its entries, newest first. No two lie at one place.
impl Model for LogIndex {
    ghost use Rattle.klog_index.specs.Entries.{Entries};
    ghost use Rattle.klog_index.specs.Rows.{index_of, RowsApart};

    ghost Value = { Entries };

    ghost view = { λ x. index_of x.pool };

    ghost invariant = { λ x. RowsApart x.pool.rows };
}

ghost use Rattle.klog_index.specs.Entries.{Entries, with_entries, without, with_lowered, of_set, of_tag, is_of, is_of_any, passes_of, has_tag, is_at, is_in, is_on, IsFree, AreApart};
ghost use Rattle.klog_index.specs.First.{FindsFirst, oldest_but};

impl LogIndex {
    /// An index with no entry, of this many sets, for this many entries. All memory is taken here.
    pub fn open(alloc: Global, sets: u32, entries: u32) -> Result<Self, AllocError>
        requires sets { sets ≤ 65536 }
        requires entries { entries ≤ 1048576 }
        ensures { IfOk result (λ x. x ≡ record { sets = sets; limit = entries; entries = [] }) }
    {
        Ok(LogIndex {
            pool: EntryPool::open(alloc, sets, entries)?,
        })
    }

    /// How many entries there are.
    pub fn len(&self) -> usize
        ensures len { result ≡ length self.now.entries }
        ensures within { length self.now.entries ≤ self.now.limit }
        ensures apart { AreApart self.now.entries }
    {
        self.pool.len()
    }

    /// Whether there are no entries.
    pub fn is_empty(&self) -> bool
        ensures { IsTrue result ↔ (self.now.entries ≡ []) }
    {
        self.pool.len() == 0
    }

    /// Whether `add` would be refused.
    pub fn is_full(&self) -> bool
        ensures { IsTrue result ↔ (length self.now.entries ≡ self.now.limit) }
    {
        self.pool.len() == self.pool.limit()
    }

    /// Adds the entry of a new record before the others, or leaves all as it was if the index is full.
    pub fn add(
        &mut self,
        set: u32,
        tag: u16,
        place: Place,
        prediction: Prediction,
    ) -> Result<(), IndexFull>
        requires set { set < self.old.sets }
        requires segment { place.segment < 258 }
        requires page { place.page < 64 }
        requires slot { place.slot < 64 }
        requires free { IsFree place self.old.entries }
        ensures full { IsErr result ↔ (length self.old.entries ≡ self.old.limit) }
        ensures ok { OnOk result (self.new ≡ with_entries self.old
            (record { set = set; tag = tag; place = place; prediction = prediction }
            ∷ self.old.entries)) }
        ensures err { OnErr result (self.new ≡ self.old) }
    {
        if self.pool.len() == self.pool.limit() {
            return Err(IndexFull);
        }
        let Place {
            segment,
            page,
            slot,
        } = place;
        let _number = self.pool.push(PoolItem {
            set,
            tag,
            segment,
            page,
            slot,
            prediction,
        });
        Ok(())
    }

    /// Of the entries of a set with a tag, the one this many places after the newest.
    pub fn find(&self, set: u32, tag: u16, skip: usize) -> Option<Entry>
        ensures { result ≡ slice_get (of_tag set tag self.now.entries) skip }
    {
        let mut ahead = skip;
        let mut left = self.entries_of(set);
        while let Some(entry) = left.next() {
            if entry.tag == tag {
                if ahead == 0 {
                    return Some(entry);
                }
                ahead -= 1;
            }
        }
        None
    }

    /// Of the entries of a set, the one this many places after the newest.
    pub fn of_set(&self, set: u32, skip: usize) -> Option<Entry>
        ensures { result ≡ slice_get (of_set set self.now.entries) skip }
    {
        self.entries_of(set).nth(skip)
    }

    /// The entries of a set, newest first.
    pub fn entries_of(&self, set: u32) -> EntriesOf<'_>
        ensures { result ≡ of_set set self.now.entries }
    {
        entries_in(self.pool.in_set(set))
    }

    /// The oldest entry.
    pub fn oldest(&self) -> Option<Entry>
        ensures { result ≡ last_or None self.now.entries }
    {
        match self.pool.oldest() {
            Some(row) => Some(entry_of(&row.item)),
            None => None,
        }
    }

    /// How many entries a set has.
    pub fn count(&self, set: u32) -> usize
        ensures { result ≡ count_by (is_of set) self.now.entries }
    {
        let _count = self.len();
        self.entries_of(set).count()
    }

    /// From the oldest entry on, as far as they are of the segment with this name, the first that is of none of these
    /// sets. There is none if the oldest entry is of another segment, or all of this one are of these sets.
    ///
    /// Walks along the entries of the segment that are passed over, and looks at one more.
    pub fn oldest_but(&self, segment: u16, sets: &[u32]) -> Option<Entry>
        ensures { result ≡ oldest_but segment sets.now self.now.entries }
    {
        let mut left = self.pool.from_oldest();
        while let Some(row) = left.next() {
            if row.item.segment != segment {
                return None;
            }
            if !sets.contains(&row.item.set) {
                return Some(entry_of(&row.item));
            }
        }
        None
    }

    /// Of the entries of the segment with this name that are of none of these sets, the one of least page, then slot.
    ///
    /// Walks along all entries.
    pub fn first_of(&self, segment: u16, sets: &[u32]) -> Option<Entry>
        ensures { FindsFirst segment (without (is_of_any sets.now) self.now.entries) result }
    {
        let mut first = None;
        for row in self.pool.by_age() {
            let entry = entry_of(&row.item);
            if !sets.contains(&entry.set) {
                first = first_with(segment, first, &entry);
            }
        }
        first
    }

    /// Drops the entries of a set with a tag.
    pub fn drop_tag(&mut self, set: u32, tag: u16)
        ensures { self.new ≡ with_entries self.old (without (has_tag set tag) self.old.entries) }
    {
        self.drop_passing(set, &HasTag { tag });
    }

    /// Drops the entries of a set that pass a test, in one walk along the set's entries.
    pub fn drop_passing<T: EntryTest>(&mut self, set: u32, test: &T)
        ensures { self.new ≡ with_entries self.old
            (without (passes_of set (T.passing test.now)) self.old.entries) }
    {
        let mut mark = NONE;
        while let Some(row) = row_behind_in(&self.pool, set, mark) {
            if test.passes(&entry_of(&row.item)) {
                self.pool.remove_next(mark, &row);
            } else {
                mark = row.at;
            }
        }
    }

    /// Drops the entry at a place, if there is one.
    pub fn drop_at(&mut self, place: Place)
        ensures { self.new ≡ with_entries self.old (without (is_at place) self.old.entries) }
    {
        while let Some(row) = row_at(&self.pool, place) {
            self.pool.remove(row.at);
        }
    }

    /// Drops the entry of a set at a place, if there is one.
    pub fn drop_in(&mut self, set: u32, place: Place)
        ensures { self.new ≡ with_entries self.old (without (is_in set place) self.old.entries) }
    {
        self.drop_passing(set, &LiesAt { place });
    }

    /// Drops the entries of a page of the segment with this name, in one walk along all entries.
    pub fn drop_page(&mut self, segment: u16, page: u8)
        ensures { self.new ≡ with_entries self.old (without (is_on segment page) self.old.entries) }
    {
        let mut mark = NONE;
        while let Some(row) = row_behind(&self.pool, mark) {
            if lies_on(&row, segment, page) {
                self.pool.remove(row.at);
            } else {
                mark = row.at;
            }
        }
    }

    /// Lowers the prediction of the entry at a place, if there is one, by one, not below 0.
    pub fn lower(&mut self, place: Place)
        ensures { self.new ≡ with_entries self.old (with_lowered (is_at place) self.old.entries) }
    {
        if let Some(row) = row_at(&self.pool, place) {
            lower_one(&mut self.pool, row);
        }
    }

    /// Lowers the prediction of the entry of a set at a place, if there is one, by one, not below 0.
    pub fn lower_in(&mut self, set: u32, place: Place)
        ensures { self.new
            ≡ with_entries self.old (with_lowered (is_in set place) self.old.entries) }
    {
        if let Some(row) = row_in(&self.pool, set, place) {
            lower_one(&mut self.pool, row);
        }
    }
}

ghost use Rattle.std.specs.Prelude.{◌-◌, Option, List, ℕ, ◌++◌};
ghost use Rattle.entry_pool.specs.Rows.{IsHeld, with_rows, with_prediction_at};

// Lowers the prediction of one row.
fn lower_one(pool: &mut EntryPool, row: Row)
    requires { IsHeld row.at pool.old.rows }
    ensures { pool.new
        ≡ with_rows pool.old (with_prediction_at row.at (row.item.prediction - 1) pool.old.rows) }
{
    pool.set_prediction(row.at, sooner(row.item.prediction));
}

// A prediction one less, and not below 0.
fn sooner(prediction: Prediction) -> Prediction
    ensures { result ≡ prediction - 1 }
{
    let number = prediction.get();
    Prediction::new(number.saturating_sub(1)).unwrap()
}

// The first of a segment among some entries, of which the first was known, and another one.
fn first_with(segment: u16, first: Option<Entry>, entry: &Entry) -> Option<Entry>
    ensures { (es : List Entry) → FindsFirst segment es first →
        FindsFirst segment (es ++ entry.now ∷ []) result }
{
    if entry.place.segment != segment {
        return first;
    }
    match first {
        Some(e) => Some(if is_before(entry.place, e.place) {
            *entry
        } else {
            e
        }),
        None => Some(*entry),
    }
}

ghost use Rattle.klog_index.specs.First.{IsBefore};

// Whether a place lies on an earlier page, or before another one on the same page.
fn is_before(place: Place, other: Place) -> bool
    ensures { IsTrue result ↔ IsBefore place other }
{
    place.page < other.page || (place.page == other.page && place.slot < other.slot)
}
