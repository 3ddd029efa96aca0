// What memory notes of all sets.
ghost use Rattle.std.specs.Prelude.{◌≡◌, ◌≤◌, ◌<◌, ◌*◌, ◌↔◌, IfOk, IsTrue, length, true};
ghost use Rattle.std.specs.FinSet as numbers;
ghost use Rattle.record_pages.specs.Sizes.{max_set_records};
ghost use Rattle.set_hash.specs.Place.{probes_of};
ghost use Rattle.kset.specs.Notes.{lets_show, struck, notes_of_page};
ghost use Rattle.kset.specs.Sets.{set_count, notes_of, with_notes, opening_sets, struck_in, hit_in, forgotten, tried, next_write, IsPlaceIn};

use crate::notes::SetNotes;
use entry_pool::StrikePool;
use record_pages::{Layout, Records};
use set_hash::Placed;
use std::alloc::{AllocError, Global};
use std::marker::Model;

/// What memory notes of all sets: of each its filter and its hits, the strikes of all in one pool, and how many pages were
/// tried.
#[derive(Drop)]
pub(crate) struct SetTable {
    writes: u64,
    notes: Vec<SetNotes>,
    strikes: StrikePool,
}

impl Model for SetTable {
    ghost use Rattle.kset.specs.Sets.{SetsState, sets_code};
    ghost use Rattle.kset.specs.Table.{table_of, IsTable};

    ghost Value = { SetsState };

    ghost coded = { sets_code };

    ghost view = { λ t. table_of t.writes t.notes.items t.strikes };

    ghost invariant = { λ t. IsTable t.notes.items t.strikes };
}

impl SetTable {
    /// A table of this many sets of which nothing is noted, with room for this many strikes. All memory is taken here.
    pub(crate) fn open(alloc: Global, sets: u32, strikes: u32) -> Result<SetTable, AllocError>
        requires sets { sets ≤ 65536 }
        requires strikes { strikes ≤ 524288 }
        ensures { IfOk result (λ t. t ≡ opening_sets sets strikes) }
    {
        let mut notes = Vec::with_capacity(alloc, sets as usize)?;
        for _ in 0..sets {
            notes.push(SetNotes::empty())?;
        }
        let strikes = StrikePool::open(alloc, sets, strikes)?;
        Ok(SetTable {
            writes: 0,
            notes,
            strikes,
        })
    }

    /// Whether a key with the hash of this place can be in a set.
    pub(crate) fn lets_show(&self, set: u32, placed: &Placed) -> bool
        requires set { set < set_count self.now }
        requires probes { placed.now.probes ≡ probes_of placed.now.hash }
        ensures { result ≡ lets_show (notes_of self.now set) placed.now.hash }
    {
        if !self.notes[set as usize].may_hold(placed) {
            return false;
        }
        !self.strikes.has(set, placed.hash)
    }

    /// Whether the filter of a set has no bit.
    pub(crate) fn is_empty(&self, set: u32) -> bool
        requires { set < set_count self.now }
        ensures { IsTrue result ↔ ((notes_of self.now set).filter ≡ numbers.empty) }
    {
        self.notes[set as usize].is_empty()
    }

    /// Whether a slot of a set was hit.
    pub(crate) fn was_hit(&self, set: u32, slot: usize) -> bool
        requires set { set < set_count self.now }
        requires slot { slot < max_set_records }
        ensures { result ≡ numbers.contains (notes_of self.now set).hits slot }
    {
        self.notes[set as usize].was_hit(slot)
    }

    /// Notes a hit in a slot of a set.
    pub(crate) fn hit(&mut self, set: u32, slot: usize)
        requires set { set < set_count self.old }
        requires slot { slot < max_set_records }
        ensures { self.new ≡ hit_in self.old set slot }
    {
        self.notes[set as usize].hit(slot);
    }

    /// Strikes a key in its set.
    pub(crate) fn strike(&mut self, placed: &Placed)
        requires { IsPlaceIn self.old placed.now }
        ensures struck { self.new ≡ struck_in self.old placed.now.set placed.now.hash }
        ensures ample { 8 * set_count self.old ≤ self.old.places →
            self.new ≡ with_notes self.old placed.now.set
            (struck true (notes_of self.old placed.now.set) placed.now.hash) }
    {
        if !self.notes[placed.set as usize].may_hold(placed) {
            return;
        }
        if !self.strikes.add(placed.set, placed.hash) {
            self.forget(placed.set);
        }
    }

    /// Forgets a set.
    pub(crate) fn forget(&mut self, set: u32)
        requires { set < set_count self.old }
        ensures { self.new ≡ forgotten self.old set }
    {
        self.strikes.clear(set);
        self.notes[set as usize] = SetNotes::empty();
    }

    /// Counts one more page that is tried, and gives its number.
    pub(crate) fn count_write(&mut self) -> u64
        ensures number { result ≡ next_write self.old }
        ensures tried { self.new ≡ tried self.old }
    {
        self.writes = self.writes.wrapping_add(1);
        self.writes
    }

    /// Notes that a page with these records was written for a set.
    pub(crate) fn note_page(&mut self, layout: &Layout, set: u32, records: Records<'_>)
        requires { set < set_count self.old }
        ensures { self.new ≡ with_notes self.old set (notes_of_page records.entry) }
    {
        self.strikes.clear(set);
        self.notes[set as usize] = SetNotes::of_page(layout, records);
    }
}
