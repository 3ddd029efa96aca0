// The sets of a lane.
ghost use Rattle.std.specs.Prelude.{◌≡◌, ◌≢◌, ◌<◌, ◌≤◌, ◌*◌, ℕ, [], List, Option, IfOk, OnErr, length, true, false};
ghost use Rattle.record_pages.specs.Sizes.{IsPageSize, max_set_records};
ghost use Rattle.set_hash.specs.Fnv.{fnv1a};
ghost use Rattle.kset.specs.Notes.{lets_show, struck};
ghost use Rattle.kset.specs.Sets.{SetsState, sets_code, set_count, notes_of, with_notes, opening_sets, has_place, struck_in, hit_in, forgotten, IsPlaceIn};
ghost use Rattle.kset.specs.Pages.{AreSpelledOn};
ghost use Rattle.kset.specs.Shown.{visible_in, visible_from, with_flags};
ghost use Rattle.kset.specs.Locate.{SetLocates};
ghost use Rattle.kset.specs.After.{with_set, after_strike};
ghost use Rattle.kset.specs.Calls.{SetLooks, SetReads, SetRewrites};

use crate::located_in_set::LocatedInSet;
use crate::page::{page_of, tell};
use crate::rewritten::Rewritten;
use crate::set_read::SetRead;
use crate::set_record::{SetRecord, SetRecords};
use crate::set_table::SetTable;
use page_device::PageDevice;
use record_pages::{Key, Layout, Looked, Records, SetPageWriter, Value, ValueBuffer};
use set_hash::{Placed, place};
use std::alloc::{AllocError, Global};
use std::marker::Model;

/// The sets of a lane. Each has a page of the device, the one with its number, and in memory a filter over the keys
/// of that page, up to eight strikes and the hits since the page was written.
///
/// The device is lent to each call that needs it. No page from the number of sets on is written.
#[derive(Drop)]
pub struct KSet<const PAGE: usize> {
    layout: Layout,
    sets: SetTable,
}

impl<const PAGE: usize> Model for KSet<PAGE> {
    ghost Value = { SetsState };

    ghost coded = { sets_code };

    ghost view = { λ k. k.sets };
}

impl<const PAGE: usize> KSet<PAGE> {
    /// The sets of a lane of this layout, all empty, with room for this many strikes in all; or `AllocError` if memory was
    /// refused. All memory that strikes, hits and filters need is taken here: 48 bytes a set, and those of `StrikePool`.
    pub fn open(alloc: Global, layout: &Layout, strikes: u32) -> Result<Self, AllocError>
        requires strikes { strikes ≤ 524288 }
        ensures opening { IfOk result (λ k. k ≡ opening_sets layout.now.sets strikes) }
        ensures shown { IfOk result (λ k.
            (held : ℕ → Option (List ℕ)) → (set : ℕ) → visible_in held k set ≡ []) }
        ensures spelled { IfOk result (λ k.
            (held : ℕ → Option (List ℕ)) → AreSpelledOn PAGE held k) }
    {
        let sets = SetTable::open(alloc, layout.sets, strikes)?;
        Ok(KSet {
            layout: *layout,
            sets,
        })
    }

    /// The slot of the first visible record of a key, and when that expires, if it is live at the moment. Its value goes into
    /// the buffer; all other answers leave the buffer as it was. A key that the filter denies or that is struck is absent without a
    /// call of the device. Nothing is noted, and no memory is taken.
    pub fn locate<D: PageDevice<PAGE>>(
        &self,
        device: &mut D,
        placed: &Placed,
        key: &[u8],
        moment: u64,
        found: &mut ValueBuffer,
    ) -> LocatedInSet
        requires page_size { IsPageSize PAGE }
        requires room { set_count self.now ≤ D.page_count device.old }
        requires place { IsPlaceIn self.now placed.now }
        requires hash { placed.now.hash ≡ fnv1a key.now }
        ensures { SetLocates PAGE D.page_count D.honest D.failures D.held placed.now
            key.now moment self.now device.old found.old result device.new found.new }
    {
        if !self.sets.lets_show(placed.set, placed) {
            return LocatedInSet::Absent;
        }
        let mut bytes = [0u8; PAGE];
        let Ok(()) = device.read(placed.set, &mut bytes) else {
            return LocatedInSet::Fault;
        };
        tell(&bytes, placed.set, key, moment, found)
    }

    /// Whether the set of a key may have it: its filter admits the key, which is not struck. No page is read.
    pub fn may_have(&self, placed: &Placed) -> bool
        requires { IsPlaceIn self.now placed.now }
        ensures { result ≡ lets_show (notes_of self.now placed.now.set) placed.now.hash }
    {
        self.sets.lets_show(placed.set, placed)
    }

    /// Notes the record in a slot of a set as hit. It cannot fail.
    pub fn touch(&mut self, set: u32, slot: usize)
        requires set { set < set_count self.old }
        requires slot { slot < max_set_records }
        ensures touched { self.new ≡ hit_in self.old set slot }
        ensures sizes { set_count self.new ≡ set_count self.old }
        ensures shown { (held : ℕ → Option (List ℕ)) →
            visible_in held self.new ≡ visible_in held self.old }
        ensures spelled { (held : ℕ → Option (List ℕ)) → AreSpelledOn PAGE held self.old →
            AreSpelledOn PAGE held self.new }
    {
        self.sets.hit(set, slot);
    }

    /// The value of the first visible record of a key, if it is live at the moment: its slot is noted as hit.
    /// `AllocError` comes only if there is a value to copy; it and all other answers change nothing.
    pub fn look<D: PageDevice<PAGE>>(
        &mut self,
        alloc: Global,
        device: &mut D,
        placed: &Placed,
        key: &Key,
        moment: u64,
    ) -> Result<Looked, AllocError>
        requires page_size { IsPageSize PAGE }
        requires room { set_count self.old ≤ D.page_count device.old }
        requires place { IsPlaceIn self.old placed.now }
        requires hash { placed.now.hash ≡ fnv1a key.now }
        ensures { SetLooks PAGE D.page_count D.honest D.failures D.held placed.now
            key.now moment self.old device.old result self.new device.new }
    {
        let mut found = ValueBuffer::empty();
        match self.locate(device, placed, key.bytes(), moment, &mut found) {
            LocatedInSet::Hit { slot, expires: _ } => {
                let Ok(value) = Value::new(alloc, found.bytes()) else {
                    return Err(AllocError);
                };
                self.touch(placed.set, slot);
                Ok(Looked::Hit(value))
            }
            LocatedInSet::Expired => Ok(Looked::Expired),
            LocatedInSet::Absent => Ok(Looked::Absent),
            LocatedInSet::Fault => Ok(Looked::Fault),
            LocatedInSet::Damaged => Ok(Looked::Damaged),
        }
    }

    /// Strikes a key: if the filter admits it, its hash joins the strikes of the set. A hash that is there adds none. A ninth
    /// distinct one forgets the set, and so does one for which the lane has no room; with room for eight a set there is always
    /// some.
    pub fn strike(&mut self, placed: &Placed)
        requires { IsPlaceIn self.old placed.now }
        ensures struck { self.new ≡ struck_in self.old placed.now.set placed.now.hash }
        ensures ample { 8 * set_count self.old ≤ self.old.places →
            self.new ≡ with_notes self.old placed.now.set
            (struck true (notes_of self.old placed.now.set) placed.now.hash) }
        ensures sizes { set_count self.new ≡ set_count self.old }
        ensures hidden { lets_show (notes_of self.new placed.now.set) placed.now.hash ≡ false }
        ensures shown { (held : ℕ → Option (List ℕ)) → visible_in held self.new
            ≡ with_set (visible_in held self.old) placed.now.set
            (after_strike (has_place self.old) (notes_of self.old placed.now.set) placed.now.hash
            (visible_in held self.old placed.now.set)) }
        ensures spelled { (held : ℕ → Option (List ℕ)) → AreSpelledOn PAGE held self.old →
            AreSpelledOn PAGE held self.new }
    {
        self.sets.strike(placed);
    }

    /// Forgets a set: its filter, its strikes and its hits become empty.
    pub fn forget(&mut self, set: u32)
        requires { set < set_count self.old }
        ensures forgotten { self.new ≡ forgotten self.old set }
        ensures sizes { set_count self.new ≡ set_count self.old }
        ensures shown { (held : ℕ → Option (List ℕ)) →
            visible_in held self.new ≡ with_set (visible_in held self.old) set [] }
        ensures spelled { (held : ℕ → Option (List ℕ)) → AreSpelledOn PAGE held self.old →
            AreSpelledOn PAGE held self.new }
    {
        self.sets.forget(set);
    }

    /// The visible records of a set, in page order, each with whether it was hit: no more than a page holds, whatever
    /// the device. Nothing is read if the filter is empty. If the page is lost, the set is forgotten; `AllocError`
    /// changes nothing, and comes only if there is a record to copy.
    pub fn read_set<D: PageDevice<PAGE>>(
        &mut self,
        alloc: Global,
        device: &mut D,
        set: u32,
    ) -> Result<SetRead, AllocError>
        requires page_size { IsPageSize PAGE }
        requires room { set_count self.old ≤ D.page_count device.old }
        requires set { set < set_count self.old }
        ensures { SetReads PAGE D.page_count D.honest D.failures D.held set self.old
            device.old result self.new device.new }
    {
        if self.sets.is_empty(set) {
            return Ok(SetRead::Records(SetRecords::new(alloc)));
        }
        let mut bytes = [0u8; PAGE];
        let Ok(()) = device.read(set, &mut bytes) else {
            return Ok(self.lose(set));
        };
        let Some(page) = page_of(&bytes, set) else {
            return Ok(self.lose(set));
        };
        let records = visible(alloc, &self.layout, &self.sets, set, page.records())?;
        Ok(SetRead::Records(records))
    }

    /// Writes the page of a set anew, with the writer's records under its number and the next write number. Once it is
    /// written, the filter holds only those records' keys, and nothing is struck or hit. If the device fails, the set
    /// is forgotten. Either way the write counts as tried.
    pub fn rewrite<D: PageDevice<PAGE>>(
        &mut self,
        device: &mut D,
        set: u32,
        writer: &SetPageWriter<PAGE>,
    ) -> Rewritten
        requires page_size { IsPageSize PAGE }
        requires room { set_count self.old ≤ D.page_count device.old }
        requires set { set < set_count self.old }
        ensures { SetRewrites PAGE D.page_count D.honest D.failures D.held set writer.now
            self.old device.old result self.new device.new }
    {
        let number = self.sets.count_write();
        let mut bytes = [0u8; PAGE];
        writer.text(set, number, &mut bytes);
        let Ok(()) = device.write(set, &bytes) else {
            self.forget(set);
            return Rewritten::Forgotten;
        };
        self.sets.note_page(&self.layout, set, writer.records());
        Rewritten::Written
    }

    // Forgets a set whose page was lost.
    fn lose(&mut self, lost: u32) -> SetRead
        requires { lost < set_count self.old }
        ensures lost { result ≡ SetRead.PageLost }
        ensures forgotten { self.new ≡ forgotten self.old lost }
        ensures spelled { (held : ℕ → Option (List ℕ)) → AreSpelledOn PAGE held self.old →
            AreSpelledOn PAGE held self.new }
    {
        self.forget(lost);
        SetRead::PageLost
    }
}

// The visible ones of these records, each with whether its slot was hit.
fn visible(
    alloc: Global,
    layout: &Layout,
    sets: &SetTable,
    set: u32,
    mut records: Records<'_>,
) -> Result<SetRecords, AllocError>
    requires few { length records ≤ max_set_records }
    requires set { set < set_count sets.now }
    ensures visible { IfOk result (λ rs.
        rs ≡ with_flags (notes_of sets.now set) (visible_from (notes_of sets.now set) 0 records.entry)) }
    ensures few { IfOk result (λ rs. length rs ≤ max_set_records) }
    ensures short { OnErr result (visible_from (notes_of sets.now set) 0 records.entry ≢ []) }
{
    let mut visible = SetRecords::new(alloc);
    for slot in 0..records.len() {
        let Some(lent) = records.next() else {
            // Each round takes one record, and there are as many rounds as records.
            unreachable!();
        };
        let placed = place(layout, lent.key);
        if !sets.lets_show(set, &placed) {
            continue;
        }
        let Ok(stored) = lent.to_record(alloc) else {
            return Err(AllocError);
        };
        let hit = sets.was_hit(set, slot);
        let Ok(()) = visible.push(SetRecord { stored, hit }) else {
            return Err(AllocError);
        };
    }
    Ok(visible)
}
