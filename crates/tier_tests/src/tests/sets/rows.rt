//! What callers rely on, of any sets: the contract of each function here denies what a wrong body would do.
ghost use Rattle.std.specs.Prelude.{◌≡◌, ◌≢◌, ◌<◌, ◌≤◌, ℕ, List, All, Ok, Some, IsSome, OnErr, IsTrue, true};
ghost use Rattle.std.specs.FinSet as bits;
ghost use Rattle.record_pages.specs.Sizes.{IsPageSize, max_set_records};
ghost use Rattle.record_pages.specs.Recs.{Rec};
ghost use Rattle.record_pages.specs.Looking.{first_with};
ghost use Rattle.set_hash.specs.Fnv.{fnv1a};
ghost use Rattle.kset.specs.Notes.{lets_show};
ghost use Rattle.kset.specs.Sets.{set_count, notes_of, IsPlaceIn};
ghost use Rattle.kset.specs.Pages.{AreSpelledOn};
ghost use Rattle.kset.specs.Shown.{first_visible, visible_in};
ghost use Rattle.kset.specs.declared.located_in_set.LocatedInSet.{LocatedInSet};
ghost use Rattle.record_pages.specs.declared.looked.Looked.{Looked};
ghost use Rattle.kset.specs.declared.set_read.SetRead.{SetRead};
ghost use Rattle.kset.specs.declared.set_record.SetRecord.{SetRecord};
ghost use Rattle.tier_tests.specs.Another.{IsOfAnother};
ghost use Rattle.tier_tests.specs.SetRows.{HasExpired};

use super::*;
use record_pages::ValueBuffer;
use set_hash::Placed;

/// Off the page of another set, that an honest device has at a set's place, nothing is found; nor is there no record.
pub fn look_off_the_page_of_another_set<D: PageDevice<PAGE>, const PAGE: usize>(
    alloc: Global,
    sets: &mut KSet<PAGE>,
    device: &mut D,
    placed: &Placed,
    key: &Key,
    moment: u64,
) -> Result<Looked, AllocError>
    requires page_size { IsPageSize PAGE }
    requires room { set_count sets.old ≤ D.page_count device.old }
    requires place { IsPlaceIn sets.old placed.now }
    requires hash { placed.now.hash ≡ fnv1a key.now }
    requires honest { IsTrue (D.honest device.old) }
    requires shows { lets_show (notes_of sets.old placed.now.set) placed.now.hash ≡ true }
    requires another { IsOfAnother placed.now.set (D.held device.old placed.now.set) }
    ensures hit { (value : List ℕ) → result ≢ Ok (Looked.Hit value) }
    ensures absent { result ≢ Ok Looked.Absent }
{
    match sets.look(alloc, device, placed, key, moment) {
        Ok(looked) => Ok(looked),
        Err(error) => Err(error),
    }
}

/// A look-up of a key whose first visible record has expired notes nothing, whatever it answers.
pub fn look_at_what_expired<D: PageDevice<PAGE>, const PAGE: usize>(
    alloc: Global,
    sets: &mut KSet<PAGE>,
    device: &mut D,
    placed: &Placed,
    key: &Key,
    moment: u64,
) -> Result<Looked, AllocError>
    requires page_size { IsPageSize PAGE }
    requires room { set_count sets.old ≤ D.page_count device.old }
    requires place { IsPlaceIn sets.old placed.now }
    requires hash { placed.now.hash ≡ fnv1a key.now }
    requires honest { IsTrue (D.honest device.old) }
    requires spelled { AreSpelledOn PAGE (D.held device.old) sets.old }
    requires expired { HasExpired (visible_in (D.held device.old) sets.old placed.now.set)
        key.now moment }
    ensures { sets.new ≡ sets.old }
{
    match sets.look(alloc, device, placed, key, moment) {
        Ok(looked) => Ok(looked),
        Err(error) => Err(error),
    }
}

/// A look-up that lacks memory for the value leaves the sets as they were, whatever the device.
pub fn look_short_of_memory<D: PageDevice<PAGE>, const PAGE: usize>(
    alloc: Global,
    sets: &mut KSet<PAGE>,
    device: &mut D,
    placed: &Placed,
    key: &Key,
    moment: u64,
) -> Result<Looked, AllocError>
    requires page_size { IsPageSize PAGE }
    requires room { set_count sets.old ≤ D.page_count device.old }
    requires place { IsPlaceIn sets.old placed.now }
    requires hash { placed.now.hash ≡ fnv1a key.now }
    ensures { OnErr result (sets.new ≡ sets.old) }
{
    match sets.look(alloc, device, placed, key, moment) {
        Ok(looked) => Ok(looked),
        Err(error) => Err(error),
    }
}

/// What is located is the slot of the first visible record with the key, also among slots that were hit before, and when that
/// expires.
pub fn locate_the_first<D: PageDevice<PAGE>, const PAGE: usize>(
    sets: &KSet<PAGE>,
    device: &mut D,
    placed: &Placed,
    key: &[u8],
    moment: u64,
    found: &mut ValueBuffer,
) -> LocatedInSet
    requires page_size { IsPageSize PAGE }
    requires room { set_count sets.now ≤ D.page_count device.old }
    requires place { IsPlaceIn sets.now placed.now }
    requires hash { placed.now.hash ≡ fnv1a key.now }
    requires honest { IsTrue (D.honest device.old) }
    requires spelled { AreSpelledOn PAGE (D.held device.old) sets.now }
    ensures { (first : ℕ × Rec) →
        first_visible (visible_in (D.held device.old) sets.now placed.now.set) key.now ≡ Some first →
        (slot expires : ℕ) → result ≡ LocatedInSet.Hit slot expires →
        (slot ≡ first.0) × (expires ≡ first.1.value.expires) }
{
    sets.locate(device, placed, key, moment, found)
}

/// A touch notes its slot of its set, no other slot, and nothing of another set.
pub fn touch_one<const PAGE: usize>(sets: &mut KSet<PAGE>, set: u32, slot: usize)
    requires set { set < set_count sets.old }
    requires slot { slot < max_set_records }
    ensures noted { bits.contains (notes_of sets.new set).hits slot ≡ true }
    ensures slots { (other : ℕ) → other ≢ slot →
        bits.contains (notes_of sets.new set).hits other
        ≡ bits.contains (notes_of sets.old set).hits other }
    ensures elsewhere { (other : ℕ) → other ≢ set →
        notes_of sets.new other ≡ notes_of sets.old other }
{
    sets.touch(set, slot);
}

/// Off the page of another set no record is read, nor that there is none: the set's page is lost.
pub fn read_off_the_page_of_another_set<D: PageDevice<PAGE>, const PAGE: usize>(
    alloc: Global,
    sets: &mut KSet<PAGE>,
    device: &mut D,
    set: u32,
) -> Result<SetRead, AllocError>
    requires page_size { IsPageSize PAGE }
    requires room { set_count sets.old ≤ D.page_count device.old }
    requires set { set < set_count sets.old }
    requires honest { IsTrue (D.honest device.old) }
    requires written { (notes_of sets.old set).filter ≢ bits.empty }
    requires another { IsOfAnother set (D.held device.old set) }
    ensures { (records : List SetRecord) → result ≢ Ok (SetRead.Records records) }
{
    match sets.read_set(alloc, device, set) {
        Ok(read) => Ok(read),
        Err(error) => Err(error),
    }
}

/// A key that was just written to the page of its set is not absent there, over an honest device.
pub fn look_after_rewrite<D: PageDevice<PAGE>, const PAGE: usize>(
    alloc: Global,
    sets: &mut KSet<PAGE>,
    device: &mut D,
    writer: &SetPageWriter<PAGE>,
    placed: &Placed,
    key: &Key,
    moment: u64,
) -> Result<Option<Looked>, AllocError>
    requires page_size { IsPageSize PAGE }
    requires room { set_count sets.old ≤ D.page_count device.old }
    requires place { IsPlaceIn sets.old placed.now }
    requires hash { placed.now.hash ≡ fnv1a key.now }
    requires honest { IsTrue (D.honest device.old) }
    requires spelled { AreSpelledOn PAGE (D.held device.old) sets.old }
    requires written { IsSome (first_with key.now writer.now) }
    ensures { result ≢ Ok (Some Looked.Absent) }
{
    let Rewritten::Written = sets.rewrite(device, placed.set, writer) else {
        return Ok(None);
    };
    match sets.look(alloc, device, placed, key, moment) {
        Ok(looked) => Ok(Some(looked)),
        Err(error) => Err(error),
    }
}

/// If the page of a set could not be written, a key of the set is absent then, whatever the device.
pub fn look_after_failed_rewrite<D: PageDevice<PAGE>, const PAGE: usize>(
    alloc: Global,
    sets: &mut KSet<PAGE>,
    device: &mut D,
    writer: &SetPageWriter<PAGE>,
    placed: &Placed,
    key: &Key,
    moment: u64,
) -> Result<Looked, AllocError>
    requires page_size { IsPageSize PAGE }
    requires room { set_count sets.old ≤ D.page_count device.old }
    requires place { IsPlaceIn sets.old placed.now }
    requires hash { placed.now.hash ≡ fnv1a key.now }
    ensures { result ≡ Ok Looked.Absent }
{
    let Rewritten::Forgotten = sets.rewrite(device, placed.set, writer) else {
        return Ok(Looked::Absent);
    };
    match sets.look(alloc, device, placed, key, moment) {
        Ok(looked) => Ok(looked),
        Err(error) => Err(error),
    }
}

/// Of a key that was struck no record is read, over an honest device.
pub fn read_after_strike<D: PageDevice<PAGE>, const PAGE: usize>(
    alloc: Global,
    sets: &mut KSet<PAGE>,
    device: &mut D,
    placed: &Placed,
    key: &Key,
) -> Result<SetRead, AllocError>
    requires page_size { IsPageSize PAGE }
    requires room { set_count sets.old ≤ D.page_count device.old }
    requires place { IsPlaceIn sets.old placed.now }
    requires hash { placed.now.hash ≡ fnv1a key.now }
    requires honest { IsTrue (D.honest device.old) }
    requires spelled { AreSpelledOn PAGE (D.held device.old) sets.old }
    ensures { (records : List SetRecord) → result ≡ Ok (SetRead.Records records) →
        All (λ r. r.stored.key ≢ key.now) records }
{
    sets.strike(placed);
    match sets.read_set(alloc, device, placed.set) {
        Ok(read) => Ok(read),
        Err(error) => Err(error),
    }
}
