//! What callers rely on, of every log that meets the `requires`: the contract of each function here denies what a wrong
//! body would do.
ghost use Rattle.std.specs.Prelude.{false, ◌≡◌, ◌≢◌, ◌≤◌, ℕ, List, Some, None, Ok, IfOk, IfSome, IsSomeAnd, IsTrue, All, Contains, find, slice_get, length, ◌∷◌};
ghost use Rattle.std.specs.Option.{option_map};
ghost use Rattle.record_pages.specs.Sizes.{IsPageSize, object_size, room, entering_prediction};
ghost use Rattle.record_pages.specs.Expiry.{value_at};
ghost use Rattle.record_pages.specs.Recs.{Rec};
ghost use Rattle.klog_index.specs.declared.entry.Entry.{Entry};
ghost use Rattle.record_pages.specs.declared.looked.Looked.{Looked};
ghost use Rattle.klog_index.specs.Entries.{is_in, is_of, of_tag, lowered};
ghost use Rattle.klog.specs.declared.located_in_log.LocatedInLog.{LocatedInLog};
ghost use Rattle.klog.specs.declared.flushed.Flushed.{Flushed};
ghost use Rattle.klog.specs.declared.readmitted.Readmitted.{Readmitted};
ghost use Rattle.klog.specs.declared.set_taken.SetTaken.{SetTaken};
ghost use Rattle.klog.specs.declared.taken_record.TakenRecord.{TakenRecord};
ghost use Rattle.klog.specs.Names.{HasRoom, segment_of, flushed_number, device_page};
ghost use Rattle.klog.specs.Shown.{IsSpelledOn, live_on, newest_with, place_in};
ghost use Rattle.klog.specs.Flush.{is_on_page};
ghost use Rattle.klog.specs.Moves.{IsOfOldest, taken_as};
ghost use Rattle.klog.specs.Locate.{looked_of};
ghost use Rattle.klog.specs.Calls.{LogLooks};
ghost use Rattle.tier_tests.specs.Telling.{looked_by};

use super::*;
use klog::names_tell_numbers;
use record_pages::{TimedValue, ValueBuffer};
use set_hash::Placed;

/// A record that was just appended is found, or has expired at the moment, over any device, and the device is not called.
pub fn look_after_append<D: PageDevice<PAGE>, const PAGE: usize>(
    alloc: Global,
    log: &mut KLog<PAGE>,
    device: &mut D,
    placed: &Placed,
    key: &Key,
    value: &TimedValue,
    moment: u64,
) -> Result<Option<Looked>, AllocError>
    requires page_size { IsPageSize PAGE }
    requires small { object_size key.now value.now.value ≤ room PAGE }
    requires pages { HasRoom (D.page_count device.old) log.old }
    requires place { placed.now ≡ place_in log.old.shape key.now }
    ensures { IfOk result (λ found. IfSome found (λ l. l ≡ looked_by (value_at moment value.now))
        × (device.new ≡ device.old)) }
{
    let _key = key.bytes();
    let _value = value.value.bytes();
    let _expires = value.expires();
    let Appended::Appended = log.append(key, value) else {
        return Ok(None);
    };
    match log.look(alloc, device, placed, key, moment) {
        Ok(looked) => Ok(Some(looked)),
        Err(error) => Err(error),
    }
}

/// A key that was struck is absent, over any device, and the device is not called.
pub fn look_after_strike<D: PageDevice<PAGE>, const PAGE: usize>(
    alloc: Global,
    log: &mut KLog<PAGE>,
    device: &mut D,
    placed: &Placed,
    key: &Key,
    moment: u64,
) -> Result<Looked, AllocError>
    requires page_size { IsPageSize PAGE }
    requires pages { HasRoom (D.page_count device.old) log.old }
    requires place { placed.now ≡ place_in log.old.shape key.now }
    ensures absent { result ≡ Ok Looked.Absent }
    ensures idle { device.new ≡ device.old }
{
    log.strike(placed);
    match log.look(alloc, device, placed, key, moment) {
        Ok(looked) => Ok(looked),
        Err(error) => Err(error),
    }
}

/// After a step that wrote its page, an honest device gives what was live, and all other pages are as they were.
pub fn look_after_write<D: PageDevice<PAGE>, const PAGE: usize>(
    alloc: Global,
    log: &mut KLog<PAGE>,
    device: &mut D,
    placed: &Placed,
    key: &Key,
    moment: u64,
) -> Result<Option<Looked>, AllocError>
    requires page_size { IsPageSize PAGE }
    requires pages { HasRoom (D.page_count device.old) log.old }
    requires place { placed.now ≡ place_in log.old.shape key.now }
    requires honest { IsTrue (D.honest device.old) }
    requires spelled { IsSpelledOn PAGE (D.held device.old) log.old }
    ensures hit { (value : List ℕ) → result ≡ Ok (Some (Looked.Hit value)) →
        option_map (λ x. value_at moment x.1.value)
        (newest_with (live_on (D.held device.old) log.old) key.now) ≡ Some (Some value) }
    ensures expired { result ≡ Ok (Some Looked.Expired) →
        option_map (λ x. value_at moment x.1.value)
        (newest_with (live_on (D.held device.old) log.old) key.now) ≡ Some None }
    ensures absent { result ≡ Ok (Some Looked.Absent) →
        newest_with (live_on (D.held device.old) log.old) key.now ≡ None }
    ensures whole { result ≢ Ok (Some Looked.Damaged) }
    ensures elsewhere { (page : ℕ) →
        page ≢ device_page log.old (flushed_number log.old) log.old.done →
        D.held device.new page ≡ D.held device.old page }
{
    let Flushed::Wrote = log.flush_step(device) else {
        return Ok(None);
    };
    match log.look(alloc, device, placed, key, moment) {
        Ok(looked) => Ok(Some(looked)),
        Err(error) => Err(error),
    }
}

/// After any step, an honest device gives the newest value of a key, if it is live at the moment, unless that was on the page that the step may lose.
pub fn look_after_step<D: PageDevice<PAGE>, const PAGE: usize>(
    alloc: Global,
    log: &mut KLog<PAGE>,
    device: &mut D,
    placed: &Placed,
    key: &Key,
    moment: u64,
) -> Result<Looked, AllocError>
    requires page_size { IsPageSize PAGE }
    requires pages { HasRoom (D.page_count device.old) log.old }
    requires place { placed.now ≡ place_in log.old.shape key.now }
    requires honest { IsTrue (D.honest device.old) }
    requires spelled { IsSpelledOn PAGE (D.held device.old) log.old }
    ensures there { (newest : Entry × Rec) →
        newest_with (live_on (D.held device.old) log.old) key.now ≡ Some newest →
        is_on_page log.old (flushed_number log.old) log.old.done newest.0 ≡ false →
        result ≢ Ok Looked.Absent }
    ensures hit { (newest : Entry × Rec) →
        newest_with (live_on (D.held device.old) log.old) key.now ≡ Some newest →
        is_on_page log.old (flushed_number log.old) log.old.done newest.0 ≡ false →
        (value : List ℕ) → result ≡ Ok (Looked.Hit value) →
        value_at moment newest.1.value ≡ Some value }
{
    log.flush_step(device);
    match log.look(alloc, device, placed, key, moment) {
        Ok(looked) => Ok(looked),
        Err(error) => Err(error),
    }
}

/// A look that is no hit leaves the log as it was, over any device.
pub fn look_without_hit<D: PageDevice<PAGE>, const PAGE: usize>(
    alloc: Global,
    log: &mut KLog<PAGE>,
    device: &mut D,
    placed: &Placed,
    key: &Key,
    moment: u64,
) -> Result<Looked, AllocError>
    requires page_size { IsPageSize PAGE }
    requires pages { HasRoom (D.page_count device.old) log.old }
    requires place { placed.now ≡ place_in log.old.shape key.now }
    ensures { ((value : List ℕ) → result ≢ Ok (Looked.Hit value)) → log.new ≡ log.old }
{
    match log.look(alloc, device, placed, key, moment) {
        Ok(looked) => Ok(looked),
        Err(error) => Err(error),
    }
}

/// What is located, and touched if it is a hit, is what a look-up answers and leaves, over any device; so nothing is touched
/// that has expired.
pub fn touch_what_is_located<D: PageDevice<PAGE>, const PAGE: usize>(
    log: &mut KLog<PAGE>,
    device: &mut D,
    placed: &Placed,
    key: &[u8],
    moment: u64,
    found: &mut ValueBuffer,
) -> LocatedInLog
    requires page_size { IsPageSize PAGE }
    requires pages { HasRoom (D.page_count device.old) log.old }
    requires place { placed.now ≡ place_in log.old.shape key.now }
    ensures looks { LogLooks PAGE D.page_count D.honest D.failures D.held placed.now key.now moment log.old
        device.old (Ok (looked_of result found.new)) log.new device.new }
    ensures expired { result ≡ LocatedInLog.Expired → log.new ≡ log.old }
{
    match log.locate(device, placed, key, moment, found) {
        LocatedInLog::Hit { entry, expires } => {
            log.touch(&entry);
            LocatedInLog::Hit { entry, expires }
        }
        LocatedInLog::Expired => LocatedInLog::Expired,
        LocatedInLog::Absent => LocatedInLog::Absent,
        LocatedInLog::Fault => LocatedInLog::Fault,
        LocatedInLog::Damaged => LocatedInLog::Damaged,
    }
}

/// The entry that is located is that of the newest live record with the key, and it expires with that, over an honest device;
/// and it is of the key's set and tag over any.
pub fn locate_newest<D: PageDevice<PAGE>, const PAGE: usize>(
    log: &KLog<PAGE>,
    device: &mut D,
    placed: &Placed,
    key: &[u8],
    moment: u64,
    found: &mut ValueBuffer,
) -> Option<(Entry, u64)>
    requires page_size { IsPageSize PAGE }
    requires pages { HasRoom (D.page_count device.old) log.now }
    requires place { placed.now ≡ place_in log.now.shape key.now }
    ensures newest { IsTrue (D.honest device.old) → IsSpelledOn PAGE (D.held device.old) log.now →
        IfSome result (λ e. option_map (λ x. (x.0, x.1.value.expires))
        (newest_with (live_on (D.held device.old) log.now) key.now) ≡ Some e) }
    ensures its { IfSome result (λ e. Contains (of_tag placed.now.set placed.now.tag log.now.entries) e.0) }
{
    let LocatedInLog::Hit { entry, expires } = log.locate(device, placed, key, moment, found) else {
        return None;
    };
    Some((entry, expires))
}

/// A touch lowers the entry at its place, and leaves all others as they were.
pub fn touch_of_one_entry<const PAGE: usize>(log: &mut KLog<PAGE>, entry: &Entry)
    ensures lowered { Contains log.old.entries entry.now →
        Contains log.new.entries (lowered entry.now) }
    ensures others { (other : Entry) → Contains log.old.entries other →
        is_in entry.now.set entry.now.place other ≡ false → Contains log.new.entries other }
    ensures count { length log.new.entries ≡ length log.old.entries }
{
    log.touch(entry);
}

/// A taking loses entries of one page at most, over any device: if one is gone, those of other pages are live.
pub fn take_of_one_page<D: PageDevice<PAGE>, const PAGE: usize>(
    alloc: Global,
    log: &mut KLog<PAGE>,
    device: &mut D,
    set: u32,
) -> Result<SetTaken, AllocError>
    requires page_size { IsPageSize PAGE }
    requires pages { HasRoom (D.page_count device.old) log.old }
    ensures { (gone : Entry) → (other : Entry) → Contains log.old.entries gone →
        Contains log.old.entries other → (Contains log.new.entries gone → ⊥) →
        (other.place.page ≡ gone.place.page → other.place.segment ≢ gone.place.segment) →
        Contains log.new.entries other }
{
    match log.take_set(alloc, device, set) {
        Ok(taken) => Ok(taken),
        Err(error) => Err(error),
    }
}

/// A readmission leaves the entries of other pages, over any device.
pub fn readmit_of_one_page<D: PageDevice<PAGE>, const PAGE: usize>(
    log: &mut KLog<PAGE>,
    device: &mut D,
    entry: &Entry,
) -> Readmitted
    requires page_size { IsPageSize PAGE }
    requires pages { HasRoom (D.page_count device.old) log.old }
    requires oldest { IsOfOldest log.old entry.now }
    ensures { (other : Entry) → Contains log.old.entries other →
        (other.place.page ≡ entry.now.place.page →
        other.place.segment ≢ entry.now.place.segment) →
        Contains log.new.entries other }
{
    let _count = log.len();
    names_tell_numbers();
    log.readmit(device, entry)
}

/// A readmitted record is the newest entry, of its set and tag, with the entering prediction, over any device.
pub fn readmit_as_newest<D: PageDevice<PAGE>, const PAGE: usize>(
    log: &mut KLog<PAGE>,
    device: &mut D,
    entry: &Entry,
) -> Readmitted
    requires page_size { IsPageSize PAGE }
    requires pages { HasRoom (D.page_count device.old) log.old }
    requires oldest { IsOfOldest log.old entry.now }
    ensures { result ≡ Readmitted.Readmitted → IsSomeAnd (slice_get log.new.entries 0) (λ e.
        (e.set ≡ entry.now.set) × (e.tag ≡ entry.now.tag)
        × (e.prediction ≡ entering_prediction)) }
{
    log.readmit(device, entry)
}

/// If taken records are dropped the entries of other sets stay.
pub fn drop_of_one_set<const PAGE: usize>(log: &mut KLog<PAGE>, set: u32, taken: &TakenRecords)
    ensures { (other : Entry) → Contains log.old.entries other → other.set ≢ set →
        Contains log.new.entries other }
{
    log.drop_taken(set, taken);
}

/// Of taken records those alone are dropped whose segment is still held: a newer record at the same place stays.
pub fn drop_of_what_was_taken<const PAGE: usize>(
    log: &mut KLog<PAGE>,
    set: u32,
    taken: &TakenRecords,
)
    ensures { (other : Entry) → Contains log.old.entries other →
        All (λ t. t.segment ≢ segment_of log.old other) taken.now →
        Contains log.new.entries other }
{
    log.drop_taken(set, taken);
}

/// The first record that is taken of a set is the newest that is live there, over an honest device.
pub fn take_newest_first<D: PageDevice<PAGE>, const PAGE: usize>(
    alloc: Global,
    log: &mut KLog<PAGE>,
    device: &mut D,
    set: u32,
) -> Result<SetTaken, AllocError>
    requires page_size { IsPageSize PAGE }
    requires pages { HasRoom (D.page_count device.old) log.old }
    requires honest { IsTrue (D.honest device.old) }
    requires spelled { IsSpelledOn PAGE (D.held device.old) log.old }
    ensures { (first : TakenRecord) (others : List TakenRecord) →
        result ≡ Ok (SetTaken.Records (first ∷ others)) →
        IsSomeAnd (find (λ x. is_of set x.0) (live_on (D.held device.old) log.old))
        (λ x. first ≡ taken_as log.old x) }
{
    match log.take_set(alloc, device, set) {
        Ok(taken) => Ok(taken),
        Err(error) => Err(error),
    }
}

/// After a step that lost its page none of that page's records is live, over any device.
pub fn step_that_loses_a_page<D: PageDevice<PAGE>, const PAGE: usize>(
    log: &mut KLog<PAGE>,
    device: &mut D,
) -> Flushed
    requires page_size { IsPageSize PAGE }
    requires pages { HasRoom (D.page_count device.old) log.old }
    ensures { result ≡ Flushed.PageLost → (e : Entry) → Contains log.new.entries e →
        is_on_page log.old (flushed_number log.old) log.old.done e ≡ false }
{
    log.flush_step(device)
}

/// A segment is freed if none of its records is live, and takes no entry with it.
pub fn free_where_empty<const PAGE: usize>(log: &mut KLog<PAGE>) -> bool
    ensures { log.new.entries ≡ log.old.entries }
{
    let Oldest::Empty = log.oldest(&[]) else {
        return false;
    };
    log.free_oldest();
    true
}
