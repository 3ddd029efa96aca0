//! What users of a store rely on, of any store and any device.
ghost use Rattle.mover.specs.Lane.{lane_of};
ghost use Rattle.mover.specs.Visible.{IsShown};
ghost use Rattle.std.specs.Prelude.{◌≡◌, ◌≢◌, ℕ, List, None, Some, Ok, IsOk, IfOk, IsTrue};
ghost use Rattle.record_pages.specs.Expiry.{is_live, timed, value_at};
ghost use Rattle.record_pages.specs.declared.answer.Answer.{Answer};
ghost use Rattle.record_pages.specs.declared.answer.Answer.TheVariants.{Hit, Miss};
ghost use Rattle.record_pages.specs.declared.miss_cause.MissCause.{MissCause};
ghost use Rattle.record_pages.specs.declared.timed_value.TimedValue.{TimedValue};
ghost use Rattle.record_pages.specs.declared.tier.Tier.{Tier};
ghost use Rattle.record_pages.specs.declared.tier.Tier.TheVariants.{Memory};
ghost use Rattle.memory_cache.specs.declared.pair.Pair.{Pair};
ghost use Rattle.mover.specs.Get.{answer_by};
ghost use Rattle.mover.specs.Timed.{first_timed};
ghost use Rattle.mover.specs.declared.answer_kind.AnswerKind.{AnswerKind};
ghost use Rattle.mover.specs.Leaving.{HasAll};
ghost use Rattle.kset.specs.Sets.{notes_of};
ghost use Rattle.mover.specs.declared.flight.Flight.{Flight};
ghost use Rattle.mover.specs.Flight.{IsInFlight, flight_of};
ghost use Rattle.mover.specs.declared.committed.Committed.{Committed};
ghost use Rattle.mover.specs.declared.begin.Begin.{Begin};
ghost use Rattle.mover.specs.Flight.{flight_struck};
ghost use Rattle.set_hash.specs.Fnv.{fnv1a};
ghost use Rattle.std.specs.Option.{option_map};
ghost use Rattle.mover.specs.declared.aborted.Aborted.{Aborted};
ghost use Rattle.klog.specs.declared.flushed.Flushed.{Flushed};
ghost use Rattle.klog.specs.Append.{entering, is_full};
ghost use Rattle.mover.specs.PutBack.{may_show};
ghost use Rattle.mover.specs.declared.copy_fate.CopyFate.{CopyFate};
ghost use Rattle.std.specs.Prelude.{◌↔◌, ◌<◌, ◌≤◌, true, false, length, slice_get};
ghost use Rattle.record_pages.specs.Sizes.{object_size, room};

use klog::Flushed;
use memory_cache::Pair;
use mover::{
    Aborted, AnswerKind, Begin, Committed, CopyFate, Store, commit_shows, get_shows, put_shows,
    removal_shows,
};
use page_device::PageDevice;
use policy_laws::Plan;
use record_pages::{Answer, Key, Pushed, PutFault, Value, ValueBuffer};
use std::alloc::AllocError;

/// A get that misses, for any cause, leaves memory, the log, the sets and the moves in flight as they were, and how many
/// moves began.
pub fn a_miss_keeps_all<D: PageDevice<PAGE>, const PAGE: usize>(
    store: &mut Store<D, PAGE>,
    key: &Key,
    moment: u64,
) -> Result<Answer, AllocError>
    ensures { (cause : MissCause) → result ≡ Ok (Miss cause) → HasAll store.old store.new }
{
    let answer = store.get(key, moment)?;
    Ok(answer)
}

/// An abort gives up the move with its number, and no other; if it finds none it leaves the store as it was, its device
/// too.
pub fn an_abort_is_of_its_number<D: PageDevice<PAGE>, const PAGE: usize>(
    store: &mut Store<D, PAGE>,
    number: u64,
) -> Aborted
    ensures its { result ≡ Aborted.Aborted → IsInFlight store.old.flights number }
    ensures over { result ≡ Aborted.Aborted → flight_of number store.new.flights ≡ None }
    ensures others { (other : ℕ) → other ≢ number →
        flight_of other store.new.flights ≡ flight_of other store.old.flights }
    ensures stale { result ≡ Aborted.StalePlan → store.new ≡ store.old }
{
    store.move_abort(number)
}

/// A commit whose page was not written leaves memory as it was.
pub fn a_forgotten_commit_keeps_memory<D: PageDevice<PAGE>, const PAGE: usize>(
    store: &mut Store<D, PAGE>,
    plan: &Plan,
    number: u64,
) -> Committed
    ensures { result ≡ Committed.Forgotten → store.new.memory ≡ store.old.memory }
{
    store.move_commit(plan, number)
}

/// A flush step that lost its page leaves memory and all sets as they were.
pub fn a_lost_page_keeps_memory_and_sets<D: PageDevice<PAGE>, const PAGE: usize>(
    store: &mut Store<D, PAGE>,
) -> Flushed
    ensures memory { result ≡ Flushed.PageLost → store.new.memory ≡ store.old.memory }
    ensures sets { result ≡ Flushed.PageLost → store.new.sets ≡ store.old.sets }
{
    store.flush_step()
}

/// A key that was removed is no hit of a get, over an honest device.
pub fn a_removed_key_is_no_hit<D: PageDevice<PAGE>, const PAGE: usize>(
    store: &mut Store<D, PAGE>,
    key: &Key,
    moment: u64,
) -> Result<Answer, AllocError>
    requires honest { IsTrue (D.honest store.old.device) }
    ensures { IfOk result (λ answer. (value : List ℕ) → (tier : Tier) → answer ≢ Hit value tier) }
{
    removal_shows();
    get_shows();
    let _layout = store.layout();
    store.remove(key);
    let answer = store.get(key, moment)?;
    Ok(answer)
}

/// A commit of any plan and number brings no pair back of a key that was removed, over an honest device.
pub fn a_commit_brings_nothing_back<D: PageDevice<PAGE>, const PAGE: usize>(
    store: &mut Store<D, PAGE>,
    key: &Key,
    plan: &Plan,
    number: u64,
) -> Committed
    requires honest { IsTrue (D.honest store.old.device) }
    ensures { (value : TimedValue) →
        IsShown (lane_of D.held store.new) (record { key = key.now; value = value }) → ⊥ }
{
    removal_shows();
    commit_shows();
    let _layout = store.layout();
    store.remove(key);
    store.move_commit(plan, number)
}

/// A hit of a key that was just put is the value that was put, which is live at the get's moment, over an honest device.
pub fn a_hit_is_what_was_put<D: PageDevice<PAGE>, const PAGE: usize>(
    store: &mut Store<D, PAGE>,
    key: Key,
    value: Value,
    word: u32,
    expires: u64,
    again: &Key,
    moment: u64,
) -> Result<Answer, AllocError>
    requires honest { IsTrue (D.honest store.old.device) }
    requires same { again.now ≡ key }
    ensures { IfOk result (λ answer. (told : List ℕ) → (tier : Tier) →
        answer ≡ Hit told tier → (told ≡ value) × IsTrue (is_live expires moment)) }
{
    put_shows();
    get_shows();
    let _layout = store.layout();
    let Ok(_) = store.put(key, value, word, expires) else {
        return Err(AllocError);
    };
    let answer = store.get(again, moment)?;
    Ok(answer)
}

/// A get of a key that was just put is answered from memory, with the value that was put or that it has expired, and makes no
/// call of the device, whatever the device.
pub fn a_put_is_answered_from_memory<D: PageDevice<PAGE>, const PAGE: usize>(
    store: &mut Store<D, PAGE>,
    key: Key,
    value: Value,
    word: u32,
    expires: u64,
    again: &Key,
    moment: u64,
) -> Result<Answer, AllocError>
    requires same { again.now ≡ key }
    ensures answered { IfOk result (λ answer.
        answer ≡ answer_by (value_at moment (timed value expires)) Memory) }
    ensures unread { store.new.device ≡ store.old.device }
{
    let _layout = store.layout();
    let Ok(_) = store.put(key, value, word, expires) else {
        return Err(AllocError);
    };
    let answer = store.get(again, moment)?;
    Ok(answer)
}

/// A commit whose page was not written forgets the set of its move alone: what is noted of any other set stays.
pub fn a_forgotten_commit_keeps_other_sets<D: PageDevice<PAGE>, const PAGE: usize>(
    store: &mut Store<D, PAGE>,
    plan: &Plan,
    number: u64,
) -> Committed
    ensures { (f : Flight) → (set : ℕ) → flight_of number store.old.flights ≡ Some f →
        set ≢ f.moving.set → result ≡ Committed.Forgotten → notes_of store.new.sets set ≡ notes_of store.old.sets set }
{
    store.move_commit(plan, number)
}

/// A commit leaves each other move in flight as it was, with its items and which of them were struck; and if it is not
/// refused its own is over.
pub fn a_commit_leaves_the_other_moves<D: PageDevice<PAGE>, const PAGE: usize>(
    store: &mut Store<D, PAGE>,
    plan: &Plan,
    number: u64,
) -> Committed
    ensures others { (other : ℕ) → other ≢ number →
        flight_of other store.new.flights ≡ flight_of other store.old.flights }
    ensures over { result ≡ Committed.Written → flight_of number store.new.flights ≡ None }
{
    store.move_commit(plan, number)
}

/// A move that is to begin and finds too many in flight leaves the store as it was.
pub fn a_busy_beginning_changes_nothing<D: PageDevice<PAGE>, const PAGE: usize>(
    store: &mut Store<D, PAGE>,
) -> Result<Begin, AllocError>
    ensures { result ≡ Ok Begin.Busy → store.new ≡ store.old }
{
    store.move_begin()
}

/// A put of a key marks the items of each move in flight whose keys have its hash: that of no number is passed over.
pub fn a_put_marks_each_move<D: PageDevice<PAGE>, const PAGE: usize>(
    store: &mut Store<D, PAGE>,
    key: Key,
    value: Value,
    word: u32,
    expires: u64,
) -> Result<Pushed, PutFault>
    ensures { (number : ℕ) → IsOk result → flight_of number store.new.flights
        ≡ option_map (flight_struck (fnv1a key)) (flight_of number store.old.flights) }
{
    store.put(key, value, word, expires)
}

/// Each pair that is shown after a commit was shown before it, with the same value and the same expiry, over an honest device.
pub fn a_commit_shows_nothing_new<D: PageDevice<PAGE>, const PAGE: usize>(
    store: &mut Store<D, PAGE>,
    plan: &Plan,
    number: u64,
) -> Committed
    requires honest { IsTrue (D.honest store.old.device) }
    ensures { (pair : Pair) → IsShown (lane_of D.held store.new) pair →
        IsShown (lane_of D.held store.old) pair }
{
    commit_shows();
    let _layout = store.layout();
    store.move_commit(plan, number)
}

/// A commit says that its page was not written only if a call of the device failed, whatever the device.
pub fn a_forgotten_commit_has_failed<D: PageDevice<PAGE>, const PAGE: usize>(
    store: &mut Store<D, PAGE>,
    plan: &Plan,
    number: u64,
) -> Committed
    ensures { result ≡ Committed.Forgotten →
        D.failures store.new.device ≢ D.failures store.old.device }
{
    store.move_commit(plan, number)
}

/// A get says that a key is absent only if no tier has a pair of it, over an honest device.
pub fn an_absent_key_is_in_no_tier<D: PageDevice<PAGE>, const PAGE: usize>(
    store: &mut Store<D, PAGE>,
    key: &Key,
    moment: u64,
) -> Result<Answer, AllocError>
    requires honest { IsTrue (D.honest store.old.device) }
    ensures { result ≡ Ok (Miss MissCause.Absent) → first_timed key.now (lane_of D.held store.old) ≡ None }
{
    let answer = store.get(key, moment)?;
    Ok(answer)
}

/// A get into a buffer says that a key is absent only then, too.
pub fn an_absent_key_is_in_no_tier_by_get_into<D: PageDevice<PAGE>, const PAGE: usize>(
    store: &mut Store<D, PAGE>,
    key: &[u8],
    moment: u64,
    found: &mut ValueBuffer,
) -> AnswerKind
    requires honest { IsTrue (D.honest store.old.device) }
    ensures { result ≡ AnswerKind.Miss MissCause.Absent →
        first_timed key.now (lane_of D.held store.old) ≡ None }
{
    store.get_into(key, moment, found)
}

/// After a put its pair is the only one of its key that a tier shows, or that a move in flight may show, over an honest device.
/// That is so of what the tiers show, whatever a look-up makes of it.
pub fn a_put_leaves_no_older_value<D: PageDevice<PAGE>, const PAGE: usize>(
    store: &mut Store<D, PAGE>,
    key: Key,
    value: Value,
    word: u32,
    expires: u64,
) -> Result<Pushed, PutFault>
    requires honest { IsTrue (D.honest store.old.device) }
    ensures { IsOk result → (told : TimedValue) →
        IsShown (lane_of D.held store.new) (record { key = key; value = told }) →
        told ≡ timed value expires }
{
    put_shows();
    let _layout = store.layout();
    store.put(key, value, word, expires)
}

/// A copy that is put back is dropped exactly if flash may show its key, and then the lane stays as it was; so it does if the
/// copy is lost. The device is not asked.
pub fn a_copy_is_dropped_where_flash_may_show_it<D: PageDevice<PAGE>, const PAGE: usize>(
    store: &mut Store<D, PAGE>,
    pair: &Pair,
) -> CopyFate
    ensures known { (result ≡ CopyFate.Known) ↔ (may_show pair.now.key (lane_of D.held store.old) ≡ true) }
    ensures stays { result ≢ CopyFate.Logged → lane_of D.held store.new ≡ lane_of D.held store.old }
    ensures unasked { store.new.device ≡ store.old.device }
{
    store.put_back(pair)
}

/// A copy that flash does not show, and that fits on a page, is the newest record of the log if that has an entry and a place
/// left: with its key, its value and when that expires. Nothing enters a full log.
pub fn a_copy_enters_the_log<D: PageDevice<PAGE>, const PAGE: usize>(
    store: &mut Store<D, PAGE>,
    pair: &Pair,
) -> CopyFate
    ensures enters { may_show pair.now.key (lane_of D.held store.old) ≡ false →
        object_size pair.now.key pair.now.value.value ≤ room PAGE →
        length store.old.log.entries < store.old.log.shape.limit →
        is_full PAGE store.old.log (entering pair.now.key pair.now.value) ≡ false →
        result ≡ CopyFate.Logged }
    ensures newest { result ≡ CopyFate.Logged →
        option_map (λ x. x.1) (slice_get (lane_of D.held store.new).live 0)
        ≡ Some (entering pair.now.key pair.now.value) }
    ensures place { result ≡ CopyFate.Logged →
        is_full PAGE store.old.log (entering pair.now.key pair.now.value) ≡ false }
    ensures entry { result ≡ CopyFate.Logged →
        length store.old.log.entries < store.old.log.shape.limit }
{
    store.put_back(pair)
}
