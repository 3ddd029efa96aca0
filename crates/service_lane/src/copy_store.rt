// A store with copies in memory of objects on flash.
ghost use Rattle.std.specs.Prelude.{◌≡◌, ◌≤◌, ◌++◌, ◌∷◌, [], length, None, Some, Ok, IfOk, IfSome, OnOk, OnErr, IsTrue, option_map};
ghost use Rattle.klog.specs.Usage.{usage_of};
ghost use Rattle.record_pages.specs.Asked.{layout_pages};
ghost use Rattle.record_pages.specs.Expiry.{timed};
ghost use Rattle.record_pages.specs.Sizes.{IsPageSize};
ghost use Rattle.record_pages.specs.declared.answer.Answer.{Answer};
ghost use Rattle.record_pages.specs.declared.tier.Tier.{Tier};
ghost use Rattle.mover.specs.Calls.{StoreFlushes, StoreMoves, StorePuts, StoreRemoves};
ghost use Rattle.mover.specs.Get.{answer_of};
ghost use Rattle.mover.specs.Store.{opening_with};
ghost use Rattle.trace_file.specs.declared.act.Act.{Act};
ghost use Rattle.certificate_checker.specs.Current.{current};
ghost use Rattle.certificate_checker.specs.Latest.{IsLive};
ghost use Rattle.deeds.specs.Sound.{act_of};
ghost use Rattle.service_lane.specs.Asked.{IsLiveHit, IsMiss, TellsExpiry};
ghost use Rattle.service_lane.specs.Copies.{GetsCopied, CopyAnswers, HitLeaves, PutsBackIf, copied_pairs, copy_gone, copy_in};

use crate::copied::Copied;
use crate::copies::Copies;
use crate::key_buffer::KeyBuffer;
use crate::new_copy::NewCopy;
use crate::seen::Seen;
use deeds::DeedStore;
use key_hash::RandomSeed;
use klog::{Flushed, LogUsage};
use memory_cache::found_is_held;
use mover::{AnswerKind, CopyFate, MovedWhole};
use page_device::PageDevice;
use policy_laws::EvictionPolicy;
use record_pages::{Key, Layout, Pushed, PutFault, Tier, Value, ValueBuffer};
use std::alloc::{AllocError, Global};
use std::marker::Model;

/// A store that knows what it was asked, and copies in memory of some of its objects on flash, if it makes any.
///
/// On an honest device each copy is what its key has: a write of the key takes its copy away.
#[derive(Drop)]
pub(crate) struct CopyStore<D: PageDevice<PAGE>, const PAGE: usize> {
    asked: DeedStore<D, PAGE>,
    copies: Option<Copies>,
}

impl<D: PageDevice<PAGE>, const PAGE: usize> Model for CopyStore<D, PAGE> {
    ghost use Rattle.std.specs.Coded.{codes};
    ghost use Rattle.kset.specs.Sets.{sets_code};
    ghost use Rattle.service_lane.specs.Copies.{CopyAsked, AreCopies};

    ghost Value = { CopyAsked D };

    ghost coded = { Prim.hlevel (codes, sets_code) };

    ghost view = { λ s. record { store = s.asked.store; deeds = s.asked.deeds; copies = s.copies } };

    ghost invariant = { λ s. AreCopies D.honest (record {
      store = s.asked.store;
      deeds = s.asked.deeds;
      copies = s.copies;
    }) };
}

impl<D: PageDevice<PAGE>, const PAGE: usize> CopyStore<D, PAGE> {
    ghost use Rattle.service_lane.specs.Asked.{IsServed};
    ghost use Rattle.service_lane.specs.Copies.{AreCopies};

    /// An empty store, as `DeedStore::with_layout` makes it, with these copies, of which it holds none yet.
    pub(crate) fn with_layout(
        alloc: Global,
        layout: &Layout,
        strikes: u32,
        copies: Option<Copies>,
        device: D,
        seed: RandomSeed,
    ) -> Result<Self, AllocError>
        requires page_size { IsPageSize PAGE }
        requires copies { copied_pairs copies ≡ [] }
        requires strikes { strikes ≤ 524288 }
        requires room { layout_pages layout.now ≤ D.page_count device }
        ensures { IfOk result (λ opened. opened ≡ record {
          store = opening_with strikes layout.now device;
          deeds = [];
          copies = copies;
        }) }
    {
        let asked = DeedStore::with_layout(alloc, layout, strikes, device, seed)?;
        Ok(CopyStore { asked, copies })
    }

    /// Looks the key of these bytes up: in the copies, and if none is live in the store. The value of a hit is in the buffer then,
    /// and it is told when it expires. What a copy answers is told as of a set. The answer is a deed. A copy that is pushed out
    /// for what was found is put back if no tier admits it any more.
    pub(crate) fn get_into(&mut self, key: &[u8], moment: u64, found: &mut ValueBuffer) -> Seen
        ensures gets { GetsCopied PAGE D.honest D.failures D.held result.copied key.now moment
            (answer_of result.kind found.new) self.old self.new }
        ensures deeds { self.new.deeds ≡ self.old.deeds
            ++ record { key = key.now; act = act_of moment (answer_of result.kind found.new) } ∷ [] }
        ensures live { IsLiveHit (IsTrue (D.honest self.old.store.device)) self.old.deeds key.now
            moment (answer_of result.kind found.new) }
        ensures expires { TellsExpiry (IsTrue (D.honest self.old.store.device)) self.old.deeds
            key.now found.new result.kind }
        ensures untouched { IsMiss result.kind → found.new ≡ found.old }
    {
        if let Some(expires) = self.recall(key, moment, found) {
            return Seen {
                kind: AnswerKind::Hit {
                    tier: Tier::Set,
                    expires,
                },
                copied: Copied::Answered,
            };
        }
        let kind = self.asked.get_into(key, moment, found);
        let Some(made) = copy_hit(&mut self.copies, key, kind, found) else {
            return Seen {
                kind,
                copied: Copied::Nothing,
            };
        };
        let fate = put_back(&mut self.asked, &made);
        Seen {
            kind,
            copied: Copied::Made(fate),
        }
    }

    // The live copy of a key answers: its value goes into the buffer, and the answer is a deed. When it expires; none if no copy is
    // live, and then nothing changes.
    fn recall(&mut self, key: &[u8], moment: u64, found: &mut ValueBuffer) -> Option<u64>
        ensures copy { copy_in key.now moment self.old.copies ≡ option_map (timed found.new) result }
        ensures answers { IfSome result (λ expires.
            CopyAnswers key.now moment (Answer.Hit found.new Tier.Set) self.old self.new) }
        ensures deeds { IfSome result (λ expires. self.new.deeds ≡ self.old.deeds
            ++ record { key = key.now; act = Act.Hit found.new moment } ∷ []) }
        ensures live { IfSome result (λ expires. IsTrue (D.honest self.old.store.device)
            → IsLive self.old.deeds key.now found.new moment) }
        ensures current { IfSome result (λ expires. IsTrue (D.honest self.old.store.device)
            → current self.old.deeds key.now ≡ Some (timed found.new expires)) }
        ensures stays { (result ≡ None) → self.new ≡ self.old }
        ensures untouched { (result ≡ None) → found.new ≡ found.old }
    {
        found_is_held();
        let Some(copies) = &mut self.copies else {
            return None;
        };
        let expires = copies.recall(key, moment, found)?;
        self.asked.note_hit(key, moment, found.bytes());
        Some(expires)
    }

    /// Puts a value, as `Store::put` does. What is not refused is a deed, and takes the copy of the key away.
    pub(crate) fn put(
        &mut self,
        key: Key,
        value: Value,
        word: u32,
        expires: u64,
    ) -> Result<Pushed, PutFault>
        ensures puts { StorePuts PAGE D.held (record { key = key; value = timed value expires }) word
            self.old.store result self.new.store }
        ensures deeds { OnOk result (self.new.deeds ≡ self.old.deeds
            ++ record { key = key; act = Act.Put value expires } ∷ []) }
        ensures copies { OnOk result (self.new.copies ≡ copy_gone key self.old.copies) }
        ensures refused { OnErr result (self.new ≡ self.old) }
    {
        let kept = KeyBuffer::of(&key);
        let pushed = self.asked.put(key, value, word, expires)?;
        forget_copy(&mut self.copies, kept.bytes());
        Ok(pushed)
    }

    /// Removes the key of these bytes, as `Store::remove_bytes` does. That is a deed, and takes the copy of the key away.
    pub(crate) fn remove(&mut self, key: &[u8])
        ensures removes { StoreRemoves D.held key.now self.old.store self.new.store }
        ensures deeds { self.new.deeds
            ≡ self.old.deeds ++ record { key = key.now; act = Act.Remove } ∷ [] }
        ensures copies { self.new.copies ≡ copy_gone key.now self.old.copies }
    {
        self.asked.remove(key);
        forget_copy(&mut self.copies, key);
    }

    /// One step of flushing, as `Store::flush_step` does it.
    pub(crate) fn flush_step(&mut self) -> Flushed
        ensures flushes { StoreFlushes D.honest D.failures D.held self.old.store result
            self.new.store }
        ensures deeds { self.new.deeds ≡ self.old.deeds }
        ensures copies { self.new.copies ≡ self.old.copies }
    {
        self.asked.flush_step()
    }

    /// A whole move, as `Store::move_whole` does it.
    pub(crate) fn move_whole<P: EvictionPolicy>(
        &mut self,
        policy: &P,
    ) -> Result<MovedWhole, AllocError>
        ensures moves { StoreMoves PAGE D.honest D.failures D.held (P.plan_of policy.now)
            self.old.store result self.new.store }
        ensures deeds { self.new.deeds ≡ self.old.deeds }
        ensures copies { self.new.copies ≡ self.old.copies }
    {
        self.asked.move_whole(policy)
    }

    /// The numbers that it was opened with.
    pub(crate) fn layout(&self) -> Layout
        ensures layout { result ≡ self.now.store.layout }
        // What is true of every such store.
        ensures served { IsServed D.honest D.held (record {
          store = self.now.store;
          deeds = self.now.deeds;
        }) }
        ensures copied { AreCopies D.honest self.now }
    {
        self.asked.layout()
    }

    /// How full the log is.
    pub(crate) fn log_usage(&self) -> LogUsage
        ensures { result ≡ usage_of self.now.store.log }
    {
        self.asked.log_usage()
    }

    /// How many objects are in memory, copies aside.
    pub(crate) fn memory_len(&self) -> usize
        ensures { result ≡ length self.now.store.memory.pairs }
    {
        self.asked.memory_len()
    }

    /// The device.
    pub(crate) fn device(&self) -> &D
        ensures { result.now ≡ self.now.store.device }
    {
        self.asked.device()
    }

    /// The device, as it is now. What memory held is gone.
    pub(crate) fn into_device(self) -> D
        ensures { result ≡ self.store.device }
    {
        self.asked.into_device()
    }
}

// Counts a hit on flash, and copies its object if that is due.
fn copy_hit(
    copies: &mut Option<Copies>,
    key: &[u8],
    kind: AnswerKind,
    found: &ValueBuffer,
) -> Option<NewCopy>
    ensures { HitLeaves result key.now kind found.now copies.old copies.new }
{
    let AnswerKind::Hit { tier, expires } = kind else {
        return None;
    };
    if tier == Tier::Memory {
        return None;
    }
    let Some(copies) = copies else {
        return None;
    };
    if !copies.count_hit() {
        return None;
    }
    let Ok(pushed) = copies.make(key, found.bytes(), expires) else {
        return None;
    };
    Some(NewCopy { pushed })
}

// Puts the copy that was pushed out back, if one was: into the log, if no tier admits it any more. What became of it.
fn put_back<D: PageDevice<PAGE>, const PAGE: usize>(
    asked: &mut DeedStore<D, PAGE>,
    made: &NewCopy,
) -> Option<CopyFate>
    requires { IfSome made.now.pushed (λ p. IsTrue (D.honest asked.old.store.device)
        → current asked.old.deeds p.key ≡ Some p.value) }
    ensures puts_back { PutsBackIf PAGE D.held made.now.pushed asked.old.store result asked.new.store }
    ensures deeds { asked.new.deeds ≡ asked.old.deeds }
{
    let Some(pair) = &made.pushed else {
        return None;
    };
    Some(asked.put_back(pair))
}

// Takes the copy of a key away.
fn forget_copy(copies: &mut Option<Copies>, key: &[u8])
    ensures { copies.new ≡ copy_gone key.now copies.old }
{
    if let Some(copies) = copies {
        copies.forget(key);
    }
}
