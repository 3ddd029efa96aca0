// The one lane of a script, whose calls have the script's numbers.
ghost use Rattle.std.specs.Prelude.{◌≡◌, ◌≢◌, ◌↔◌, ◌<◌, ◌≤◌, ◌+◌, ◌*◌, [], length, IfOk, IfErr, OnOk, OnErr, IsErrOf, None, Some};
ghost use Rattle.record_pages.specs.declared.field.Field.{Field};
ghost use Rattle.record_pages.specs.Sizes.{IsPageSize, object_size, room};
ghost use Rattle.rriparoo.specs.Rriparoo.{rriparoo_plan};
ghost use Rattle.trace_file.specs.Text.{IsTraceOf};
ghost use Rattle.certificate_checker.specs.Acceptance.{IsAccepted};
ghost use Rattle.record_pages.specs.Expiry.{timed};
ghost use Rattle.mover.specs.Get.{get_step};
ghost use Rattle.mover.specs.Put.{put_step};
ghost use Rattle.mover.specs.Strike.{removed};
ghost use Rattle.mover.specs.Flush.{flush_step};
ghost use Rattle.mover.specs.Whole.{move_step};
ghost use Rattle.recorded_lane.specs.Lane.{act_of, max_calls};
ghost use Rattle.script_words.specs.Configs.{faulty};
ghost use Rattle.scripts.specs.Own.{seen_of, opened_by, after_call, with_lane, own_history, own_certificate};

use crate::open_script_fault::OpenScriptFault;
use crate::recording::Recording;
use klog::Flushed;
use mover::MovedWhole;
use page_device::MemoryDevice;
use record_pages::{Answer, Config, Field, Key, Layout, Pushed, Value};
use recorded_lane::{NotedRef, RecordFault, RecordPutFault, RecordedLane, accepted_in_turn};
use rriparoo::Rriparoo;
use std::alloc::{AllocError, Global};
use std::marker::Model;
use trace_file::{Act, CallRef, Certificate, History, Version, WriteTraceFault, write_trace};

/// The lane of a script, over a device in memory with just enough pages. Its call number `i`, from 0, has caller 0,
/// start `3i + 1`, point `3i + 2` and end `3i + 3`. Its moves go by the plans of `Rriparoo`.
#[derive(Drop)]
pub struct ScriptLane<const PAGE: usize> {
    lane: Box<RecordedLane<MemoryDevice<PAGE>, PAGE>>,
}

impl<const PAGE: usize> Model for ScriptLane<PAGE> {
    ghost use Rattle.std.specs.Coded.{codes};
    ghost use Rattle.kset.specs.Sets.{sets_code};
    ghost use Rattle.recorded_lane.specs.Lane.{Lane};
    ghost use Rattle.scripts.specs.Own.{Pages, IsOfScript};

    ghost Value = { Lane Pages };

    ghost coded = { Prim.hlevel (codes, sets_code) };

    ghost view = { λ s. s.lane.value };

    ghost invariant = { λ s. IsOfScript s.lane.value };
}

impl<const PAGE: usize> ScriptLane<PAGE> {
    /// An empty lane of this configuration. A script has one lane.
    pub fn open(alloc: Global, config: &Config) -> Result<ScriptLane<PAGE>, OpenScriptFault>
        requires { IsPageSize PAGE }
        ensures ok { IfOk result (λ lane.
            (faulty config.now ≡ None) × (seen_of lane ≡ opened_by config.now)) }
        ensures bad { IfErr result (λ fault. (field : Field) →
            fault ≡ OpenScriptFault.BadConfig field → faulty config.now ≡ Some field) }
    {
        let layout = match config.check() {
            Ok(layout) => layout,
            Err(fault) => return Err(OpenScriptFault::BadConfig { field: fault.field }),
        };
        if config.lanes != 1 {
            return Err(OpenScriptFault::BadConfig {
                field: Field::Lanes,
            });
        }
        let lane = boxed_lane(alloc, &layout)?;
        Ok(ScriptLane { lane })
    }

    /// Answers a get as the script's next call. A refused call takes no number.
    pub fn get(&mut self, key: &Key, moment: u64) -> Result<Answer, RecordFault>
        ensures answer { IfOk result (λ answer.
            answer ≡ (get_step key.now moment (seen_of self.old).lane).reply) }
        ensures after { IfOk result (λ answer. seen_of self.new ≡ after_call (seen_of self.old)
            (get_step key.now moment (seen_of self.old).lane).lane key.now (act_of moment answer)) }
        ensures full { IsErrOf result RecordFault.HistoryFull ↔ (max_calls ≤ length self.old.calls) }
        ensures full_keeps { IsErrOf result RecordFault.HistoryFull → self.new ≡ self.old }
        ensures no_call { OnErr result (self.new.calls ≡ self.old.calls) }
    {
        let count = self.lane.len() as u64;
        let answer = self.lane.get(0, 3 * count + 1, 3 * count + 2, key, moment)?;
        Ok(answer)
    }

    /// Puts a value as the script's next call. A refused call takes no number, and leaves the lane as it was.
    pub fn put(
        &mut self,
        key: Key,
        value: Value,
        word: u32,
        expires: u64,
    ) -> Result<Pushed, RecordPutFault>
        ensures after { OnOk result (seen_of self.new ≡ after_call (seen_of self.old)
            (put_step PAGE self.old.store.layout.admit (record { key = key; value = timed value expires }) word
            (seen_of self.old).lane).lane key (Act.Put value expires)) }
        ensures large { IsErrOf result RecordPutFault.TooLarge ↔ (room PAGE < object_size key value) }
        ensures full { IsErrOf result RecordPutFault.HistoryFull
            ↔ ((object_size key value ≤ room PAGE) × (max_calls ≤ length self.old.calls)) }
        ensures err { OnErr result (self.new ≡ self.old) }
    {
        let count = self.lane.len() as u64;
        let pushed = self
            .lane
            .put(0, 3 * count + 1, 3 * count + 2, key, value, word, expires)?;
        Ok(pushed)
    }

    /// Removes a key as the script's next call. A refused call takes no number, and leaves the lane as it was.
    pub fn remove(&mut self, key: &Key) -> Result<(), RecordFault>
        ensures after { OnOk result (seen_of self.new ≡ after_call (seen_of self.old)
            (removed key.now (seen_of self.old).lane) key.now Act.Remove) }
        ensures full { IsErrOf result RecordFault.HistoryFull ↔ (max_calls ≤ length self.old.calls) }
        ensures err { OnErr result (self.new ≡ self.old) }
    {
        let count = self.lane.len() as u64;
        self.lane.remove(0, 3 * count + 1, 3 * count + 2, key)?;
        Ok(())
    }

    /// Has the lane forget a key. It is no call of the script's history.
    pub fn forget(&mut self, key: &Key)
        ensures { seen_of self.new
            ≡ with_lane (seen_of self.old) (removed key.now (seen_of self.old).lane) }
    {
        self.lane.forget(key);
    }

    /// One step of flushing the log. It is no call of the script's history.
    pub fn flush_step(&mut self) -> Flushed
        ensures answer { result ≡ (flush_step (seen_of self.old).lane).reply }
        ensures after { seen_of self.new
            ≡ with_lane (seen_of self.old) (flush_step (seen_of self.old).lane).lane }
    {
        self.lane.flush_step()
    }

    /// A whole move by the plan of `Rriparoo`. It is no call of the script's history. After `AllocError` the calls and
    /// the tiers are as they were.
    pub fn move_whole(&mut self) -> Result<MovedWhole, AllocError>
        ensures answer { IfOk result (λ moved. moved ≡ (move_step PAGE self.old.store.layout.threshold
            rriparoo_plan (seen_of self.old).lane).reply) }
        ensures after { OnOk result (seen_of self.new ≡ with_lane (seen_of self.old)
            (move_step PAGE self.old.store.layout.threshold rriparoo_plan (seen_of self.old).lane).lane) }
        ensures no_call { OnErr result (self.new.calls ≡ self.old.calls) }
    {
        let moved = self.lane.move_whole(&Rriparoo)?;
        Ok(moved)
    }

    /// The calls so far as a history, with the certificate of their order. The pair is accepted.
    /// `AllocError` comes if memory was refused.
    pub fn recording(&self, alloc: Global) -> Result<Recording, AllocError>
        ensures history { IfOk result (λ r. r.history ≡ own_history self.now.calls) }
        ensures certificate { IfOk result (λ r. r.certificate ≡ own_certificate self.now.calls) }
        ensures accepted { IfOk result (λ r. IsAccepted r.history r.certificate) }
        ensures few { IfOk result (λ r. length r.history ≤ max_calls) }
        ensures as_many { IfOk result (λ r. length r.certificate ≡ length r.history) }
    {
        let mut history = History::new(alloc);
        let mut certificate = Certificate::new(alloc);
        let lane = &*self.lane;
        for position in 0..lane.len() {
            history.push_ref(&with_end(lane.at(position)))?;
            certificate.push(position as u32)?;
        }
        accepted_in_turn();
        Ok(Recording {
            history,
            certificate,
        })
    }

    /// The timed trace of the calls so far, which are accepted. `AllocError` comes if memory was refused.
    pub fn trace(&self, alloc: Global) -> Result<Vec<u8>, AllocError>
        ensures trace { IfOk result (λ bytes. IsTraceOf Version.Timed bytes.items
            (own_history self.now.calls) (own_certificate self.now.calls)) }
        ensures accepted { IfOk result (λ _. IsAccepted
            (own_history self.now.calls) (own_certificate self.now.calls)) }
    {
        let recording = self.recording(alloc)?;
        let mut bytes = Vec::new(alloc);
        match write_trace(&recording.history, &recording.certificate, &mut bytes) {
            Ok(()) => Ok(bytes),
            Err(WriteTraceFault::WriteFault) => Err(AllocError),
            // A recording has at most `MAX_CALLS` calls, and a position for each.
            Err(WriteTraceFault::TooMany) => unreachable!(),
            Err(WriteTraceFault::WrongCount) => unreachable!(),
        }
    }
}

ghost use Rattle.std.specs.Prelude.{replicate};
ghost use Rattle.record_pages.specs.Asked.{layout_pages};
ghost use Rattle.mover.specs.Store.{opening};
ghost use Rattle.record_pages.specs.Bounded.{IsKey, IsValue};
ghost use Rattle.trace_file.specs.Calls.{IsCall, value_of};
ghost use Rattle.trace_file.specs.Lent.{act_shown, call_shown};
ghost use Rattle.recorded_lane.specs.Points.{noted_shown};
ghost use Rattle.scripts.specs.Own.{ended};

/// The one lane of this layout over a blank device in memory.
fn boxed_lane<const PAGE: usize>(
    alloc: Global,
    layout: &Layout,
) -> Result<Box<RecordedLane<MemoryDevice<PAGE>, PAGE>>, AllocError>
    requires page_size { IsPageSize PAGE }
    requires lanes { layout.now.lanes ≡ 1 }
    ensures { IfOk result (λ lane. lane.value ≡ record {
      store = opening layout.now (replicate (layout_pages layout.now) (replicate PAGE 0));
      lane = 0;
      calls = [];
    }) }
{
    let device = MemoryDevice::new(alloc, layout.pages())?;
    let lane = RecordedLane::with_layout(alloc, layout, 0, device)?;
    let boxed = Box::new(alloc, lane)?;
    Ok(boxed)
}

/// A recorded call, with its end.
fn with_end(noted: NotedRef<'_>) -> CallRef<'_>
    requires point { noted.point < 18446744073709551615 }
    requires key { IsKey noted.key.now }
    requires value { IsValue (value_of (act_shown noted.act)) }
    ensures call { call_shown result ≡ ended (noted_shown noted.entry) }
    ensures lawful { IsCall (call_shown result) }
{
    CallRef::new(
        noted.caller,
        noted.start,
        noted.point + 1,
        noted.key,
        noted.act,
    )
}
