// The books of a world.
ghost use Rattle.std.specs.Prelude.{◌≡◌, ◌<◌, ◌≤◌, ◌+◌, ◌^◌, ◌∷◌, ◌++◌, ◌↔◌, [], ℕ, List, Option, length, map, slice_get, slice_set, slice_index_or, IfOk, OnOk, OnErr, IsTrue, MatchOption, Some, None};
ghost use Rattle.record_pages.specs.declared.layout.Layout.{Layout};
ghost use Rattle.history_recorder.specs.declared.event.Event.{Event};
ghost use Rattle.history_recorder.specs.Books.{opening_books, after_event, drawn, lane_at, with_call, with_end, dones, IsDoing, IsReplied, CanDraw, TakesCall, after_noted};

use crate::dones::Dones;
use crate::lane_calls::LaneCalls;
use crate::open_call::OpenCall;
use crate::operation::Operation;
use crate::phase::Phase;
use crate::reply::Reply;
use recorded_lane::Noted;
use std::alloc::{AllocError, Global};
use std::marker::Model;
use std::mem;

/// The books of a world: the number that was drawn last, what each caller is doing, and the calls of each lane.
#[derive(Drop)]
pub(crate) struct Ledger {
    number: u64,
    callers: Vec<Phase>,
    lanes: Vec<LaneCalls>,
}

impl Model for Ledger {
    ghost use Rattle.history_recorder.specs.Books.{Books};

    ghost Value = { Books };

    ghost view = { λ b. record { number = b.number; callers = b.callers.items; lanes = b.lanes.items } };
}

impl Ledger {
    /// The books of a world to which nothing happened yet.
    pub(crate) fn open(alloc: Global, lanes: u32, callers: u16) -> Result<Ledger, AllocError>
        ensures { IfOk result (λ books. books ≡ opening_books lanes callers) }
    {
        let mut phases = Vec::new(alloc);
        for _ in 0..callers {
            phases.push(Phase::Idle)?;
        }
        let mut lists = Vec::new(alloc);
        for _ in 0..lanes {
            lists.push(LaneCalls::new(alloc))?;
        }
        Ok(Ledger {
            number: 0,
            callers: phases,
            lanes: lists,
        })
    }

    /// The number that was drawn last.
    pub(crate) fn number(&self) -> u64
        ensures { result ≡ self.now.number }
    {
        self.number
    }

    // The next number is drawn, and a caller is doing something else.
    fn draw(&mut self, caller: u16, phase: Phase) -> u64
        requires room { CanDraw self.old }
        requires caller { caller < length self.old.callers }
        ensures drawn { self.new ≡ drawn self.old caller phase }
        ensures number { result ≡ self.old.number + 1 }
    {
        self.number += 1;
        self.callers[usize::from(caller)] = phase;
        self.number
    }

    // Whether a caller is idle.
    fn is_idle(&self, caller: u16) -> bool
        ensures { IsTrue result ↔ IsDoing self.now caller Phase.Idle }
    {
        match self.callers.get(usize::from(caller)) {
            Some(Phase::Idle) => true,
            _ => false,
        }
    }

    /// Begins a call of an idle caller.
    pub(crate) fn begin(&mut self, caller: u16, operation: Operation) -> Reply
        requires { CanDraw self.old }
        ensures after { (layout : Layout) →
            self.new ≡ after_event layout self.old (Event.Begin caller operation) result }
        ensures replied { (layout : Layout) (size : ℕ) → IsReplied size layout self.old (Event.Begin caller operation) result }
    {
        if !self.is_idle(caller) {
            return Reply::Ignored;
        }
        let start = self.number + 1;
        Reply::Begun(self.draw(caller, Phase::Began(start, operation)))
    }

    // Where the call of a caller that acted stands.
    fn acted(&self, caller: u16) -> Option<(u32, usize)>
        ensures { MatchOption result ((lane position : ℕ) → IsDoing self.now caller (Phase.Acted lane position) → ⊥)
            (λ at. IsDoing self.now caller (Phase.Acted at.0 at.1)) }
    {
        match self.callers.get(usize::from(caller)) {
            Some(Phase::Acted(lane, position)) => Some((*lane, *position)),
            _ => None,
        }
    }

    /// Ends the call of a caller that acted.
    pub(crate) fn end(&mut self, caller: u16) -> Reply
        requires { CanDraw self.old }
        ensures after { (layout : Layout) →
            self.new ≡ after_event layout self.old (Event.End caller) result }
        ensures replied { (layout : Layout) (size : ℕ) → IsReplied size layout self.old (Event.End caller) result }
    {
        let Some((lane, position)) = self.acted(caller) else {
            return Reply::Ignored;
        };
        let end = self.draw(caller, Phase::Idle);
        self.set_end(lane, position, end);
        Reply::Ended(end)
    }

    // The call at a position of a lane gets its end.
    fn set_end(&mut self, lane: u32, position: usize, end: u64)
        ensures { self.new ≡ record self.old { lanes = with_end self.old.lanes lane position end } }
    {
        let index = lane as usize;
        if index < self.lanes.len() {
            self.lanes[index].set_end(position, end);
        }
    }

    // Whether a caller began a call that was not done yet.
    fn has_begun(&self, caller: u16) -> bool
        ensures { IsTrue result ↔ ((start : ℕ) × (operation : Operation)
            × IsDoing self.now caller (Phase.Began start operation)) }
    {
        match self.callers.get(usize::from(caller)) {
            Some(Phase::Began(_, _)) => true,
            _ => false,
        }
    }

    /// Takes the call of a caller that began one, which is idle then.
    pub(crate) fn take(&mut self, caller: u16) -> Option<OpenCall>
        ensures { TakesCall self.old caller result self.new }
    {
        if !self.has_begun(caller) {
            return None;
        }
        match mem::replace(&mut self.callers[usize::from(caller)], Phase::Idle) {
            Phase::Began(start, operation) => Some(OpenCall { start, operation }),
            _ => None,
        }
    }

    /// The number rises, and a call that was not refused is recorded.
    pub(crate) fn act(
        &mut self,
        caller: u16,
        lane: u32,
        noted: Option<Noted>,
    ) -> Result<(), AllocError>
        requires room { CanDraw self.old }
        requires caller { caller < length self.old.callers }
        requires lane { lane < length self.old.lanes }
        ensures { OnOk result (self.new ≡ after_noted self.old caller lane noted) }
    {
        let Some(noted) = noted else {
            self.draw(caller, Phase::Idle);
            return Ok(());
        };
        let position = self.lanes[lane as usize].push(noted)?;
        self.draw(caller, Phase::Acted(lane, position));
        Ok(())
    }

    /// The done calls of the lanes. Those that were not ended end at the number after the last.
    pub(crate) fn into_dones(self, alloc: Global) -> Result<Vec<Dones>, AllocError>
        requires { self.number ≤ 2 ^ 63 }
        ensures { IfOk result (λ lanes. lanes.items ≡ dones self) }
    {
        let last = self.number + 1;
        let mut lanes = Vec::new(alloc);
        for calls in self.lanes {
            lanes.push(calls.into_dones(alloc, last)?)?;
        }
        Ok(lanes)
    }
}
