// A world of lanes and callers, as it is played.
ghost use Rattle.std.specs.Prelude.{◌≡◌, ◌<◌, length, map, IfOk, OnOk};
ghost use Rattle.history_recorder.specs.Books.{after_event, IsReplied, IsReplyTo, IsBackgroundEvent, CanDraw};
ghost use Rattle.history_recorder.specs.World.{LanesStep, OneSteps};
ghost use Rattle.history_recorder.specs.Commands.{IsBackground};
ghost use Rattle.history_recorder.specs.Game.{IsGame, AreHonest, Plays, HasPlayed, CanPlay, background_lane, unboxed};

use crate::event::Event;
use crate::ledger::Ledger;
use crate::played_lane::PlayedLane;
use crate::reply::{Replies, Reply};
use crate::stamps::Stamps;
use record_pages::Layout;
use set_hash::place;
use std::alloc::{AllocError, Global};

/// A world of lanes and callers, as it is played: its books, and its lanes.
#[derive(Drop)]
pub(crate) struct Game<L: PlayedLane<PAGE>, const PAGE: usize> {
    layout: Layout,
    ledger: Ledger,
    lanes: Vec<Box<L>>,
}

impl<L: PlayedLane<PAGE>, const PAGE: usize> Game<L, PAGE> {
    /// A game of these books and lanes.
    pub(crate) fn new(layout: Layout, ledger: Ledger, lanes: Vec<Box<L>>) -> Self
        ensures layout { result.layout ≡ layout }
        ensures ledger { result.ledger ≡ ledger }
        ensures lanes { result.lanes.items ≡ lanes.items }
    {
        Game {
            layout,
            ledger,
            lanes,
        }
    }

    /// The books at the end.
    pub(crate) fn into_books(self) -> Ledger
        ensures { result ≡ self.ledger }
    {
        self.ledger
    }

    /// One lane takes a background step.
    fn background(&mut self, lane: u32, event: &Event) -> Reply
        requires lane { lane < length self.old.lanes.items }
        requires kind { IsBackgroundEvent event.now }
        requires kept { IsGame L.layout L.lane L.honest L.calls L.state self.old.layout
            self.old.ledger (unboxed self.old.lanes.items) }
        ensures layout { self.new.layout ≡ self.old.layout }
        ensures ledger { self.new.ledger ≡ self.old.ledger }
        ensures kept { IsGame L.layout L.lane L.honest L.calls L.state self.new.layout
            self.new.ledger (unboxed self.new.lanes.items) }
        ensures honest { AreHonest L.honest (unboxed self.old.lanes.items) →
            AreHonest L.honest (unboxed self.new.lanes.items) }
        ensures kind { IsReplyTo event.now result }
        ensures step { AreHonest L.honest (unboxed self.old.lanes.items) →
            OneSteps lane (λ was is. IsBackground PAGE self.old.layout event.now was result is)
            (map L.state (unboxed self.old.lanes.items))
            (map L.state (unboxed self.new.lanes.items)) }
    {
        self.lanes[lane as usize].background(event)
    }

    /// A caller's call is done by the lane of its key.
    fn act(&mut self, caller: u16) -> Result<Reply, AllocError>
        requires room { CanDraw self.old.ledger }
        requires kept { IsGame L.layout L.lane L.honest L.calls L.state self.old.layout
            self.old.ledger (unboxed self.old.lanes.items) }
        ensures layout { OnOk result (self.new.layout ≡ self.old.layout) }
        ensures kept { OnOk result (IsGame L.layout L.lane L.honest L.calls L.state self.new.layout
            self.new.ledger (unboxed self.new.lanes.items)) }
        ensures honest { AreHonest L.honest (unboxed self.old.lanes.items) →
            OnOk result (AreHonest L.honest (unboxed self.new.lanes.items)) }
        ensures ledger { IfOk result (λ reply. self.new.ledger
            ≡ after_event self.old.layout self.old.ledger (Event.Act caller) reply) }
        ensures replied { IfOk result (IsReplied PAGE self.old.layout self.old.ledger
            (Event.Act caller)) }
        ensures step { AreHonest L.honest (unboxed self.old.lanes.items) →
            IfOk result (λ reply. LanesStep PAGE self.old.layout self.old.ledger
            (map L.state (unboxed self.old.lanes.items)) (Event.Act caller) reply
            (map L.state (unboxed self.new.lanes.items))) }
    {
        let Some(call) = self.ledger.take(caller) else {
            return Ok(Reply::Ignored);
        };
        let point = self.ledger.number() + 1;
        let stamps = Stamps {
            caller,
            start: call.start,
            point,
        };
        let lane = place(&self.layout, call.operation.key().bytes()).lane;
        let acted = self.lanes[lane as usize].act(stamps, call.operation)?;
        self.ledger.act(caller, lane, acted.noted)?;
        Ok(acted.reply)
    }

    /// The lane with this number, if there is one, takes a background step.
    fn step_lane(&mut self, lane: u32, event: &Event) -> Reply
        requires kind { IsBackgroundEvent event.now }
        requires lane { background_lane event.now ≡ lane }
        requires kept { IsGame L.layout L.lane L.honest L.calls L.state self.old.layout
            self.old.ledger (unboxed self.old.lanes.items) }
        ensures happens { Plays L.layout L.lane L.honest L.calls L.state PAGE self.old.layout
            self.old.ledger (unboxed self.old.lanes.items) event.now result self.new.layout
            self.new.ledger (unboxed self.new.lanes.items) }
    {
        if lane as usize >= self.lanes.len() {
            return Reply::Ignored;
        }
        self.background(lane, event)
    }

    /// An event happens, and is replied. If memory is refused nothing is said of the game.
    fn step(&mut self, event: &Event) -> Result<Reply, AllocError>
        requires room { CanDraw self.old.ledger }
        requires kept { IsGame L.layout L.lane L.honest L.calls L.state self.old.layout
            self.old.ledger (unboxed self.old.lanes.items) }
        ensures happens { IfOk result (λ reply. Plays L.layout L.lane L.honest L.calls L.state PAGE
            self.old.layout self.old.ledger (unboxed self.old.lanes.items) event.now reply
            self.new.layout self.new.ledger (unboxed self.new.lanes.items)) }
    {
        match event {
            Event::Begin(caller, operation) => {
                let copy = operation.try_clone()?;
                Ok(self.ledger.begin(*caller, copy))
            }
            Event::Act(caller) => match self.act(*caller) {
                Ok(reply) => Ok(reply),
                Err(refused) => Err(refused),
            },
            Event::End(caller) => Ok(self.ledger.end(*caller)),
            Event::Flush(lane) => Ok(self.step_lane(*lane, event)),
            Event::MoveBegin(lane) => Ok(self.step_lane(*lane, event)),
            Event::Commit(lane, _, _) => Ok(self.step_lane(*lane, event)),
            Event::Abort(lane, _) => Ok(self.step_lane(*lane, event)),
        }
    }

    /// Events happen one after the other, and each is replied. If memory is refused nothing is said of the game.
    pub(crate) fn run(&mut self, alloc: Global, events: &[Event]) -> Result<Replies, AllocError>
        requires room { CanPlay self.old.ledger events.now }
        requires kept { IsGame L.layout L.lane L.honest L.calls L.state self.old.layout
            self.old.ledger (unboxed self.old.lanes.items) }
        ensures played { IfOk result (λ replies. HasPlayed L.layout L.lane L.honest L.calls L.state
            PAGE self.old.layout self.old.ledger (unboxed self.old.lanes.items) events.now replies
            self.new.layout self.new.ledger (unboxed self.new.lanes.items)) }
    {
        let mut replies = Replies::new(alloc);
        for event in events {
            let reply = self.step(event)?;
            replies.push(reply)?;
        }
        Ok(replies)
    }
}
