// A turn of a command, or a flush, that is made access by access.
ghost use Rattle.std.specs.Prelude.{◌≡◌, ◌<◌};
ghost use Rattle.turn_register.specs.Places.{place_of};
ghost use Rattle.turn_register.specs.Turns.{turn_begun, flush_begun, next_turn};

use crate::delays::{is_due, later_of};
use crate::place::TurnPlace;

/// While this is the number of the last flush, every item is hidden.
pub const ALL_HIDDEN: u64 = u64::MAX;

const LOOKS: u32 = 0;

pub(crate) const GIVES: u32 = 1;

const FLUSHES: u32 = 2;

/// A turn of a command on a lane, or a flush. It is begun by one of the two functions below, and goes on by `go_on` until its place is
/// `Whole`. Any other numbers are safe too.
#[repr(C)]
#[derive(Clone, Copy)]
pub struct RegisterTurn {
    /// The number of its place: what its caller does next.
    pub at: u32,
    /// 0 a turn that gives an item no number, 1 a turn that gives one, 2 a flush.
    pub kind: u32,
    /// The number of the lane of the command's key.
    pub lane: u32,
    /// 0.
    pub reserved: u32,
    /// What its caller writes, if its place is a write.
    pub word: u64,
    /// The moment, in seconds since 1970.
    pub moment: u64,
    /// The moment at which a flush is to be made, 0 for at once.
    pub later: u64,
    /// The number that was drawn for an item.
    pub cas: u64,
    /// The number of the last flush: an item with a lower one is hidden.
    pub flushed: u64,
}

impl RegisterTurn {
    /// Begins a turn of a command on a lane. Its moment is now, or the last one of the lane if that is later.
    pub fn begin(lane: u32, draws: bool, now: u64, last: u64) -> RegisterTurn
        ensures { result ≡ turn_begun lane draws now last }
    {
        let kind = if draws { GIVES } else { LOOKS };
        RegisterTurn {
            lane,
            moment: now.max(last),
            ..RegisterTurn::of_kind(kind)
        }
    }

    /// Begins a flush after a delay in seconds, 0 for at once: up to 30 days count from now, and more are seconds since 1970. One that is
    /// to come takes the place of another that is.
    pub fn begin_flush(delay: u64, now: u64) -> RegisterTurn
        ensures { result ≡ flush_begun delay now }
    {
        RegisterTurn {
            moment: now,
            later: later_of(delay, now),
            ..RegisterTurn::of_kind(FLUSHES)
        }
    }

    ghost use Rattle.turn_register.specs.Turns.{first_place, turn_of_kind, at_place, writing};

    // A turn of a kind, at its first place.
    fn of_kind(kind: u32) -> RegisterTurn
        ensures { result ≡ turn_of_kind kind }
    {
        RegisterTurn {
            at: first_place(kind).number(),
            kind,
            lane: 0,
            reserved: 0,
            word: 0,
            moment: 0,
            later: 0,
            cas: 0,
            flushed: 0,
        }
    }

    // The same turn at another place.
    fn at_place(self, place: TurnPlace) -> RegisterTurn
        ensures { result ≡ at_place place self }
    {
        RegisterTurn {
            at: place.number(),
            ..self
        }
    }

    // The same turn at a place where its caller writes this.
    fn writing(self, place: TurnPlace, word: u64) -> RegisterTurn
        ensures { result ≡ writing place word self }
    {
        RegisterTurn {
            word,
            ..self.at_place(place)
        }
    }

    /// Goes on, after its caller made the access of its place and read this; what was read does not matter where nothing is. A turn that
    /// gives a number is whole only if the number is above that of the last flush.
    pub fn go_on(&mut self, read: u64)
        ensures exact { self.new ≡ next_turn self.old read }
        ensures above { place_of self.old.at ≡ TurnPlace.SeeFlushed → place_of self.new.at ≡ TurnPlace.Whole → self.old.kind ≡ 1
            → self.new.flushed < self.new.cas }
    {
        *self = self.after(read);
    }

    // The turn after what was read at its place.
    fn after(self, read: u64) -> RegisterTurn
        ensures { result ≡ next_turn self read }
    {
        match TurnPlace::of(self.at) {
            TurnPlace::Whole => self,
            TurnPlace::Draw => self.after_draw(read),
            TurnPlace::SeePending => self.after_pending(read),
            TurnPlace::SeeFlushed => self.after_flushed(read),
            TurnPlace::Lock => self.at_place(TurnPlace::SeeLocked),
            TurnPlace::SeeLocked => self.after_locked(read),
            TurnPlace::Hide => self.at_place(TurnPlace::DrawFlush),
            TurnPlace::DrawFlush => self.writing(TurnPlace::Show, read),
            TurnPlace::Show => self.writing(TurnPlace::Clear, 0),
            TurnPlace::Clear => self.after_flush(),
            TurnPlace::SetLater => self.at_place(TurnPlace::Unlock),
            TurnPlace::Unlock => self.after_unlock(),
        }
    }

    ghost use Rattle.turn_register.specs.Turns.{after_draw, after_pending, after_flushed, after_locked, after_flush, after_unlock};

    // A number was drawn.
    fn after_draw(self, cas: u64) -> RegisterTurn
        ensures { result ≡ after_draw self cas }
    {
        RegisterTurn {
            cas,
            ..self.at_place(TurnPlace::SeePending)
        }
    }

    // A flush that is due is made first.
    fn after_pending(self, pending: u64) -> RegisterTurn
        ensures { result ≡ after_pending self pending }
    {
        if is_due(pending, self.moment) {
            self.at_place(TurnPlace::Lock)
        } else {
            self.at_place(TurnPlace::SeeFlushed)
        }
    }

    // A number that is not above that of the last flush is given up: beside a flush that is under way by way of its lock.
    fn after_flushed(self, flushed: u64) -> RegisterTurn
        ensures { result ≡ after_flushed self flushed }
    {
        if self.kind != GIVES || flushed < self.cas {
            return RegisterTurn {
                flushed,
                ..self.at_place(TurnPlace::Whole)
            };
        }
        if flushed == ALL_HIDDEN {
            self.at_place(TurnPlace::Lock)
        } else {
            self.at_place(TurnPlace::Draw)
        }
    }

    // In the hold of the lock: the flush is made if it is for now, or if one that was to come is due.
    fn after_locked(self, pending: u64) -> RegisterTurn
        ensures { result ≡ after_locked self pending }
    {
        let is_now = self.kind == FLUSHES && self.later == 0;
        if is_now || is_due(pending, self.moment) {
            self.writing(TurnPlace::Hide, ALL_HIDDEN)
        } else {
            self.after_flush()
        }
    }

    // After a flush that was made, or was not to be: one that is to come is set.
    fn after_flush(self) -> RegisterTurn
        ensures { result ≡ after_flush self }
    {
        if self.kind == FLUSHES && self.later != 0 {
            self.writing(TurnPlace::SetLater, self.later)
        } else {
            self.at_place(TurnPlace::Unlock)
        }
    }

    // A flush is whole, and a turn begins again.
    fn after_unlock(self) -> RegisterTurn
        ensures { result ≡ after_unlock self }
    {
        self.at_place(place_again(self.kind))
    }
}

ghost use Rattle.turn_register.specs.Turns.{first_place, place_again};

// Where a turn of a kind begins.
fn first_place(kind: u32) -> TurnPlace
    ensures { result ≡ first_place kind }
{
    match kind {
        LOOKS => TurnPlace::SeePending,
        GIVES => TurnPlace::Draw,
        _ => TurnPlace::Lock,
    }
}

// Where a turn of a kind goes on after the lock.
fn place_again(kind: u32) -> TurnPlace
    ensures { result ≡ place_again kind }
{
    match kind {
        LOOKS => TurnPlace::SeePending,
        GIVES => TurnPlace::Draw,
        _ => TurnPlace::Whole,
    }
}
