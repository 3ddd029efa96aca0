// Of some puts the two that expire last.
ghost use Rattle.std.specs.Prelude.{◌≡◌, ◌<◌, length};

use crate::put::{Put, expiry};
use crate::readable::Readable;
use record_pages::is_live;

/// Of some puts, by their indexes, the two that expire last.
#[derive(Clone, Copy)]
pub(crate) enum Best {
    /// There is none.
    Empty,
    /// There is this one.
    One(u32),
    /// Of several the one that expires last, and the one of the others that does.
    Two(u32, u32),
}

impl Best {
    ghost use Rattle.certificate_finder.specs.Bests.{AreAmong, IsWith, SaysLive};

    /// With one put more.
    pub(crate) fn with(self, puts: &[Put], index: u32) -> Best
        requires among { AreAmong puts.now self }
        requires within { index < length puts.now }
        ensures { IsWith puts.now self index result }
    {
        match self {
            Best::Empty => Best::One(index),
            Best::One(first) => {
                if expiry(puts, first) < expiry(puts, index) {
                    Best::Two(index, first)
                } else {
                    Best::Two(first, index)
                }
            }
            Best::Two(first, second) => {
                if expiry(puts, first) < expiry(puts, index) {
                    Best::Two(index, first)
                } else if expiry(puts, second) < expiry(puts, index) {
                    Best::Two(first, index)
                } else {
                    Best::Two(first, second)
                }
            }
        }
    }

    /// Which of them are live at a moment.
    pub(crate) fn reading(self, puts: &[Put], moment: u64) -> Readable
        requires { AreAmong puts.now self }
        ensures { SaysLive puts.now moment self result }
    {
        match self {
            Best::Empty => Readable::Nothing,
            Best::One(first) => {
                if is_live(expiry(puts, first), moment) {
                    Readable::One(first)
                } else {
                    Readable::Nothing
                }
            }
            Best::Two(first, second) => {
                if is_live(expiry(puts, second), moment) {
                    Readable::Several
                } else if is_live(expiry(puts, first), moment) {
                    Readable::One(first)
                } else {
                    Readable::Nothing
                }
            }
        }
    }
}
