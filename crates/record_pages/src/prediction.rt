// How soon a record is predicted to be asked for again.
ghost use Rattle.std.specs.Prelude.{◌≡◌, ◌≤◌, ℕ, IsSome, IfSome, ◌↔◌};

use std::marker::Model;

/// A re-reference prediction (RRIP, Jaleel et al., ISCA 2010): 0 is soon, 7 is far.
#[derive(Clone, Copy, PartialEq, Eq)]
pub struct Prediction {
    number: u8,
}

impl Model for Prediction {
    ghost Value = { ℕ };

    ghost view = { λ p. p.number };

    ghost invariant = { λ p. p.number ≤ 7 };

    ghost inverse = { λ n. record { number = n } };
}

impl Prediction {
    /// The farthest prediction.
    pub const MAX: u8 = 7;

    /// The prediction with which a record enters the log. A hit there lowers it.
    pub const ENTERING: u8 = 6;

    /// The prediction with this number, or nothing if it is above `MAX`.
    pub fn new(number: u8) -> Option<Prediction>
        ensures some { IsSome result ↔ (number ≤ 7) }
        ensures value { IfSome result (λ p. p ≡ number) }
    {
        if number > Self::MAX {
            return None;
        }
        Some(Prediction { number })
    }

    /// Its number, 0 to 7.
    pub fn get(self) -> u8
        ensures value { result ≡ self }
        ensures range { self ≤ 7 }
    {
        self.number
    }
}
