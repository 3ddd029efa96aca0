// The order that a history is claimed to have.
ghost use Rattle.std.specs.Prelude.{◌≡◌, ◌<◌, ◌^◌, [], ◌∷◌, ◌++◌, ◌↔◌, All, IsTrue, ℕ, List, Some, length, OnOk, OnErr, slice_get};

use std::alloc::{AllocError, Global};
use std::marker::Model;

/// An order of a history: the positions of its calls, the position of the first call first.
///
/// A place is an index into the certificate, a position one into the history.
#[derive(Drop)]
pub struct Certificate {
    positions: Vec<u32>,
}

impl Model for Certificate {
    ghost Value = { List ℕ };

    ghost view = { λ c. c.positions.items };

    ghost invariant = { λ c. All (λ position. position < 2 ^ 32) c.positions.items };
}

impl Certificate {
    /// The certificate with no places. It takes no memory.
    pub fn new(alloc: Global) -> Certificate
        ensures { result ≡ [] }
    {
        Certificate {
            positions: Vec::new(alloc),
        }
    }

    /// How many places there are.
    pub fn len(&self) -> usize
        ensures count { result ≡ length self.now }
        ensures positions { All (λ position. position < 2 ^ 32) self.now }
    {
        self.positions.len()
    }

    /// Whether there are no places.
    pub fn is_empty(&self) -> bool
        ensures { IsTrue result ↔ (self.now ≡ []) }
    {
        self.positions.is_empty()
    }

    /// Puts a position at the next place, or leaves the certificate as it was if memory is refused.
    pub fn push(&mut self, position: u32) -> Result<(), AllocError>
        ensures ok { OnOk result (self.new ≡ self.old ++ position ∷ []) }
        ensures err { OnErr result (self.new ≡ self.old) }
    {
        self.positions.push(position)?;
        Ok(())
    }

    /// The position at a place.
    pub fn at(&self, place: usize) -> u32
        requires { place < length self.now }
        ensures { slice_get self.now place ≡ Some result }
    {
        self.positions[place]
    }
}
