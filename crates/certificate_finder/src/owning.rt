// With which write each call of a history goes.
use crate::owner::Owner;
use std::alloc::{AllocError, Global};

/// With which write each call of a history goes, by positions.
#[derive(Drop)]
pub(crate) struct Owners {
    /// For each call the position of the put that it reads, if it is a hit of one put alone; otherwise its own
    /// position.
    pub(crate) owners: Vec<u32>,
    /// The positions of the hits that can have read several puts.
    pub(crate) unsure: Vec<u32>,
    /// The positions of the hits that can have read no put.
    pub(crate) wrong: Vec<u32>,
}

impl Owners {
    ghost use Rattle.std.specs.Prelude.{◌≡◌, OnOk, []};
    ghost use Rattle.certificate_finder.specs.Owning.{IsNoted};

    /// Those of no calls.
    pub(crate) fn new(alloc: Global) -> Owners
        ensures owners { result.owners.items ≡ [] }
        ensures unsure { result.unsure.items ≡ [] }
        ensures wrong { result.wrong.items ≡ [] }
    {
        Owners {
            owners: Vec::new(alloc),
            unsure: Vec::new(alloc),
            wrong: Vec::new(alloc),
        }
    }

    /// Notes with which write the call at a position goes.
    pub(crate) fn note(&mut self, position: u32, owner: Owner) -> Result<(), AllocError>
        ensures { OnOk result (IsNoted position owner self.old self.new) }
    {
        match owner {
            Owner::Itself => self.owners.push(position)?,
            Owner::Put(put) => self.owners.push(put)?,
            Owner::Unsure => {
                self.owners.push(position)?;
                self.unsure.push(position)?;
            }
            Owner::Nothing => {
                self.owners.push(position)?;
                self.wrong.push(position)?;
            }
        }
        Ok(())
    }
}
