// The marks of a move in flight.
ghost use Rattle.std.specs.Prelude.{◌≡◌, [], ◌∷◌, ◌++◌, length, map, OnOk};

use crate::mark::Mark;
use std::alloc::{AllocError, Global};
use std::marker::Model;

/// A mark for each item of a move, in the order of its items.
#[derive(Drop)]
pub(crate) struct Marks {
    marks: Vec<Mark>,
}

impl Model for Marks {
    ghost use Rattle.std.specs.Prelude.{List};
    ghost use Rattle.mover.specs.declared.mark.Mark.{Mark};

    ghost Value = { List Mark };

    ghost view = { λ list. list.marks.items };
}

impl Marks {
    ghost use Rattle.mover.specs.Flight.{mark_struck, is_struck_by};

    /// No marks. They take no memory.
    pub(crate) fn new(alloc: Global) -> Marks
        ensures { result ≡ [] }
    {
        Marks {
            marks: Vec::new(alloc),
        }
    }

    /// Puts a mark after the others, or leaves them as they were if memory is refused.
    pub(crate) fn push(&mut self, mark: Mark) -> Result<(), AllocError>
        ensures { OnOk result (self.new ≡ self.old ++ mark ∷ []) }
    {
        self.marks.push(mark)?;
        Ok(())
    }

    /// A key of this hash is struck.
    pub(crate) fn strike(&mut self, hash: u64)
        ensures { self.new ≡ map (mark_struck hash) self.old }
    {
        for mark in self.marks.iter_mut() {
            *mark = mark.after_strike(hash);
        }
    }

    /// Whether the item with this number is there, and was struck.
    pub(crate) fn is_struck(&self, item: usize) -> bool
        ensures { result ≡ is_struck_by self.now item }
    {
        match self.marks.get(item) {
            Some(mark) => mark.struck,
            None => false,
        }
    }
}
