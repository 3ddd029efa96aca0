// The callers of a text, by their names.
ghost use Rattle.std.specs.Prelude.{◌≡◌, ◌≢◌, ◌<◌, ◌≤◌, [], List, ℕ, Some, None, length, slice_get, IfOk, IfErr, OnErr, IfNone, IfSome};
ghost use Rattle.history_text.specs.Names.{names_of};
ghost use Rattle.history_text.specs.Text.{number_of, noted};
ghost use Rattle.history_text.specs.Outcome.{IsRefused};

use crate::line_cause::LineCause;
use crate::text_fault::TextFault;
use indexmap::IndexSet;
use std::alloc::Global;
use std::hash::BuildHasher;
use std::marker::Model;

/// The most callers of a text.
const MAX_CALLERS: usize = 65536;

/// The names of callers, numbered from 0 as they first appear.
#[derive(Drop)]
pub struct Callers<S: BuildHasher> {
    names: IndexSet<Vec<u8>, S>,
}

impl<S: BuildHasher> Model for Callers<S> {
    ghost use Rattle.std.specs.Prelude.{List, ℕ, ◌≤◌, length};
    ghost use Rattle.history_text.specs.Names.{names_of};

    ghost Value = { List (List ℕ) };

    ghost view = { λ c. names_of c.names.keys };

    ghost invariant = { λ c. length c.names.keys ≤ 65536 };
}

impl<S: BuildHasher> Callers<S> {
    /// No callers. Names are looked up by hashes as `hash_builder` makes them. It takes no memory.
    pub(crate) fn new(alloc: Global, hash_builder: S) -> Callers<S>
        ensures { result ≡ [] }
    {
        Callers {
            names: IndexSet::with_hasher(alloc, hash_builder),
        }
    }

    /// How many callers there are.
    pub fn len(&self) -> usize
        ensures count { result ≡ length self.now }
        ensures few { length self.now ≤ 65536 }
    {
        self.names.len()
    }

    /// The names, by the callers' numbers.
    pub fn names(&self) -> &[Vec<u8>]
        ensures { names_of result.now ≡ self.now }
    {
        self.names.as_slice()
    }

    /// The name of a caller.
    pub fn name(&self, number: u16) -> Option<&[u8]>
        ensures some { IfSome result (λ name. slice_get self.now number ≡ Some name.now) }
        ensures none { IfNone result (slice_get self.now number ≡ None) }
    {
        match self.names.get_index(number as usize) {
            Some(name) => Some(name.as_slice()),
            None => None,
        }
    }

    /// The number of a caller by its name, which is noted if it is new.
    pub(crate) fn number(&mut self, alloc: Global, name: &[u8]) -> Result<u16, TextFault>
        ensures number { IfOk result (λ number. number ≡ number_of self.old name.now) }
        ensures noted { IfOk result (λ number. self.new ≡ noted self.old name.now) }
        ensures few { IfOk result (λ number. number < 65536) }
        ensures refused { IfErr result (λ fault. IsRefused (number_of self.old name.now) fault) }
        ensures kept { IfErr result (λ fault. fault ≢ TextFault.OutOfMemory → self.new ≡ self.old) }
    {
        if let Some(known) = self.names.get_index_of(name) {
            return Ok(known as u16);
        }
        let number = self.names.len();
        if number >= MAX_CALLERS {
            return Err(TextFault::Bad(LineCause::TooManyCallers));
        }
        let Ok(name) = Vec::from_slice(alloc, name) else {
            return Err(TextFault::OutOfMemory);
        };
        let Ok(_) = self.names.insert(name) else {
            return Err(TextFault::OutOfMemory);
        };
        Ok(number as u16)
    }
}
