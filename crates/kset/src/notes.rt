// What memory notes of one set, its strikes aside.
ghost use Rattle.std.specs.Prelude.{◌≡◌, ◌<◌, ◌↔◌, IsTrue};
ghost use Rattle.std.specs.FinSet as set;
ghost use Rattle.bloom.specs.Filter.{admits, with_bits};
ghost use Rattle.set_hash.specs.Place.{probes_of};
ghost use Rattle.record_pages.specs.Sizes.{max_set_records};
ghost use Rattle.kset.specs.Notes.{Notes, notes_code, no_notes, with_hit, notes_of_page};

use bloom::Filter;
use record_pages::{Layout, Records};
use rriparoo::HitBits;
use set_hash::{Placed, place};
use std::marker::Model;

/// What memory notes of one set beside its strikes: its filter and its hits.
#[derive(Drop)]
pub(crate) struct SetNotes {
    filter: Filter,
    hits: HitBits,
}

/// The notes of a set in which nothing is struck.
impl Model for SetNotes {
    ghost Value = { Notes };

    ghost coded = { notes_code };

    ghost view = { λ n. record { filter = n.filter; strikes = set.empty; hits = n.hits } };
}

impl SetNotes {
    /// Nothing is noted.
    pub(crate) fn empty() -> SetNotes
        ensures { result ≡ no_notes }
    {
        SetNotes {
            filter: Filter::empty(),
            hits: HitBits::empty(),
        }
    }

    /// What is noted once a page with these records was written.
    pub(crate) fn of_page(layout: &Layout, records: Records<'_>) -> SetNotes
        ensures { result ≡ notes_of_page records.entry }
    {
        let mut notes = SetNotes::empty();
        for lent in records {
            notes.admit(&place(layout, lent.key));
        }
        notes
    }

    // Adds a key to the filter.
    fn admit(&mut self, placed: &Placed)
        requires { placed.now.probes ≡ probes_of placed.now.hash }
        ensures { self.new ≡ record self.old {
          filter = with_bits self.old.filter (probes_of placed.now.hash);
        } }
    {
        self.filter.add(placed.probes);
    }

    /// Whether the filter has no bit.
    pub(crate) fn is_empty(&self) -> bool
        ensures { IsTrue result ↔ (self.now.filter ≡ set.empty) }
    {
        self.filter.is_empty()
    }

    /// Whether the filter admits a key of this place.
    pub(crate) fn may_hold(&self, placed: &Placed) -> bool
        requires { placed.now.probes ≡ probes_of placed.now.hash }
        ensures { result ≡ admits self.now.filter (probes_of placed.now.hash) }
    {
        self.filter.may_hold(placed.probes)
    }

    /// Notes a hit.
    pub(crate) fn hit(&mut self, slot: usize)
        requires { slot < max_set_records }
        ensures { self.new ≡ with_hit self.old slot }
    {
        self.hits.set(slot);
    }

    /// Whether a slot was hit.
    pub(crate) fn was_hit(&self, slot: usize) -> bool
        requires { slot < max_set_records }
        ensures { result ≡ set.contains self.now.hits slot }
    {
        self.hits.has(slot)
    }
}
