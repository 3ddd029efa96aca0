// The walk over the entries of a set.
ghost use Rattle.std.specs.Prelude.{◌≡◌};
ghost use Rattle.klog_index.specs.Rows.{entry_of, entries_of};

use crate::entry::Entry;
use crate::place::Place;
use entry_pool::{InSet, PoolItem};
use std::marker::Model;

/// The entries of a set, newest first.
#[derive(Drop)]
pub struct EntriesOf<'a> {
    rows: InSet<'a>,
}

/// The entries that are left, newest first.
impl<'a> Model for EntriesOf<'a> {
    ghost use Rattle.std.specs.Prelude.{List};
    ghost use Rattle.klog_index.specs.declared.entry.Entry.{Entry};
    ghost use Rattle.klog_index.specs.Rows.{entries_of};

    ghost Value = { List Entry };

    ghost view = { λ x. entries_of x.rows };
}

// The entries of these rows.
pub(crate) fn entries_in(rows: InSet<'_>) -> EntriesOf<'_>
    ensures { result ≡ entries_of rows.entry }
{
    EntriesOf { rows }
}

// The entry that an item notes.
pub(crate) fn entry_of(item: &PoolItem) -> Entry
    ensures { result ≡ entry_of item.now }
{
    Entry {
        set: item.set,
        tag: item.tag,
        place: Place {
            segment: item.segment,
            page: item.page,
            slot: item.slot,
        },
        prediction: item.prediction,
    }
}

impl<'a> Iterator for EntriesOf<'a> {
    ghost use Rattle.std.specs.Iterator.{YieldsFirst, item_count};

    type Item = Entry;

    ghost next_gives = { YieldsFirst (λ rest. rest) };

    ghost remaining = { item_count (λ rest. rest) };

    fn next(&mut self) -> Option<Entry> {
        let row = self.rows.next()?;
        Some(entry_of(&row.item))
    }
}
