// The walk over the rows of a set.
ghost use Rattle.entry_pool.specs.Rows.{in_set};
ghost use Rattle.std.specs.Prelude.{◌≡◌};

use crate::node::NONE;
use crate::pool::EntryPool;
use crate::row::Row;
use std::marker::Model;

/// The rows of a set, newest first.
#[derive(Drop)]
pub struct InSet<'a> {
    pool: &'a EntryPool,
    set: u32,
    mark: u32,
}

/// The rows that are left, newest first.
impl<'a> Model for InSet<'a> {
    ghost use Rattle.std.specs.Prelude.{List};
    ghost use Rattle.entry_pool.specs.declared.row.Row.{Row};
    ghost use Rattle.entry_pool.specs.Chains.{none};
    ghost use Rattle.entry_pool.specs.Rows.{in_set, rows_after, IsMark};

    ghost Value = { List Row };

    ghost view = { λ x. rows_after x.mark none (in_set x.set x.pool.now.rows) };

    ghost invariant = { λ x. IsMark x.mark (in_set x.set x.pool.now.rows) };
}

// The rows of a set of this pool.
pub(crate) fn rows_in_set(pool: &EntryPool, set: u32) -> InSet<'_>
    ensures { result ≡ in_set set pool.now.rows }
{
    InSet {
        pool,
        set,
        mark: NONE,
    }
}

impl<'a> Iterator for InSet<'a> {
    ghost use Rattle.std.specs.Iterator.{YieldsFirst, item_count};

    type Item = Row;

    ghost next_gives = { YieldsFirst (λ rest. rest) };

    ghost remaining = { item_count (λ rest. rest) };

    fn next(&mut self) -> Option<Row> {
        let row = self.pool.next_in(self.set, self.mark)?;
        self.mark = row.at;
        Some(row)
    }
}
