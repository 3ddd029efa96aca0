// The walk over all rows, from the oldest one on.
ghost use Rattle.std.specs.Prelude.{◌≡◌, reverse};

use crate::node::NONE;
use crate::pool::EntryPool;
use crate::row::Row;
use std::marker::Model;

/// The rows, oldest first.
#[derive(Drop)]
pub struct FromOldest<'a> {
    pool: &'a EntryPool,
    mark: u32,
}

/// The rows that are left, oldest first.
impl<'a> Model for FromOldest<'a> {
    ghost use Rattle.std.specs.Prelude.{List, reverse};
    ghost use Rattle.entry_pool.specs.declared.row.Row.{Row};
    ghost use Rattle.entry_pool.specs.Chains.{none};
    ghost use Rattle.entry_pool.specs.Rows.{rows_after, IsMark};

    ghost Value = { List Row };

    ghost view = { λ x. rows_after x.mark none (reverse x.pool.now.rows) };

    ghost invariant = { λ x. IsMark x.mark (reverse x.pool.now.rows) };
}

// The rows of this pool.
pub(crate) fn rows_from_oldest(pool: &EntryPool) -> FromOldest<'_>
    ensures { result ≡ reverse pool.now.rows }
{
    FromOldest { pool, mark: NONE }
}

impl<'a> Iterator for FromOldest<'a> {
    ghost use Rattle.std.specs.Iterator.{YieldsFirst, item_count};

    type Item = Row;

    ghost next_gives = { YieldsFirst (λ rest. rest) };

    ghost remaining = { item_count (λ rest. rest) };

    fn next(&mut self) -> Option<Row> {
        let row = self.pool.next_newer(self.mark)?;
        self.mark = row.at;
        Some(row)
    }
}
