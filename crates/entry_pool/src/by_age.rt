// The walk over all rows.
ghost use Rattle.std.specs.Prelude.{◌≡◌};

use crate::node::NONE;
use crate::pool::EntryPool;
use crate::row::Row;
use std::marker::Model;

/// The rows, newest first.
#[derive(Drop)]
pub struct ByAge<'a> {
    pool: &'a EntryPool,
    mark: u32,
}

/// The rows that are left, newest first.
impl<'a> Model for ByAge<'a> {
    ghost use Rattle.std.specs.Prelude.{List};
    ghost use Rattle.entry_pool.specs.declared.row.Row.{Row};
    ghost use Rattle.entry_pool.specs.Chains.{none};
    ghost use Rattle.entry_pool.specs.Rows.{rows_after, IsMark};

    ghost Value = { List Row };

    ghost view = { λ x. rows_after x.mark none x.pool.now.rows };

    ghost invariant = { λ x. IsMark x.mark x.pool.now.rows };
}

// The rows of this pool.
pub(crate) fn rows_by_age(pool: &EntryPool) -> ByAge<'_>
    ensures { result ≡ pool.now.rows }
{
    ByAge { pool, mark: NONE }
}

impl<'a> Iterator for ByAge<'a> {
    ghost use Rattle.std.specs.Iterator.{YieldsFirst, item_count};

    type Item = Row;

    ghost next_gives = { YieldsFirst (λ rest. rest) };

    ghost remaining = { item_count (λ rest. rest) };

    fn next(&mut self) -> Option<Row> {
        let row = self.pool.next_older(self.mark)?;
        self.mark = row.at;
        Some(row)
    }
}
