// The first row of a kind, and the next row of a walk.
ghost use Rattle.std.specs.Prelude.{◌≡◌};
ghost use Rattle.entry_pool.specs.Chains.{IsDistinct};
ghost use Rattle.entry_pool.specs.Rows.{numbers, in_set, IsMark, IsNext};
ghost use Rattle.klog_index.specs.Entries.{is_at, is_in, is_on};
ghost use Rattle.klog_index.specs.Rows.{row_of};

use crate::entries_of::entry_of;
use crate::place::Place;
use entry_pool::{EntryPool, Row};

// What is true of every pool. Its model hides that, and its length tells it.
fn know_distinct(pool: &EntryPool)
    ensures { IsDistinct (numbers pool.now.rows) }
{
    let _count = pool.len();
}

// The row of a set at a place.
pub(crate) fn row_in(pool: &EntryPool, set: u32, place: Place) -> Option<Row>
    ensures found { result ≡ row_of (is_in set place) pool.now.rows }
    ensures apart { IsDistinct (numbers pool.now.rows) }
{
    know_distinct(pool);
    let mut left = pool.in_set(set);
    while let Some(row) = left.next() {
        if lies_at(&row, place) {
            return Some(row);
        }
    }
    None
}

// The row at a place.
pub(crate) fn row_at(pool: &EntryPool, place: Place) -> Option<Row>
    ensures found { result ≡ row_of (is_at place) pool.now.rows }
    ensures apart { IsDistinct (numbers pool.now.rows) }
{
    know_distinct(pool);
    let mut left = pool.by_age();
    while let Some(row) = left.next() {
        if lies_at(&row, place) {
            return Some(row);
        }
    }
    None
}

// The next older row after a mark.
pub(crate) fn row_behind(pool: &EntryPool, mark: u32) -> Option<Row>
    requires { IsMark mark pool.now.rows }
    ensures next { IsNext mark pool.now.rows result }
    ensures apart { IsDistinct (numbers pool.now.rows) }
{
    know_distinct(pool);
    pool.next_older(mark)
}

// Of the rows of a set, the next older one after a mark.
pub(crate) fn row_behind_in(pool: &EntryPool, set: u32, mark: u32) -> Option<Row>
    requires { IsMark mark (in_set set pool.now.rows) }
    ensures next { IsNext mark (in_set set pool.now.rows) result }
    ensures apart { IsDistinct (numbers pool.now.rows) }
{
    know_distinct(pool);
    pool.next_in(set, mark)
}

ghost use Rattle.klog_index.specs.Rows.{entry_of};

// Whether a row lies at a place.
fn lies_at(row: &Row, place: Place) -> bool
    ensures { result ≡ is_at place (entry_of row.now.item) }
{
    entry_of(&row.item).place == place
}

// Whether a row lies on a page of the segment with this name.
pub(crate) fn lies_on(row: &Row, segment: u16, page: u8) -> bool
    ensures { result ≡ is_on segment page (entry_of row.now.item) }
{
    row.item.segment == segment && row.item.page == page
}
