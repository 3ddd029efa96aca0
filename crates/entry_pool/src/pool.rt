// The pool of rows.
ghost use Rattle.std.specs.Prelude.{◌≡◌, ◌<◌, ◌≤◌, ◌^◌, ◌∷◌, [], Some, None, IfOk, length, reverse};
ghost use Rattle.std.specs.List.{last_or};
ghost use Rattle.entry_pool.specs.Chains.{IsDistinct};
ghost use Rattle.entry_pool.specs.Rows.{numbers, in_set, with_rows, without_at, with_prediction_at, IsHeld, IsMark, IsNext};

use crate::by_age::{ByAge, rows_by_age};
use crate::from_oldest::{FromOldest, rows_from_oldest};
use crate::in_set::{InSet, rows_in_set};
use crate::links::Links;
use crate::node::{NONE, Node};
use crate::packed_node::PackedNode;
use crate::pool_item::PoolItem;
use crate::row::Row;
use record_pages::Prediction;
use std::alloc::{AllocError, Global};
use std::marker::Model;

/// Items in a pool of nodes, chained by age and by set. All memory is taken when it is opened.
#[derive(Drop)]
pub struct EntryPool {
    links: Links,
}

/// Its rows, newest first.
impl Model for EntryPool {
    ghost use Rattle.entry_pool.specs.Rows.{Rows};

    ghost Value = { Rows };

    ghost use Rattle.entry_pool.specs.Pool.{rows_in, IsSound};

    ghost view = { λ p. rows_in p.links };

    ghost invariant = { λ p. IsSound p.links };
}

impl EntryPool {
    /// A pool with no row, of this many sets, for this many rows. All memory is taken here.
    pub fn open(alloc: Global, sets: u32, limit: u32) -> Result<EntryPool, AllocError>
        requires sets { sets ≤ 65536 }
        requires limit { limit ≤ 1048576 }
        ensures { IfOk result (λ p. p ≡ record { sets = sets; limit = limit; rows = [] }) }
    {
        let nodes = free_nodes(alloc, limit)?;
        let heads = vec![in alloc; NONE; sets as usize]?;
        Ok(EntryPool {
            links: Links {
                nodes,
                heads,
                newest: NONE,
                oldest: NONE,
                free: last_of(limit),
                count: 0,
            },
        })
    }

    /// How many rows there are.
    pub fn len(&self) -> usize
        ensures len { result ≡ length self.now.rows }
        ensures within { length self.now.rows ≤ self.now.limit }
        ensures apart { IsDistinct (numbers self.now.rows) }
    {
        self.links.count
    }

    /// How many rows there may be.
    pub fn limit(&self) -> usize
        ensures { result ≡ self.now.limit }
    {
        self.links.nodes.len()
    }

    /// Holds an item before the others, and gives the number of its row.
    pub fn push(&mut self, item: PoolItem) -> u32
        requires room { length self.old.rows < self.old.limit }
        requires set { item.set < self.old.sets }
        requires segment { item.segment < 2 ^ 9 }
        requires page { item.page < 2 ^ 6 }
        requires slot { item.slot < 2 ^ 6 }
        ensures { self.new ≡ with_rows self.old (record { at = result; item = item } ∷ self.old.rows) }
    {
        let _number = item.prediction.get();
        self.links.give(item)
    }

    /// Drops the row with this number.
    pub fn remove(&mut self, at: u32)
        requires { IsHeld at self.old.rows }
        ensures { self.new ≡ with_rows self.old (without_at at self.old.rows) }
    {
        let set = self.links.item(at).set;
        let before = self.links.before(set, at);
        self.links.take(at, before);
    }

    /// Drops the row that comes next after a mark among those of its set: a row's number, or `NONE` for the place
    /// before the first.
    pub fn remove_next(&mut self, mark: u32, row: &Row)
        requires mark { IsMark mark (in_set row.now.item.set self.old.rows) }
        requires next { IsNext mark (in_set row.now.item.set self.old.rows) (Some row.now) }
        ensures { self.new ≡ with_rows self.old (without_at row.now.at self.old.rows) }
    {
        self.links.take(row.at, mark);
    }

    /// Notes another prediction in the row with this number.
    pub fn set_prediction(&mut self, at: u32, prediction: Prediction)
        requires { IsHeld at self.old.rows }
        ensures { self.new ≡ with_rows self.old (with_prediction_at at prediction self.old.rows) }
    {
        self.links.set_prediction(at, prediction);
    }

    /// Of the rows of a set, the next older one after a mark: a row's number, or `NONE` for the place before the first.
    pub fn next_in(&self, set: u32, mark: u32) -> Option<Row>
        requires { IsMark mark (in_set set self.now.rows) }
        ensures { IsNext mark (in_set set self.now.rows) result }
    {
        let at = self.links.next(set, mark);
        if at == NONE {
            return None;
        }
        Some(Row {
            at,
            item: self.links.item(at),
        })
    }

    /// The next older row after a mark: a row's number, or `NONE` for the place before the first.
    pub fn next_older(&self, mark: u32) -> Option<Row>
        requires { IsMark mark self.now.rows }
        ensures { IsNext mark self.now.rows result }
    {
        let at = self.links.older(mark);
        if at == NONE {
            return None;
        }
        Some(Row {
            at,
            item: self.links.item(at),
        })
    }

    // The next newer row after a mark: a row's number, or `NONE` for the place before the oldest.
    pub(crate) fn next_newer(&self, mark: u32) -> Option<Row>
        requires { IsMark mark (reverse self.now.rows) }
        ensures { IsNext mark (reverse self.now.rows) result }
    {
        let at = self.links.newer(mark);
        if at == NONE {
            return None;
        }
        Some(Row {
            at,
            item: self.links.item(at),
        })
    }

    /// The rows of a set, newest first.
    pub fn in_set(&self, set: u32) -> InSet<'_>
        ensures { result ≡ in_set set self.now.rows }
    {
        rows_in_set(self, set)
    }

    /// The rows, newest first.
    pub fn by_age(&self) -> ByAge<'_>
        ensures { result ≡ self.now.rows }
    {
        rows_by_age(self)
    }

    /// The rows, oldest first.
    pub fn from_oldest(&self) -> FromOldest<'_>
        ensures { result ≡ reverse self.now.rows }
    {
        rows_from_oldest(self)
    }

    /// The oldest row.
    pub fn oldest(&self) -> Option<Row>
        ensures { result ≡ last_or None self.now.rows }
    {
        let at = self.links.newer(NONE);
        if at == NONE {
            return None;
        }
        Some(Row {
            at,
            item: self.links.item(at),
        })
    }
}

ghost use Rattle.entry_pool.specs.Fresh.{AreFree, number_before};

// Free nodes, each of which leads to the one before it.
fn free_nodes(alloc: Global, limit: u32) -> Result<Vec<PackedNode>, AllocError>
    requires { limit ≤ 1048576 }
    ensures { IfOk result (λ nodes. AreFree limit nodes.items) }
{
    let mut nodes = Vec::with_capacity(alloc, limit as usize)?;
    let mut before = NONE;
    for at in 0..limit {
        nodes.push_reserved(free_node(before));
        before = at;
    }
    Ok(nodes)
}

// A free node.
fn free_node(next: u32) -> PackedNode
    requires { next < 2 ^ 21 }
    ensures { result.next ≡ next }
{
    PackedNode::new(Node {
        item: PoolItem {
            set: 0,
            tag: 0,
            segment: 0,
            page: 0,
            slot: 0,
            prediction: Prediction::new(0).unwrap(),
        },
        next,
        older: NONE,
        newer: NONE,
    })
}

// The last of this many nodes.
fn last_of(limit: u32) -> u32
    ensures { result ≡ number_before limit }
{
    if limit == 0 { NONE } else { limit - 1 }
}
