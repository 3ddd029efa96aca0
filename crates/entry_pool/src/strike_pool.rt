// The struck hashes of all sets, in one pool.
ghost use Rattle.std.specs.Prelude.{◌≡◌, ◌≤◌, ◌<◌, ◌*◌, true, IfOk, length};
ghost use Rattle.std.specs.Bool.{OnTrue, OnFalse};
ghost use Rattle.std.specs.FinSet.{empty, contains, insert};
ghost use Rattle.entry_pool.specs.Struck.{struck_at, with_struck, none_struck, has_place, can_strike};

use crate::strike_nodes::StrikeNodes;
use std::alloc::{AllocError, Global};
use std::marker::Model;

/// The hashes that are struck in sets: up to `StrikePool::MAX` distinct ones a set, and in all sets together as many as
/// the pool has places. All memory is taken when it is opened: 12 bytes a place and 5 a set.
#[derive(Drop)]
pub struct StrikePool {
    nodes: StrikeNodes,
}

/// What is struck in each set.
impl Model for StrikePool {
    ghost use Rattle.entry_pool.specs.Struck.{Struck, struck_code};
    ghost use Rattle.entry_pool.specs.StrikeChains.{pool_of};
    ghost use Rattle.entry_pool.specs.StrikePool.{struck_by, IsStruck};

    ghost Value = { Struck };

    ghost coded = { struck_code };

    ghost view = { λ p. struck_by (pool_of p.nodes) };

    ghost invariant = { λ p. IsStruck (pool_of p.nodes) };
}

impl StrikePool {
    /// The most hashes of a set.
    pub const MAX: u8 = 8;

    /// A pool in which nothing is struck, for this many sets, with this many places. All memory is taken here.
    pub fn open(alloc: Global, sets: u32, places: u32) -> Result<StrikePool, AllocError>
        requires sets { sets ≤ 65536 }
        requires places { places ≤ 524288 }
        ensures { IfOk result (λ p. p ≡ none_struck sets places) }
    {
        let nodes = StrikeNodes::open(alloc, sets, places)?;
        Ok(StrikePool { nodes })
    }

    /// Whether a hash is struck in a set.
    pub fn has(&self, set: u32, hash: u64) -> bool
        requires { set < length self.now.sets }
        ensures { result ≡ contains (struck_at self.now set) hash }
    {
        self.nodes.has(set, hash)
    }

    /// Strikes a hash in a set, and says whether there was room for it. A hash that is there needs none. Otherwise a place
    /// has to be free, and the set has `StrikePool::MAX` hashes at most; with as many places as all sets can fill, one is
    /// free whenever a set has fewer.
    pub fn add(&mut self, set: u32, hash: u64) -> bool
        requires { set < length self.old.sets }
        ensures room { result ≡ can_strike (has_place self.old) (struck_at self.old set) hash }
        ensures ample { 8 * length self.old.sets ≤ self.old.places →
            result ≡ can_strike true (struck_at self.old set) hash }
        ensures added { OnTrue result (self.new
            ≡ with_struck self.old set (insert (struck_at self.old set) hash)) }
        ensures full { OnFalse result (self.new ≡ self.old) }
    {
        if self.nodes.has(set, hash) {
            return true;
        }
        if self.nodes.count(set) == Self::MAX {
            return false;
        }
        if !self.nodes.has_room() {
            return false;
        }
        self.nodes.push(set, hash);
        true
    }

    /// Nothing is struck in a set any more. Its places are free.
    pub fn clear(&mut self, set: u32)
        requires { set < length self.old.sets }
        ensures { self.new ≡ with_struck self.old set empty }
    {
        self.nodes.clear(set);
    }
}
