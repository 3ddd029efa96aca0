// The nodes of struck hashes, and where the chain of each set begins.
ghost use Rattle.std.specs.Prelude.{◌≡◌, ◌≢◌, ◌<◌, ◌≤◌, ◌+◌, nat_lt, IfOk, length, slice_index_or};
ghost use Rattle.entry_pool.specs.StrikeChains.{pool_of, chain_of, frees_of, marks_of, is_among, IsSound, IsOpened, Pushes, Pops, Clears, AreSuccessors};

use std::alloc::{AllocError, Global};

// The hashes that are struck in sets, each a node of one pool. The nodes of a set are a chain, and so are those that are
// free. All memory is taken when it is opened.
#[derive(Drop)]
pub(crate) struct StrikeNodes {
    pub(crate) firsts: Vec<u32>,
    pub(crate) counts: Vec<u8>,
    pub(crate) links: Vec<u32>,
    pub(crate) hashes: Vec<u64>,
    pub(crate) free: u32,
    pub(crate) free_count: u32,
}

impl StrikeNodes {
    // A pool in which nothing is struck, for this many sets, with places for this many hashes in all. All memory is
    // taken here.
    pub(crate) fn open(alloc: Global, sets: u32, places: u32) -> Result<StrikeNodes, AllocError>
        requires sets { sets ≤ 65536 }
        requires places { places ≤ 524288 }
        ensures { IfOk result (λ p. IsOpened (pool_of p) sets places) }
    {
        let firsts = vec![in alloc; 0u32; sets as usize]?;
        let counts = vec![in alloc; 0u8; sets as usize]?;
        let hashes = vec![in alloc; 0u64; places as usize]?;
        let links = successors(alloc, places)?;
        Ok(StrikeNodes {
            firsts,
            counts,
            links,
            hashes,
            free: 0,
            free_count: places,
        })
    }

    // How many hashes are struck in a set.
    pub(crate) fn count(&self, set: u32) -> u8
        requires { set < length (pool_of self.now).counts }
        ensures { result ≡ slice_index_or (pool_of self.now).counts set 0 }
    {
        self.counts[set as usize]
    }

    // The first node of a set's chain.
    fn first(&self, set: u32) -> u32
        requires { set < length (pool_of self.now).firsts }
        ensures { result ≡ slice_index_or (pool_of self.now).firsts set 0 }
    {
        self.firsts[set as usize]
    }

    // The node after a node in its chain.
    fn next(&self, at: u32) -> u32
        requires { at < length (pool_of self.now).links }
        ensures { result ≡ slice_index_or (pool_of self.now).links at 0 }
    {
        self.links[at as usize]
    }

    // Whether a place is free.
    pub(crate) fn has_room(&self) -> bool
        ensures { result ≡ nat_lt 0 (pool_of self.now).free_count }
    {
        self.free_count > 0
    }

    // Whether a hash is struck in a set.
    pub(crate) fn has(&self, set: u32, hash: u64) -> bool
        requires sound { IsSound (pool_of self.now) }
        requires set { set < length (pool_of self.now).firsts }
        ensures { result ≡ is_among hash (marks_of (pool_of self.now) set) }
    {
        let mut left = self.count(set);
        if left == 0 {
            return false;
        }
        let mut at = self.first(set);
        while left > 0 {
            if self.hashes[at as usize] == hash {
                return true;
            }
            at = self.next(at);
            left -= 1;
        }
        false
    }

    // Strikes one hash more in a set.
    pub(crate) fn push(&mut self, set: u32, hash: u64)
        requires sound { IsSound (pool_of self.old) }
        requires set { set < length (pool_of self.old).firsts }
        requires few { slice_index_or (pool_of self.old).counts set 0 < 8 }
        requires room { 0 < (pool_of self.old).free_count }
        ensures { Pushes (pool_of self.old) (pool_of self.new) set hash }
    {
        let at = self.free;
        let next = self.next(at);
        let first = self.first(set);
        let count = self.count(set);
        self.hashes[at as usize] = hash;
        self.links[at as usize] = first;
        self.firsts[set as usize] = at;
        self.counts[set as usize] = count + 1;
        self.free = next;
        self.free_count -= 1;
    }

    // Takes the last hash that was struck in a set back.
    fn pop(&mut self, set: u32)
        requires sound { IsSound (pool_of self.old) }
        requires set { set < length (pool_of self.old).firsts }
        requires some { 0 < slice_index_or (pool_of self.old).counts set 0 }
        ensures { Pops (pool_of self.old) (pool_of self.new) set }
    {
        let at = self.first(set);
        let next = self.next(at);
        let count = self.count(set);
        self.links[at as usize] = self.free;
        self.firsts[set as usize] = next;
        self.counts[set as usize] = count - 1;
        self.free = at;
        self.free_count += 1;
    }

    // Nothing is struck in a set any more.
    pub(crate) fn clear(&mut self, set: u32)
        requires sound { IsSound (pool_of self.old) }
        requires set { set < length (pool_of self.old).firsts }
        ensures { Clears (pool_of self.old) (pool_of self.new) set }
    {
        while self.count(set) > 0 {
            self.pop(set);
        }
    }
}

// As many links as there are places, each to the node after its own.
fn successors(alloc: Global, places: u32) -> Result<Vec<u32>, AllocError>
    requires { places ≤ 524288 }
    ensures { IfOk result (λ links. AreSuccessors places links.items) }
{
    let mut links = Vec::with_capacity(alloc, places as usize)?;
    for at in 0..places {
        links.push_reserved(at + 1);
    }
    Ok(links)
}
