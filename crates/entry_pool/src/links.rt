// The nodes and the heads of their chains.
ghost use Rattle.std.specs.Prelude.{◌≡◌, ◌≢◌, ◌<◌, ◌+◌, ◌^◌, ◌∷◌, length};
ghost use Rattle.entry_pool.specs.Words.{Fits};
ghost use Rattle.entry_pool.specs.Chains.{none, Chains, IsGiven, IsTaken, IsIn, after_of};
ghost use Rattle.entry_pool.specs.Linked.{chains_of, IsLink, put, put_next, put_free, put_item, with_node, with_prediction};
ghost use Rattle.entry_pool.specs.Pool.{IsSound, CanGive, CanTake, bucket_of, IsBehind};

use crate::node::{NONE, Node};
use crate::packed_node::PackedNode;
use crate::pool_item::PoolItem;
use record_pages::Prediction;

// The nodes, and the heads of their chains: `NONE` as the number of a node stands for the head.
#[derive(Drop)]
pub(crate) struct Links {
    pub(crate) nodes: Vec<PackedNode>,
    pub(crate) heads: Vec<u32>,
    pub(crate) newest: u32,
    pub(crate) oldest: u32,
    pub(crate) free: u32,
    pub(crate) count: usize,
}

impl Links {
    // The next older node.
    pub(crate) fn older(&self, at: u32) -> u32
        requires { IsLink at (length self.now.nodes.items) }
        ensures { result ≡ (chains_of self.now).older at }
    {
        if at == NONE {
            return self.newest;
        }
        self.nodes[at as usize].older()
    }

    // The next newer node.
    pub(crate) fn newer(&self, at: u32) -> u32
        requires { IsLink at (length self.now.nodes.items) }
        ensures { result ≡ (chains_of self.now).newer at }
    {
        if at == NONE {
            return self.oldest;
        }
        self.nodes[at as usize].newer()
    }

    // The next node of a set's bucket.
    pub(crate) fn next(&self, set: u32, at: u32) -> u32
        requires { IsLink at (length self.now.nodes.items) }
        ensures { result ≡ (chains_of self.now).next set at }
    {
        if at != NONE {
            return self.nodes[at as usize].next();
        }
        let set = set as usize;
        if set < self.heads.len() {
            self.heads[set]
        } else {
            NONE
        }
    }

    // What a node notes.
    pub(crate) fn item(&self, at: u32) -> PoolItem
        requires { at < length self.now.nodes.items }
        ensures { result ≡ (chains_of self.now).item at }
    {
        self.nodes[at as usize].item()
    }

    // A node has another next older one.
    pub(crate) fn set_older(&mut self, at: u32, to: u32)
        requires at { IsLink at (length self.old.nodes.items) }
        requires to { to < 2 ^ 21 }
        ensures chains { chains_of self.new
            ≡ record (chains_of self.old) { older = put at to (chains_of self.old).older } }
        ensures nodes { length self.new.nodes.items ≡ length self.old.nodes.items }
        ensures heads { length self.new.heads.items ≡ length self.old.heads.items }
        ensures count { self.new.count ≡ self.old.count }
    {
        if at == NONE {
            self.newest = to;
        } else {
            self.nodes[at as usize].set_older(to);
        }
    }

    // A node has another next newer one.
    pub(crate) fn set_newer(&mut self, at: u32, to: u32)
        requires at { IsLink at (length self.old.nodes.items) }
        requires to { to < 2 ^ 21 }
        ensures chains { chains_of self.new
            ≡ record (chains_of self.old) { newer = put at to (chains_of self.old).newer } }
        ensures nodes { length self.new.nodes.items ≡ length self.old.nodes.items }
        ensures heads { length self.new.heads.items ≡ length self.old.heads.items }
        ensures count { self.new.count ≡ self.old.count }
    {
        if at == NONE {
            self.oldest = to;
        } else {
            self.nodes[at as usize].set_newer(to);
        }
    }

    // A node has another next one, in a set's bucket or among the free ones.
    pub(crate) fn set_next(&mut self, set: u32, at: u32, to: u32)
        requires at { IsLink at (length self.old.nodes.items) }
        requires set { set < length self.old.heads.items }
        requires to { to < 2 ^ 21 }
        ensures chains { chains_of self.new ≡ record (chains_of self.old) {
          next = put_next set at to (chains_of self.old).next;
          free = put_free at to (chains_of self.old).free;
        } }
        ensures nodes { length self.new.nodes.items ≡ length self.old.nodes.items }
        ensures heads { length self.new.heads.items ≡ length self.old.heads.items }
        ensures count { self.new.count ≡ self.old.count }
    {
        if at == NONE {
            self.heads[set as usize] = to;
        } else {
            self.nodes[at as usize].set_next(to);
        }
    }

    // Another node is the first free one.
    pub(crate) fn set_free(&mut self, to: u32)
        ensures chains { chains_of self.new
            ≡ record (chains_of self.old) { free = put none to (chains_of self.old).free } }
        ensures nodes { length self.new.nodes.items ≡ length self.old.nodes.items }
        ensures heads { length self.new.heads.items ≡ length self.old.heads.items }
        ensures count { self.new.count ≡ self.old.count }
    {
        self.free = to;
    }

    // A node is written anew.
    pub(crate) fn set_node(&mut self, at: u32, node: Node)
        requires at { at < length self.old.nodes.items }
        requires fewer { at < none }
        requires fits { Fits node.item }
        requires next { node.next < 2 ^ 21 }
        requires older { node.older < 2 ^ 21 }
        requires newer { node.newer < 2 ^ 21 }
        ensures chains { chains_of self.new ≡ with_node at node (chains_of self.old) }
        ensures nodes { length self.new.nodes.items ≡ length self.old.nodes.items }
        ensures heads { length self.new.heads.items ≡ length self.old.heads.items }
        ensures count { self.new.count ≡ self.old.count }
    {
        self.nodes[at as usize] = PackedNode::new(node);
    }

    // Puts the first free node, with an item, before the others of its chains.
    pub(crate) fn give(&mut self, item: PoolItem) -> u32
        requires { CanGive self.old item }
        ensures at { result ≡ (chains_of self.old).free none }
        ensures given { IsGiven (chains_of self.old) (chains_of self.new) result item }
        ensures nodes { length self.new.nodes.items ≡ length self.old.nodes.items }
        ensures heads { length self.new.heads.items ≡ length self.old.heads.items }
        ensures count { self.new.count ≡ self.old.count + 1 }
    {
        let set = item.set;
        let at = self.first_free();
        let free = self.next(set, at);
        let next = self.next(set, NONE);
        let older = self.older(NONE);
        self.set_free(free);
        self.set_node(
            at,
            Node {
                item,
                next,
                older,
                newer: NONE,
            },
        );
        self.set_newer(older, at);
        self.set_older(NONE, at);
        self.set_next(set, NONE, at);
        self.count += 1;
        at
    }

    // Takes a node out of its chains, and puts it before the other free ones. It is next to another one in its bucket.
    pub(crate) fn take(&mut self, at: u32, before: u32)
        requires { CanTake self.old at before }
        ensures taken { IsTaken (chains_of self.old) (chains_of self.new) at before }
        ensures nodes { length self.new.nodes.items ≡ length self.old.nodes.items }
        ensures heads { length self.new.heads.items ≡ length self.old.heads.items }
        ensures count { self.new.count + 1 ≡ self.old.count }
    {
        let set = self.item(at).set;
        let next = self.next(set, at);
        let older = self.older(at);
        let newer = self.newer(at);
        let free = self.first_free();
        self.set_older(newer, older);
        self.set_newer(older, newer);
        self.set_next(set, before, next);
        self.set_next(set, at, free);
        self.set_free(at);
        self.count -= 1;
    }

    // The first free node.
    pub(crate) fn first_free(&self) -> u32
        ensures { result ≡ (chains_of self.now).free none }
    {
        self.free
    }

    // What leads to a node in its set's bucket.
    pub(crate) fn before(&self, set: u32, at: u32) -> u32
        requires sound { IsSound self.now }
        requires listed { IsIn at (bucket_of self.now set) }
        ensures mark { IsIn result (none ∷ bucket_of self.now set) }
        ensures next { IsBehind at (after_of result none (bucket_of self.now set)) }
    {
        let mut before = NONE;
        let mut next = self.next(set, before);
        while next != at {
            before = next;
            next = self.next(set, before);
        }
        before
    }

    // A held node has another prediction.
    pub(crate) fn set_prediction(&mut self, at: u32, prediction: Prediction)
        requires { at < length self.old.nodes.items }
        ensures chains { chains_of self.new ≡ record (chains_of self.old) {
          item = put_item at (with_prediction prediction ((chains_of self.old).item at))
              (chains_of self.old).item;
        } }
        ensures nodes { length self.new.nodes.items ≡ length self.old.nodes.items }
        ensures heads { length self.new.heads.items ≡ length self.old.heads.items }
        ensures count { self.new.count ≡ self.old.count }
    {
        let _number = prediction.get();
        let node = &mut self.nodes[at as usize];
        let item = node.get().item;
        node.set_item(PoolItem { prediction, ..item });
    }
}
