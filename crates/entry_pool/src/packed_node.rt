ghost use Rattle.std.specs.Prelude.{◌≡◌, ◌<◌, ◌^◌};
ghost use Rattle.entry_pool.specs.Words.{Fits, IsNode};

use crate::node::Node;
use crate::pool_item::PoolItem;
use crate::words;
use std::marker::Model;

/// A node in two words.
#[derive(Drop)]
pub struct PackedNode {
    first: u64,
    second: u64,
}

/// The node.
impl Model for PackedNode {
    ghost use Rattle.entry_pool.specs.declared.node.Node.{Node};
    ghost use Rattle.entry_pool.specs.Words.{node_of};

    ghost Value = { Node };

    ghost view = { λ p. node_of p.first p.second };
}

impl PackedNode {
    /// A node in its words.
    pub fn new(node: Node) -> PackedNode
        requires { IsNode node }
        ensures { result ≡ node }
    {
        PackedNode {
            first: words::first_word(&node.item, node.next),
            second: words::second_word(node.item.set, node.older, node.newer),
        }
    }

    /// The node of its words.
    pub fn get(&self) -> Node
        ensures value { result ≡ self.now }
        ensures range { IsNode result }
    {
        Node {
            item: words::item_of(self.first, self.second),
            next: words::next_of(self.first),
            older: words::older_of(self.second),
            newer: words::newer_of(self.second),
        }
    }

    /// The item of the node.
    pub fn item(&self) -> PoolItem
        ensures { result ≡ self.now.item }
    {
        words::item_of(self.first, self.second)
    }

    /// The next node of the set's bucket.
    pub fn next(&self) -> u32
        ensures { result ≡ self.now.next }
    {
        words::next_of(self.first)
    }

    /// The next older node.
    pub fn older(&self) -> u32
        ensures { result ≡ self.now.older }
    {
        words::older_of(self.second)
    }

    /// The next newer node.
    pub fn newer(&self) -> u32
        ensures { result ≡ self.now.newer }
    {
        words::newer_of(self.second)
    }

    /// Sets the next node.
    pub fn set_next(&mut self, next: u32)
        requires { next < 2 ^ 21 }
        ensures { self.new ≡ record self.old { next = next } }
    {
        *self = PackedNode::new(Node { next, ..self.get() });
    }

    /// Sets the older node.
    pub fn set_older(&mut self, older: u32)
        requires { older < 2 ^ 21 }
        ensures { self.new ≡ record self.old { older = older } }
    {
        *self = PackedNode::new(Node {
            older,
            ..self.get()
        });
    }

    /// Sets the newer node.
    pub fn set_newer(&mut self, newer: u32)
        requires { newer < 2 ^ 21 }
        ensures { self.new ≡ record self.old { newer = newer } }
    {
        *self = PackedNode::new(Node {
            newer,
            ..self.get()
        });
    }

    /// Sets the item.
    pub fn set_item(&mut self, item: PoolItem)
        requires { Fits item }
        ensures { self.new ≡ record self.old { item = item } }
    {
        *self = PackedNode::new(Node { item, ..self.get() });
    }
}
