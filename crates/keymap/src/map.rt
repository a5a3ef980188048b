// The calls of a map.
ghost use Rattle.std.specs.Prelude.{◌≡◌, true, [], length, drop, is_err};
ghost use Rattle.keymap.specs.Finding.{looked, unless};
ghost use Rattle.keymap.specs.Holding.{Holds};
ghost use Rattle.keymap.specs.Room.{number, nodes_of, insert_cause, after};
ghost use Rattle.keymap.specs.Stored.{Stored};
ghost use Rattle.keymap.specs.Tree.{blank};

use crate::found::{Found, MapFault};
use crate::insert::insert_in;
use crate::node::{KeyMap, Node};
use crate::walk::Tree;

// The most bytes of a key.
pub const MAX_KEY: usize = 64;

impl MapFault {
    // The number by which the refusal is told; each layer has a fault and a definition of its own.
    pub fn number(self) -> u8
        ensures { result ≡ number self }
    {
        self as u8
    }
}

impl<V: Copy> Node<V> {
    // A node with nothing in it, for the caller's array.
    pub fn empty() -> Node<V>
        ensures { result ≡ blank }
    {
        Node {
            label: 0,
            value: None,
            child: 0,
            next: 0,
        }
    }
}

impl<'a, V: Copy> KeyMap<'a, V> {
    // A map with nothing stored; what the nodes hold does not count.
    pub fn new(nodes: &'a mut [Node<V>]) -> KeyMap<'a, V>
        ensures lender { result.nodes.ghost_name ≡ nodes.entry.ghost_name }
        ensures holds { Holds result [] }
        ensures same { result.nodes.now ≡ nodes.old }
    {
        KeyMap { nodes, used: 0 }
    }

    // Stores `value` under `key`; a stored key has its value replaced. A refusal changes nothing.
    pub fn insert(&mut self, key: &[u8], value: V) -> Result<(), MapFault>
        ensures lender { self.new.nodes.ghost_name ≡ self.old.nodes.ghost_name }
        ensures supplied { length self.new.nodes.now ≡ length self.old.nodes.now }
        ensures answer { (s : Stored V) → Holds self.old s → result ≡ unless (insert_cause (length self.old.nodes.now) s key.now) tt }
        ensures stored { (s : Stored V) → Holds self.old s → Holds self.new (after (insert_cause (length self.old.nodes.now) s key.now) key.now value s) }
        ensures refused { is_err result ≡ true → (self.new.nodes.now ≡ self.old.nodes.now) × (self.new.used ≡ self.old.used) }
        ensures rest { drop self.new.used self.new.nodes.now ≡ drop self.new.used self.old.nodes.now }
    {
        if key.len() > MAX_KEY {
            return Err(MapFault::KeyTooLong);
        }
        let used = self.used;
        self.used = insert_in(self.nodes, used, key, value)?;
        Ok(())
    }

    // What the stored keys say of `key`; `maybe_more` says that more input may come.
    pub fn lookup(&self, key: &[u8], maybe_more: bool) -> Result<Found<V>, MapFault>
        ensures { (s : Stored V) → Holds self.now s → result ≡ looked s key.now maybe_more }
    {
        if self.used > 0 {
            let tree = Tree {
                nodes: &*self.nodes,
                used: self.used,
            };
            return Ok(tree.lookup(key, maybe_more));
        }
        if key.len() == 0 {
            return Err(MapFault::NothingStored);
        }
        Ok(Found::None)
    }

    // How many nodes are in use.
    pub fn used(&self) -> usize
        ensures { (s : Stored V) → Holds self.now s → result ≡ nodes_of s }
    {
        self.used
    }
}
