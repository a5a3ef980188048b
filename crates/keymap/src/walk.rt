// Walks over the nodes: among siblings, and down the way of a key.
ghost use Rattle.std.specs.Prelude.{◌≡◌, ℕ, ◌<◌, ◌≤◌, length, slice_index_or, MatchOption};
ghost use Rattle.keymap.specs.Tree.{blank, Well, Sound, Placed, ChildIs, Deepest, LastValue, picked};

use crate::node::Node;
use crate::trace::{Best, Place, Trace};

// The first `used` of some nodes: they are a tree. The slice is not cut to them: the definitions speak of all nodes and of `used`.
#[derive(Drop)]
pub struct Tree<'a, V> {
    pub(crate) nodes: &'a [Node<V>],
    pub(crate) used: usize,
    ghost room: { used ≤ length nodes.now },
    ghost sound: { ∥ Sound nodes.now used ∥₁ },
}

// The later of two values on a way: `value`, if there is one, `depth` bytes down.
fn newer<V: Copy>(old: Option<Best<V>>, value: Option<V>, depth: usize) -> Option<Best<V>>
    ensures { result ≡ picked old value depth }
{
    match value {
        Some(value) => Some(Best { value, len: depth }),
        None => old,
    }
}

impl<'a, V: Copy> Tree<'a, V> {
    // Node `i`. That a node is in use is asked here and by each walk: the bound is the tree's, so a type of the number alone cannot
    // say it. A read `self.nodes[i]` in a loop leaves a goal open, that the offset of the node fits 64 bits.
    pub(crate) fn node(&self, i: usize) -> Node<V>
        requires { i < self.now.used }
        ensures { result ≡ slice_index_or self.now.nodes.now i blank }
    {
        self.nodes[i]
    }

    // Where, among the children of `at`, the label `b` stands or would stand.
    // It goes along the links of siblings, which stand anywhere on the caller's nodes, so no iterator of a slice serves.
    pub(crate) fn find_place(&self, at: usize, b: u8) -> Place
        requires { at < self.now.used }
        ensures { (up : ℕ → ℕ) → Well up self.now.nodes.now self.now.used → Placed up self.now.nodes.now self.now.used at b result.before result.here }
    {
        let mut before = 0;
        let mut here = self.node(at).child;
        while here != 0 {
            let n = self.node(here);
            if n.label >= b {
                break;
            }
            before = here;
            here = n.next;
        }
        Place { before, here }
    }

    // The child of `at` that is labelled `b`.
    fn find_child(&self, at: usize, b: u8) -> Option<usize>
        requires { at < self.now.used }
        ensures { (up : ℕ → ℕ) → Well up self.now.nodes.now self.now.used → MatchOption result (ChildIs up self.now.nodes.now self.now.used at b 0) (λ r. (0 < r) × ChildIs up self.now.nodes.now self.now.used at b r) }
    {
        let here = self.find_place(at, b).here;
        if here != 0 && self.node(here).label == b {
            Some(here)
        } else {
            None
        }
    }

    // The way of `key` from the root, as far as there are nodes for its bytes; `depth` counts the nodes, and is answered. That
    // there is a root is asked here, since an empty tree is sound too.
    pub(crate) fn follow(&self, key: &[u8]) -> Trace<V>
        requires { 0 < self.now.used }
        ensures deepest { (up : ℕ → ℕ) → Well up self.now.nodes.now self.now.used → Deepest up self.now.nodes.now self.now.used key.now result.at result.depth }
        ensures best { (up : ℕ → ℕ) → Well up self.now.nodes.now self.now.used → LastValue up self.now.nodes.now self.now.used key.now result.depth result.best }
    {
        let mut at = 0;
        let mut depth = 0;
        let mut best = newer(None, self.node(0).value, 0);
        for b in key {
            let Some(child) = self.find_child(at, *b) else {
                break;
            };
            at = child;
            depth += 1;
            best = newer(best, self.node(child).value, depth);
        }
        Trace { at, depth, best }
    }
}
