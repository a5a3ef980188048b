// New nodes for the bytes of a key, and the value at its end. These functions take the nodes and not the map:
// until the value is put, the last node has neither a child nor a value, which a map does not allow.
ghost use Rattle.std.specs.Prelude.{◌≡◌, ℕ, ◌+◌, ◌-◌, ◌<◌, ◌≤◌, length, slice_index_or, slice_set};
ghost use Rattle.keymap.specs.Growth.{linked, Grew, with_value};
ghost use Rattle.keymap.specs.Tree.{blank, Well, Sound, Deepest};

use crate::node::Node;
use crate::trace::Place;
use crate::walk::Tree;

// Makes node `used` a child of `at`, labelled `b`, at its place.
fn add_child<V: Copy>(nodes: &mut [Node<V>], used: usize, at: usize, b: u8, p: Place)
    requires inside { at < used }
    requires room { used < length nodes.old }
    requires place { p.before < used }
    ensures { nodes.new ≡ linked nodes.old used at b p.before p.here }
{
    let Place { before, here } = p;
    nodes[used] = Node {
        label: b,
        value: None,
        child: 0,
        next: here,
    };
    if before == 0 {
        nodes[at].child = used;
    } else {
        nodes[before].next = used;
    }
}

// Adds a node for each byte of `key` past the first `start`, whose way ends at `from`; answers the last node. `count` is the next
// free node, and no index of the key.
pub(crate) fn grow<V: Copy>(
    nodes: &mut [Node<V>],
    used: usize,
    key: &[u8],
    from: usize,
    start: usize,
) -> usize
    requires sound { ∥ Sound nodes.old used ∥₁ }
    requires deepest { (up : ℕ → ℕ) → Well up nodes.old used → Deepest up nodes.old used key.now from start }
    requires room { used + (length key.now - start) ≤ length nodes.old }
    ensures { (up : ℕ → ℕ) → Well up nodes.old used → Grew up nodes.old used from nodes.new (used + (length key.now - start)) key.now result (length key.now) }
{
    let mut at = from;
    let mut count = used;
    let rest = &key[start..];
    for b in rest {
        let tree = Tree {
            nodes: &*nodes,
            used: count,
        };
        let p = tree.find_place(at, *b);
        add_child(nodes, count, at, *b, p);
        at = count;
        count += 1;
    }
    at
}

// Puts the value into node `at`.
pub(crate) fn put_value<V: Copy>(nodes: &mut [Node<V>], at: usize, value: V)
    requires { at < length nodes.old }
    ensures { nodes.new ≡ slice_set nodes.old at (with_value (slice_index_or nodes.old at blank) value) }
{
    nodes[at].value = Some(value);
}
