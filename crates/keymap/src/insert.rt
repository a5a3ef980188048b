// Insert over the nodes: room first, then new nodes, then the value.
ghost use Rattle.std.specs.Prelude.{◌≡◌, ◌+◌, ◌<◌, ◌≤◌, min, length, MatchResult};
ghost use Rattle.keymap.specs.Held.{HeldIn, ValidIn, Inserts};
ghost use Rattle.keymap.specs.Room.{max_key, max_nodes};
ghost use Rattle.keymap.specs.Stored.{Stored};

use crate::found::MapFault;
use crate::grow::{grow, put_value};
use crate::node::Node;
use crate::walk::Tree;

// The most nodes that a map uses, of those that the caller supplies.
pub const MAX_NODES: usize = 8192;

// The nodes in use once `more` are taken, if so many are supplied.
fn room_for(supplied: usize, used: usize, more: usize) -> Result<usize, MapFault>
    requires { used ≤ min supplied max_nodes }
    ensures { MatchResult result (λ n. (n ≡ used + more) × (n ≤ min supplied max_nodes)) (λ fault. (fault ≡ MapFault.TooFewNodes) × (min supplied max_nodes < used + more)) }
{
    let limit = supplied.min(MAX_NODES);
    if limit - used < more {
        return Err(MapFault::TooFewNodes);
    }
    Ok(used + more)
}

// Stores a value where nothing is stored yet: the root is made too.
fn insert_first<V: Copy>(nodes: &mut [Node<V>], key: &[u8], value: V) -> Result<usize, MapFault>
    requires short { length key.now ≤ max_key }
    ensures { (s : Stored V) → HeldIn nodes.old 0 s → Inserts s nodes.old key.now value nodes.new result }
{
    let n = room_for(nodes.len(), 0, key.len() + 1)?;
    nodes[0] = Node::empty();
    let at = grow(nodes, 1, key, 0, 0);
    put_value(nodes, at, value);
    Ok(n)
}

// Stores a value where something is stored. Like `grow`, it takes the nodes: while it runs they are no map.
fn insert_more<V: Copy>(
    nodes: &mut [Node<V>],
    used: usize,
    key: &[u8],
    value: V,
) -> Result<usize, MapFault>
    requires valid { ∥ ValidIn nodes.old used ∥₁ }
    requires rooted { 0 < used }
    ensures { (s : Stored V) → HeldIn nodes.old used s → Inserts s nodes.old key.now value nodes.new result }
{
    let tree = Tree {
        nodes: &*nodes,
        used,
    };
    let t = tree.follow(key);
    let n = room_for(nodes.len(), used, key.len() - t.depth)?;
    let at = grow(nodes, used, key, t.at, t.depth);
    put_value(nodes, at, value);
    Ok(n)
}

// Stores `value` under `key`, and answers how many nodes are in use then.
pub(crate) fn insert_in<V: Copy>(
    nodes: &mut [Node<V>],
    used: usize,
    key: &[u8],
    value: V,
) -> Result<usize, MapFault>
    requires valid { ∥ ValidIn nodes.old used ∥₁ }
    requires short { length key.now ≤ max_key }
    ensures { (s : Stored V) → HeldIn nodes.old used s → Inserts s nodes.old key.now value nodes.new result }
{
    if used == 0 {
        insert_first(nodes, key, value)
    } else {
        insert_more(nodes, used, key, value)
    }
}
