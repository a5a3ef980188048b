// The nodes of a map, and the map over them.
ghost use Rattle.keymap.specs.Held.{ValidIn};

// A node: the byte that leads to it, the value of the key that ends at it, its first child and its
// next sibling. Siblings stand by ascending label. Node 0 is the root, so 0 says that there is none.
// Nodes are named by number, with 0 for none, since they stand on memory that the caller supplies: two
// `Option<usize>` would take 16 bytes more in each node.
#[derive(Clone, Copy)]
pub struct Node<V> {
    pub(crate) label: u8,
    pub(crate) value: Option<V>,
    pub(crate) child: usize,
    pub(crate) next: usize,
}

// Keys of 0 to 64 bytes, each with a value of any type that can be copied, on the first nodes of a
// slice that the caller supplies: one for the root and one for each different beginning of the keys.
// The nodes and their number, and no vector: the memory is the caller's, and there is no heap.
//
// `lookup` goes by the longest stored key that the input begins with. It answers Exact with that
// key's length and value; with `maybe_more` it answers Ambiguous where a longer stored key goes on
// with the input's next byte, or may still go on because the input ends. The caller then waits, or
// takes the shorter key. NeedData says that the input begins with no stored key, but starts as one
// does; None that no stored key starts with its first byte.
#[derive(Drop)]
pub struct KeyMap<'a, V> {
    pub(crate) nodes: &'a mut [Node<V>],
    pub(crate) used: usize,
    ghost valid: { ∥ ValidIn nodes.now used ∥₁ },
}
