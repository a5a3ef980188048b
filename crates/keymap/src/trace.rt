// Where a walk over the nodes stands.

// The neighbours between which a label belongs: the last sibling with a lower label, and the next one; 0 for none, as
// in the links of nodes that it goes into.
#[derive(Clone, Copy)]
pub struct Place {
    pub(crate) before: usize,
    pub(crate) here: usize,
}

// A value met on the way, and how many bytes lead to it.
#[derive(Clone, Copy)]
pub struct Best<V> {
    pub(crate) value: V,
    pub(crate) len: usize,
}

// The node at which the way of an input ends, how many of its bytes lead there, and the last value on the way.
#[derive(Clone, Copy)]
pub struct Trace<V> {
    pub(crate) at: usize,
    pub(crate) depth: usize,
    pub(crate) best: Option<Best<V>>,
}
