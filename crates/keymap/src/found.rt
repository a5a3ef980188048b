// The answers of a map: what a lookup finds, and why a call is refused.

// What the stored keys say of an input.
#[derive(Clone, Copy, PartialEq, Eq, Debug)]
pub enum Found<V> {
    // No stored key starts as the input does.
    None,
    // The longest stored key that the input begins with: its length and its value.
    Exact(usize, V),
    // The same, where a longer stored key may still follow.
    Ambiguous(usize, V),
    // The input begins with no stored key, but a stored key starts as the input does.
    NeedData,
}

// Why a call is refused; a refused call changes nothing. A refusal is told by its number.
#[derive(Clone, Copy, PartialEq, Eq, Debug)]
pub enum MapFault {
    // The key has more bytes than a key may have.
    KeyTooLong = 1,
    // The caller's nodes do not do for the key.
    TooFewNodes = 2,
    // An empty input was looked up where no key is stored.
    NothingStored = 3,
}
