// A map from byte strings to values: a trie on nodes that the caller supplies.
#![tactic(auto)]

mod found;
mod grow;
mod insert;
mod lookup;
mod map;
mod node;
mod trace;
mod walk;

pub use found::{Found, MapFault};
pub use insert::MAX_NODES;
pub use map::MAX_KEY;
pub use node::{KeyMap, Node};
