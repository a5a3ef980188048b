// The bytes that were read and are not yet worked on, and the search for the end of a paste.
#![tactic(auto)]

mod buffer;
mod marker;
mod store;

pub use marker::{MARKER, MARKER_LEN, find_marker};
pub use store::{CAPACITY, ReadBuffer};
