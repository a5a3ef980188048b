// A static library for the comparison with Rust's own UTF-8 alone: one character, lossy text and the marker search. The
// contracts are light: it is proved to be safe and to end; what it answers, the comparison sees.
#![tactic(auto)]

mod answer;
mod interface;

pub use interface::{cilvedroz_character, cilvedroz_lossy, cilvedroz_marker};
