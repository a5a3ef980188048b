// The words of a script, in maps: its verbs, and the names of the keys.
#![tactic(auto)]

mod fill;
mod look;
mod script;
mod verb;

pub use fill::{fill_keys, fill_verbs};
pub use look::word;
pub use script::Script;
pub use verb::Verb;
