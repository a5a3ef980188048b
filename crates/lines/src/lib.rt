// The lines of a script: one line, read into a request or refused.
#![tactic(auto)]

mod fields;
mod mods;
mod numbers;
mod read;
mod request;

pub use mods::mods_text;
pub use read::{LONGEST, read_line};
pub use request::{LineFault, Request};
