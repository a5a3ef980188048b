// UTF-8 from the front of bytes: one character, and whole text with ill-formed parts replaced.
#![tactic(auto)]

mod kinds;
mod replace;
mod utf8;

pub use kinds::{Character, TextFault};
pub use replace::lossy;
pub use utf8::character;
