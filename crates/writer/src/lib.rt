// Numbers and characters as bytes, written behind what a vector of fixed capacity holds.
#![tactic(auto)]

mod write;

pub use write::{Buf, ROOM, decimal, extend, hex, hex_digit, hexadecimal, utf8, written};
