// The C interface: numbers in, bytes and a number out. `include/cilvedroz.h` describes it.
#![tactic(auto)]

mod answer;
mod arguments;
mod interface;

pub use interface::cilvedroz_encode;
