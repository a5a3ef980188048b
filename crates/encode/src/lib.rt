// The bytes that a terminal sends for a key press.
#![tactic(auto)]

mod encoder;
mod form;
mod keys;
mod plain;
mod sequences;

pub use encoder::encode;
pub use form::EncodeFault;
pub use plain::{encode_plain, is_plain};
