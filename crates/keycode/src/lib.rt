// Keys, modifiers and modes: what a keyboard says, before any bytes.
#![tactic(auto)]

mod key;
mod modes;
mod modifiers;
mod names;

pub use key::{KeyCode, KeyEvent};
pub use modes::{KeyCodeEncodeModes, KeyboardEncoding, KittyKeyboardFlags};
pub use modifiers::Modifiers;
pub use names::{COUNT, KEYS, key_at, key_named, name_of, place};
