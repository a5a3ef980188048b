// The bytes of a character under its modifiers and the terminal's modes.
#![tactic(auto)]

mod control;
mod level;
mod modes;
mod parts;
mod point;
mod typed;

pub use control::ctrl_mapping;
pub use level::{Level, Route};
pub use modes::level_of;
pub use parts::{ESC, LONGEST, Sequence, escape_for_alt, push_parameter};
pub use point::CodePoint;
pub use typed::{csi_u_encode, encode_character};
