// How bytes are read as events: the states of a decoder, its turns, and that a turn stays as bytes follow.
#![tactic(auto)]

mod state;

pub use state::InputState;
