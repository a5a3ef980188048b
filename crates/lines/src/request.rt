// What a line asks for, and the fault of a line that asks for nothing.
use keycode::KeyEvent;

#[derive(Clone, Copy, Debug, PartialEq, Eq)]
pub enum Request {
    Press(KeyEvent),
}

// By the number that tells it.
#[derive(Clone, Copy, Debug, PartialEq, Eq)]
pub enum LineFault {
    // The line has no form of the language.
    OtherForm = 11,
}
