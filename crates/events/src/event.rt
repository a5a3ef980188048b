// What a decoder tells, and what a recogniser answers.
use keycode::KeyEvent;

// A report of the terminal: its kind and two numbers, whose meaning the kind says. A kind is a number, and no enum, since a
// caller's own recogniser has kinds of its own.
#[derive(Clone, Copy, PartialEq, Eq, Debug)]
pub struct Report {
    pub kind: u16,
    pub first: u16,
    pub second: u16,
}

// A press, a pasted text, which stays with its owner, or a report.
#[derive(Clone, Copy, PartialEq, Eq, Debug)]
pub enum InputEvent<'a> {
    Key(KeyEvent),
    Paste(&'a [u8]),
    Report(Report),
}

// What stands at the front of bytes: no report, the beginning of one, or one of so many bytes.
#[derive(Clone, Copy, PartialEq, Eq, Debug)]
pub enum Seen {
    NoReport,
    More,
    Found(usize, Report),
}
