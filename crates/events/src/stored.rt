// An event as a queue holds it.
use crate::event::Report;
use keycode::KeyEvent;

// A pasted text by its place among the queue's bytes and its length: a queue has no heap, and cannot lend a part of itself to
// itself.
#[derive(Clone, Copy, PartialEq, Eq, Debug)]
pub enum Record {
    Paste(usize, usize),
    Key(KeyEvent),
    Report(Report),
}
