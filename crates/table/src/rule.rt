// The nine rules of the table, and the small tables that they go by.
use keycode::{KeyCode, KeyEvent};
use writer::Buf;

// The bytes of the longest key.
pub const LONGEST: usize = 11;

// A rule, in the order of filling. An enum that is matched on, and no table of functions: the nine are fixed, and a definition
// goes by them.
#[derive(Clone, Copy, Debug, PartialEq, Eq)]
pub enum Rule {
    Letters,
    CsiU,
    OtherKeys,
    Cursor,
    RxvtArrows,
    ApplicationArrows,
    Functions,
    Editing,
    Single,
}

// A key with a byte of its own.
#[derive(Clone, Copy, Debug, PartialEq, Eq)]
pub struct Marked {
    pub key: KeyCode,
    pub byte: u8,
}

// A key with a final letter, and the byte behind ESC where it has no parameter: `[` or `O`.
#[derive(Clone, Copy, Debug, PartialEq, Eq)]
pub struct Lettered {
    pub key: KeyCode,
    pub last: u8,
    pub intro: u8,
}

// A key of the table: its bytes, and what they mean.
#[derive(Drop)]
pub struct TableKey {
    pub bytes: Buf,
    pub event: KeyEvent,
}
