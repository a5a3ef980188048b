// The modes of a terminal that say how its keys are sent.

// What the kitty protocol was asked to report: a set of flags, as its own page numbers them.
#[derive(Clone, Copy, PartialEq, Eq, Debug)]
pub struct KittyKeyboardFlags(pub u16);

// The family of sequences that the terminal sends. Win32 and Kitty send what Xterm sends.
#[derive(Clone, Copy, PartialEq, Eq, Debug)]
pub enum KeyboardEncoding {
    Xterm,
    CsiU,
    Win32,
    Kitty(KittyKeyboardFlags),
}

#[derive(Clone, Copy, PartialEq, Eq, Debug)]
pub struct KeyCodeEncodeModes {
    pub encoding: KeyboardEncoding,
    pub application_cursor_keys: bool,
    pub newline_mode: bool,
    // The value of xterm's resource modifyOtherKeys, if one was set; 0 turns it off, as if none was.
    pub modify_other_keys: Option<i64>,
}

impl KeyCodeEncodeModes {
    // What a terminal is in when it starts: the modes of the plain presses.
    pub const PLAIN: KeyCodeEncodeModes = KeyCodeEncodeModes {
        encoding: KeyboardEncoding::Xterm,
        application_cursor_keys: false,
        newline_mode: false,
        modify_other_keys: None,
    };
}
