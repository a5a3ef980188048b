// Tables of presses, with the bytes that are sent for them or why they are refused.
use encode::EncodeFault;
use keycode::{KeyCode, KeyCodeEncodeModes, KeyboardEncoding};

// A key, its modifiers, the modes, and the bytes that are sent.
#[derive(Clone, Copy)]
pub struct Example(
    pub KeyCode,
    pub u16,
    pub KeyCodeEncodeModes,
    pub &'static [u8],
);

// A key, its modifiers, the length of the output, and why the press is refused.
#[derive(Clone, Copy)]
pub struct Refusal(pub KeyCode, pub u16, pub usize, pub EncodeFault);

const NONE: u16 = 0;

const SHIFT: u16 = 1;

const ALT: u16 = 2;

const CTRL: u16 = 4;

const SUPER: u16 = 8;

pub const PLAIN: KeyCodeEncodeModes = KeyCodeEncodeModes::PLAIN;

const CURSOR: KeyCodeEncodeModes = KeyCodeEncodeModes {
    application_cursor_keys: true,
    ..PLAIN
};

const NEWLINE: KeyCodeEncodeModes = KeyCodeEncodeModes {
    newline_mode: true,
    ..PLAIN
};

const CSI_U: KeyCodeEncodeModes = KeyCodeEncodeModes {
    encoding: KeyboardEncoding::CsiU,
    ..PLAIN
};

const OTHER_0: KeyCodeEncodeModes = KeyCodeEncodeModes {
    modify_other_keys: Some(0),
    ..PLAIN
};

const OTHER_1: KeyCodeEncodeModes = KeyCodeEncodeModes {
    modify_other_keys: Some(1),
    ..PLAIN
};

const OTHER_2: KeyCodeEncodeModes = KeyCodeEncodeModes {
    modify_other_keys: Some(2),
    ..PLAIN
};

// Cursor, function, editing and other keys.
pub const KEYS: [Example; 15] = [
    Example(KeyCode::UpArrow, NONE, PLAIN, b"\x1b[A"),
    Example(KeyCode::UpArrow, CTRL, PLAIN, b"\x1b[1;5A"),
    Example(KeyCode::UpArrow, NONE, CURSOR, b"\x1bOA"),
    Example(KeyCode::UpArrow, CTRL, CURSOR, b"\x1b[1;5A"),
    Example(KeyCode::Function(1), NONE, PLAIN, b"\x1bOP"),
    Example(KeyCode::Function(1), SUPER, PLAIN, b"\x1b[1;1P"),
    Example(KeyCode::Function(5), SHIFT, PLAIN, b"\x1b[15;2~"),
    Example(KeyCode::Function(24), NONE, PLAIN, b"\x1b[45~"),
    Example(KeyCode::Numpad9, NONE, PLAIN, b"\x1b[5~"),
    Example(KeyCode::Delete, ALT, PLAIN, b"\x1b[3;3~"),
    Example(KeyCode::Enter, NONE, PLAIN, b"\r"),
    Example(KeyCode::Enter, NONE, NEWLINE, b"\r\n"),
    Example(KeyCode::Backspace, ALT, PLAIN, b"\x1b\x7f"),
    Example(KeyCode::Escape, NONE, PLAIN, b"\x1b"),
    Example(KeyCode::Hyper, CTRL, PLAIN, b""),
];

// Tab, under each set that is sent differently.
pub const TABS: [Example; 9] = [
    Example(KeyCode::Tab, NONE, PLAIN, b"\t"),
    Example(KeyCode::Tab, SHIFT, PLAIN, b"\x1b[Z"),
    Example(KeyCode::Tab, CTRL, PLAIN, b"\x1b[9;5u"),
    Example(KeyCode::Tab, SHIFT + CTRL, PLAIN, b"\x1b[1;5Z"),
    Example(KeyCode::Tab, ALT, PLAIN, b"\x1b\t"),
    Example(KeyCode::Tab, SHIFT + ALT, PLAIN, b"\x1b\x1b[Z"),
    Example(KeyCode::Tab, SUPER, PLAIN, b"\t"),
    Example(KeyCode::Tab, CTRL, OTHER_0, b"\x1b[9;5u"),
    Example(KeyCode::Tab, CTRL, OTHER_1, b"\x1b[27;5;9~"),
];

// Characters.
pub const CHARACTERS: [Example; 13] = [
    Example(KeyCode::Char(0x61), NONE, PLAIN, b"a"),
    Example(KeyCode::Char(0x61), SHIFT, PLAIN, b"A"),
    Example(KeyCode::Char(0x61), ALT, PLAIN, b"\x1ba"),
    Example(KeyCode::Char(0x61), CTRL, PLAIN, b"\x01"),
    Example(KeyCode::Char(0x61), CTRL, OTHER_0, b"\x01"),
    Example(KeyCode::Char(0x61), CTRL, OTHER_1, b"\x01"),
    Example(KeyCode::Char(0x61), CTRL, OTHER_2, b"\x1b[27;5;97~"),
    Example(KeyCode::Char(0x41), CTRL, CSI_U, b"\x1b[65;5u"),
    Example(KeyCode::Char(0x69), CTRL, CSI_U, b"\x1b[105;5u"),
    Example(KeyCode::Char(0x20ac), NONE, PLAIN, b"\xe2\x82\xac"),
    Example(KeyCode::Char(0x10ffff), NONE, PLAIN, b"\xf4\x8f\xbf\xbf"),
    Example(KeyCode::Char(0x7f), NONE, PLAIN, b"\x1b[3~"),
    Example(KeyCode::Char(0x08), NONE, PLAIN, b"\x7f"),
];

// Refusals; where there are several causes, the first.
pub const REFUSALS: [Refusal; 10] = [
    Refusal(KeyCode::Char(0x61), 2048, 16, EncodeFault::Modifiers),
    Refusal(KeyCode::Char(0xd800), 2048, 0, EncodeFault::Modifiers),
    Refusal(KeyCode::Char(0xd800), NONE, 16, EncodeFault::NoScalar),
    Refusal(KeyCode::Char(0xdfff), NONE, 0, EncodeFault::NoScalar),
    Refusal(KeyCode::Char(0x110000), NONE, 16, EncodeFault::NoScalar),
    Refusal(KeyCode::Function(0), NONE, 16, EncodeFault::NoFunction),
    Refusal(KeyCode::Function(25), NONE, 0, EncodeFault::NoFunction),
    Refusal(KeyCode::UpArrow, CTRL, 5, EncodeFault::OutputShort),
    Refusal(KeyCode::Char(0x10ffff), NONE, 3, EncodeFault::OutputShort),
    Refusal(KeyCode::Enter, NONE, 0, EncodeFault::OutputShort),
];
