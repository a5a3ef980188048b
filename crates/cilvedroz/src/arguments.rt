// The numbers of the C interface as keys, modifiers and modes: by functions, since the types are those of another crate and the
// numbers are C's.
ghost use Rattle.std.specs.Prelude.{◌≡◌, ℕ, min};
ghost use Rattle.cilvedroz.specs.Arguments.{key_of, encoding_of, other_of, modes_of};

use keycode::{
    KeyCode, KeyCodeEncodeModes, KeyboardEncoding, KittyKeyboardFlags, Modifiers, key_at,
};

// The places of the two keys that hold a number.
const CHAR: u32 = 0;

const FUNCTION: u32 = 59;

// The key at a place. A function key over 255 does not exist, nor does 255, which stands for it.
pub(crate) fn key_of(place: u32, number: u32) -> Option<KeyCode>
    ensures { result ≡ key_of place number }
{
    match place {
        CHAR => Some(KeyCode::Char(number)),
        FUNCTION => Some(KeyCode::Function(number.min(255) as u8)),
        _ => key_at(place as usize),
    }
}

// A set over 65,535 is refused, and so is 65,535, which stands for it.
pub(crate) fn modifiers_of(modifiers: u32) -> Modifiers
    ensures { result.0 ≡ min modifiers 65535 }
{
    Modifiers(modifiers.min(65535) as u16)
}

pub(crate) fn encoding_of(encoding: u32) -> Option<KeyboardEncoding>
    ensures { result ≡ encoding_of encoding }
{
    match encoding {
        0 => Some(KeyboardEncoding::Xterm),
        1 => Some(KeyboardEncoding::CsiU),
        2 => Some(KeyboardEncoding::Win32),
        3 => Some(KeyboardEncoding::Kitty(KittyKeyboardFlags(0))),
        _ => None,
    }
}

fn other_of(given: u32, other: i64) -> Option<i64>
    ensures { result ≡ other_of given other }
{
    if given == 0 { None } else { Some(other) }
}

pub(crate) fn modes_of(
    encoding: KeyboardEncoding,
    application_cursor_keys: u32,
    newline_mode: u32,
    other_given: u32,
    other: i64,
) -> KeyCodeEncodeModes
    ensures { result ≡ modes_of encoding application_cursor_keys newline_mode other_given other }
{
    KeyCodeEncodeModes {
        encoding,
        application_cursor_keys: application_cursor_keys != 0,
        newline_mode: newline_mode != 0,
        modify_other_keys: other_of(other_given, other),
    }
}
