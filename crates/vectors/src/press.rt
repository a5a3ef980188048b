// A press from a line of eight fields with tabs between: the name of the key, its number or `-`, the modifiers, the
// encoding, application_cursor_keys, newline_mode, modify_other_keys or `-`, and 1 for down or 0 for up.
ghost use Rattle.std.specs.Prelude.{◌≡◌};
ghost use Rattle.vectors.specs.Fields.{flag_of, encoding_of};

use keycode::{
    KeyCode, KeyCodeEncodeModes, KeyboardEncoding, KittyKeyboardFlags, Modifiers, key_named,
};

#[derive(Clone, Copy)]
pub(crate) struct Press {
    pub key: KeyCode,
    pub mods: Modifiers,
    pub modes: KeyCodeEncodeModes,
    pub is_down: bool,
}

// A key with the number that it holds, if it holds one.
fn read_number(key: KeyCode, text: &str) -> Option<KeyCode> {
    match key {
        KeyCode::Char(_) => Some(KeyCode::Char(text.parse::<u32>().ok()?)),
        KeyCode::Function(_) => Some(KeyCode::Function(text.parse::<u8>().ok()?)),
        _ if text == "-" => Some(key),
        _ => None,
    }
}

fn read_encoding(text: &str) -> Option<KeyboardEncoding>
    ensures { result ≡ encoding_of text.now }
{
    match text {
        "xterm" => Some(KeyboardEncoding::Xterm),
        "csiu" => Some(KeyboardEncoding::CsiU),
        "win32" => Some(KeyboardEncoding::Win32),
        "kitty" => Some(KeyboardEncoding::Kitty(KittyKeyboardFlags(0))),
        _ => None,
    }
}

// As in `map_vectors`: the two programs have no crate below them that reads fields, and one for these four lines
// would be no plainer.
fn read_flag(text: &str) -> Option<bool>
    ensures { result ≡ flag_of text.now }
{
    match text {
        "0" => Some(false),
        "1" => Some(true),
        _ => None,
    }
}

fn read_other(text: &str) -> Option<Option<i64>> {
    if text == "-" {
        return Some(None);
    }
    Some(Some(text.parse::<i64>().ok()?))
}

// The press of a line, if it has eight fields that can be read.
pub(crate) fn read_press(line: &str) -> Option<Press> {
    let mut fields = line.split('\t');
    let key = read_number(key_named(fields.next()?.as_bytes())?, fields.next()?)?;
    let mods = Modifiers(fields.next()?.parse::<u16>().ok()?);
    let modes = KeyCodeEncodeModes {
        encoding: read_encoding(fields.next()?)?,
        application_cursor_keys: read_flag(fields.next()?)?,
        newline_mode: read_flag(fields.next()?)?,
        modify_other_keys: read_other(fields.next()?)?,
    };
    let is_down = read_flag(fields.next()?)?;
    if fields.next().is_some() {
        return None;
    }
    Some(Press {
        key,
        mods,
        modes,
        is_down,
    })
}
