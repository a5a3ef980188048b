// The names of the keys, both ways, by one table.
ghost use Rattle.std.specs.Prelude.{◌≡◌, ◌<◌};
ghost use Rattle.keycode.specs.Names.{place, name_of, key_at, place_named, key_named};

use crate::key::KeyCode;

// How many keys there are.
pub const COUNT: usize = 90;

// The keys and their names, in the order of `KeyCode`, with the number 0 where a key holds one: keys are printed and read by it.
pub static KEYS: [(KeyCode, &'static str); 90] = [
    (KeyCode::Char(0), "Char"),
    (KeyCode::Hyper, "Hyper"),
    (KeyCode::Super, "Super"),
    (KeyCode::Meta, "Meta"),
    (KeyCode::Cancel, "Cancel"),
    (KeyCode::Backspace, "Backspace"),
    (KeyCode::Tab, "Tab"),
    (KeyCode::Clear, "Clear"),
    (KeyCode::Enter, "Enter"),
    (KeyCode::Shift, "Shift"),
    (KeyCode::Escape, "Escape"),
    (KeyCode::LeftShift, "LeftShift"),
    (KeyCode::RightShift, "RightShift"),
    (KeyCode::Control, "Control"),
    (KeyCode::LeftControl, "LeftControl"),
    (KeyCode::RightControl, "RightControl"),
    (KeyCode::Alt, "Alt"),
    (KeyCode::LeftAlt, "LeftAlt"),
    (KeyCode::RightAlt, "RightAlt"),
    (KeyCode::Menu, "Menu"),
    (KeyCode::LeftMenu, "LeftMenu"),
    (KeyCode::RightMenu, "RightMenu"),
    (KeyCode::Pause, "Pause"),
    (KeyCode::CapsLock, "CapsLock"),
    (KeyCode::PageUp, "PageUp"),
    (KeyCode::PageDown, "PageDown"),
    (KeyCode::End, "End"),
    (KeyCode::Home, "Home"),
    (KeyCode::LeftArrow, "LeftArrow"),
    (KeyCode::RightArrow, "RightArrow"),
    (KeyCode::UpArrow, "UpArrow"),
    (KeyCode::DownArrow, "DownArrow"),
    (KeyCode::Select, "Select"),
    (KeyCode::Print, "Print"),
    (KeyCode::Execute, "Execute"),
    (KeyCode::PrintScreen, "PrintScreen"),
    (KeyCode::Insert, "Insert"),
    (KeyCode::Delete, "Delete"),
    (KeyCode::Help, "Help"),
    (KeyCode::LeftWindows, "LeftWindows"),
    (KeyCode::RightWindows, "RightWindows"),
    (KeyCode::Applications, "Applications"),
    (KeyCode::Sleep, "Sleep"),
    (KeyCode::Numpad0, "Numpad0"),
    (KeyCode::Numpad1, "Numpad1"),
    (KeyCode::Numpad2, "Numpad2"),
    (KeyCode::Numpad3, "Numpad3"),
    (KeyCode::Numpad4, "Numpad4"),
    (KeyCode::Numpad5, "Numpad5"),
    (KeyCode::Numpad6, "Numpad6"),
    (KeyCode::Numpad7, "Numpad7"),
    (KeyCode::Numpad8, "Numpad8"),
    (KeyCode::Numpad9, "Numpad9"),
    (KeyCode::Multiply, "Multiply"),
    (KeyCode::Add, "Add"),
    (KeyCode::Separator, "Separator"),
    (KeyCode::Subtract, "Subtract"),
    (KeyCode::Decimal, "Decimal"),
    (KeyCode::Divide, "Divide"),
    (KeyCode::Function(0), "Function"),
    (KeyCode::NumLock, "NumLock"),
    (KeyCode::ScrollLock, "ScrollLock"),
    (KeyCode::Copy, "Copy"),
    (KeyCode::Cut, "Cut"),
    (KeyCode::Paste, "Paste"),
    (KeyCode::BrowserBack, "BrowserBack"),
    (KeyCode::BrowserForward, "BrowserForward"),
    (KeyCode::BrowserRefresh, "BrowserRefresh"),
    (KeyCode::BrowserStop, "BrowserStop"),
    (KeyCode::BrowserSearch, "BrowserSearch"),
    (KeyCode::BrowserFavorites, "BrowserFavorites"),
    (KeyCode::BrowserHome, "BrowserHome"),
    (KeyCode::VolumeMute, "VolumeMute"),
    (KeyCode::VolumeDown, "VolumeDown"),
    (KeyCode::VolumeUp, "VolumeUp"),
    (KeyCode::MediaNextTrack, "MediaNextTrack"),
    (KeyCode::MediaPrevTrack, "MediaPrevTrack"),
    (KeyCode::MediaStop, "MediaStop"),
    (KeyCode::MediaPlayPause, "MediaPlayPause"),
    (KeyCode::ApplicationLeftArrow, "ApplicationLeftArrow"),
    (KeyCode::ApplicationRightArrow, "ApplicationRightArrow"),
    (KeyCode::ApplicationUpArrow, "ApplicationUpArrow"),
    (KeyCode::ApplicationDownArrow, "ApplicationDownArrow"),
    (KeyCode::KeyPadHome, "KeyPadHome"),
    (KeyCode::KeyPadEnd, "KeyPadEnd"),
    (KeyCode::KeyPadPageUp, "KeyPadPageUp"),
    (KeyCode::KeyPadPageDown, "KeyPadPageDown"),
    (KeyCode::KeyPadBegin, "KeyPadBegin"),
    (KeyCode::InternalPasteStart, "InternalPasteStart"),
    (KeyCode::InternalPasteEnd, "InternalPasteEnd"),
];

// The place of a key in `KeyCode`, from 0.
// A `match`, and no search of `KEYS`: it is one jump, and needs no proof that each key is found.
pub fn place(key: KeyCode) -> usize
    ensures value { result ≡ place key }
    ensures below { result < 90 }
{
    match key {
        KeyCode::Char(_) => 0,
        KeyCode::Hyper => 1,
        KeyCode::Super => 2,
        KeyCode::Meta => 3,
        KeyCode::Cancel => 4,
        KeyCode::Backspace => 5,
        KeyCode::Tab => 6,
        KeyCode::Clear => 7,
        KeyCode::Enter => 8,
        KeyCode::Shift => 9,
        KeyCode::Escape => 10,
        KeyCode::LeftShift => 11,
        KeyCode::RightShift => 12,
        KeyCode::Control => 13,
        KeyCode::LeftControl => 14,
        KeyCode::RightControl => 15,
        KeyCode::Alt => 16,
        KeyCode::LeftAlt => 17,
        KeyCode::RightAlt => 18,
        KeyCode::Menu => 19,
        KeyCode::LeftMenu => 20,
        KeyCode::RightMenu => 21,
        KeyCode::Pause => 22,
        KeyCode::CapsLock => 23,
        KeyCode::PageUp => 24,
        KeyCode::PageDown => 25,
        KeyCode::End => 26,
        KeyCode::Home => 27,
        KeyCode::LeftArrow => 28,
        KeyCode::RightArrow => 29,
        KeyCode::UpArrow => 30,
        KeyCode::DownArrow => 31,
        KeyCode::Select => 32,
        KeyCode::Print => 33,
        KeyCode::Execute => 34,
        KeyCode::PrintScreen => 35,
        KeyCode::Insert => 36,
        KeyCode::Delete => 37,
        KeyCode::Help => 38,
        KeyCode::LeftWindows => 39,
        KeyCode::RightWindows => 40,
        KeyCode::Applications => 41,
        KeyCode::Sleep => 42,
        KeyCode::Numpad0 => 43,
        KeyCode::Numpad1 => 44,
        KeyCode::Numpad2 => 45,
        KeyCode::Numpad3 => 46,
        KeyCode::Numpad4 => 47,
        KeyCode::Numpad5 => 48,
        KeyCode::Numpad6 => 49,
        KeyCode::Numpad7 => 50,
        KeyCode::Numpad8 => 51,
        KeyCode::Numpad9 => 52,
        KeyCode::Multiply => 53,
        KeyCode::Add => 54,
        KeyCode::Separator => 55,
        KeyCode::Subtract => 56,
        KeyCode::Decimal => 57,
        KeyCode::Divide => 58,
        KeyCode::Function(_) => 59,
        KeyCode::NumLock => 60,
        KeyCode::ScrollLock => 61,
        KeyCode::Copy => 62,
        KeyCode::Cut => 63,
        KeyCode::Paste => 64,
        KeyCode::BrowserBack => 65,
        KeyCode::BrowserForward => 66,
        KeyCode::BrowserRefresh => 67,
        KeyCode::BrowserStop => 68,
        KeyCode::BrowserSearch => 69,
        KeyCode::BrowserFavorites => 70,
        KeyCode::BrowserHome => 71,
        KeyCode::VolumeMute => 72,
        KeyCode::VolumeDown => 73,
        KeyCode::VolumeUp => 74,
        KeyCode::MediaNextTrack => 75,
        KeyCode::MediaPrevTrack => 76,
        KeyCode::MediaStop => 77,
        KeyCode::MediaPlayPause => 78,
        KeyCode::ApplicationLeftArrow => 79,
        KeyCode::ApplicationRightArrow => 80,
        KeyCode::ApplicationUpArrow => 81,
        KeyCode::ApplicationDownArrow => 82,
        KeyCode::KeyPadHome => 83,
        KeyCode::KeyPadEnd => 84,
        KeyCode::KeyPadPageUp => 85,
        KeyCode::KeyPadPageDown => 86,
        KeyCode::KeyPadBegin => 87,
        KeyCode::InternalPasteStart => 88,
        KeyCode::InternalPasteEnd => 89,
    }
}

// The name of a key, without its number.
pub fn name_of(key: KeyCode) -> &'static str
    ensures { result.now ≡ name_of key }
{
    KEYS[place(key)].1
}

// The key at a place in `KeyCode`, with the number 0 where it holds one. By `COUNT`, so that a wrong count of keys is refused.
pub fn key_at(place: usize) -> Option<KeyCode>
    ensures { result ≡ key_at place }
{
    if place < COUNT {
        Some(KEYS[place].0)
    } else {
        None
    }
}

// The place of a name in the table.
fn place_named(name: &[u8]) -> Option<usize>
    ensures { result ≡ place_named name.now }
{
    KEYS.iter().position(|(_, text)| text.as_bytes() == name)
}

// The key of a name, with the number 0 where it holds one.
pub fn key_named(name: &[u8]) -> Option<KeyCode>
    ensures { result ≡ key_named name.now }
{
    key_at(place_named(name)?)
}
