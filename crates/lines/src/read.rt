// One line, read: its form by its first field, then the other fields.
ghost use Rattle.std.specs.Prelude.{◌≡◌};
ghost use Rattle.keymap.specs.Holding.{Holds};
ghost use Rattle.keymap.specs.Stored.{Stored, value_of};
ghost use Rattle.lines.specs.Fields.{parted};
ghost use Rattle.lines.specs.Requests.{number, with_number, press_of, form_of, request_in};

use crate::fields::{cut, reads};
use crate::mods::mods_of;
use crate::numbers::{dec_number, hex_number};
use crate::request::{LineFault, Request};
use keycode::{KeyCode, KeyEvent, place};
use keymap::KeyMap;
use words::{Script, Verb, word};

// The most bytes of a line, without its LF.
pub const LONGEST: usize = 8210;

impl LineFault {
    // The number by which the fault is told; each layer has a fault and a definition of its own.
    pub fn number(self) -> u8
        ensures { result ≡ number self }
    {
        self as u8
    }
}

// The key with the number that its field writes.
fn with_number(key: KeyCode, digits: &[u8]) -> Option<KeyCode>
    ensures { result ≡ with_number key digits.now }
{
    match key {
        KeyCode::Char(_) => Some(KeyCode::Char(hex_number(digits)?)),
        KeyCode::Function(_) => Some(KeyCode::Function(dec_number(digits)?)),
        _ if reads(digits, "-") => Some(key),
        _ => None,
    }
}

// The press of three fields: the key's name, the modifiers, the number.
fn press(keys: &KeyMap<KeyCode>, fields: &[u8]) -> Option<KeyEvent>
    ensures { (s : Stored KeyCode) → Holds keys.now s → result ≡ press_of (value_of s) (parted fields.now) }
{
    let (name, rest) = cut(fields);
    let (mods, rest) = cut(rest?);
    let (digits, rest) = cut(rest?);
    if rest.is_some() {
        return None;
    }
    Some(KeyEvent {
        key: with_number(word(keys, name)?, digits)?,
        modifiers: mods_of(mods)?,
    })
}

// The request of a line of any length. The clauses name each map: a definition of both would hide which of them a word is in.
fn form(script: &Script, line: &[u8]) -> Option<Request>
    ensures { (v : Stored Verb) (k : Stored KeyCode) → Holds script.now.verbs.now v → Holds script.now.keys.now k → result ≡ form_of (value_of v) (value_of k) (parted line.now) }
{
    let (verb, rest) = cut(line);
    match word(script.verbs, verb)? {
        Verb::Press => Some(Request::Press(press(script.keys, rest?)?)),
    }
}

// The request of a line, without its LF, by the verbs and the names of keys that the maps hold.
pub fn read_line(script: &Script, line: &[u8]) -> Result<Request, LineFault>
    ensures { (v : Stored Verb) (k : Stored KeyCode) → Holds script.now.verbs.now v → Holds script.now.keys.now k → result ≡ request_in (value_of v) (value_of k) line.now }
{
    if line.len() > LONGEST {
        return Err(LineFault::OtherForm);
    }
    form(script, line).ok_or(LineFault::OtherForm)
}
