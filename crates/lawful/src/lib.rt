// Whether a table of key events is lawful: what a decoder asks of its table.
#![tactic(auto)]

ghost use Rattle.std.specs.Prelude.{◌≡◌};
ghost use Rattle.keymap.specs.Holding.{Holds};
ghost use Rattle.keymap.specs.Stored.{Stored};
ghost use Rattle.keycode.specs.declared.key.KeyEvent.{KeyEvent};
ghost use Rattle.lawful.specs.Lawful.{is_plain_escape, lawful};
ghost use Rattle.lawful.specs.Told.{some_exact, escape_exact};

use keycode::{KeyCode, KeyEvent, Modifiers};
use keymap::{Found, KeyMap, MapFault};

// Whether a press is Escape without modifiers.
pub fn is_plain_escape(event: KeyEvent) -> bool
    ensures { result ≡ is_plain_escape event }
{
    event
        == KeyEvent {
            key: KeyCode::Escape,
            modifiers: Modifiers(0),
        }
}

// Whether a lookup is answered by a key, and by no longer one.
fn is_exact(said: Result<Found<KeyEvent>, MapFault>) -> bool
    ensures { result ≡ some_exact said }
{
    matches!(said, Ok(Found::Exact(_, _)))
}

// Whether that key is plain Escape.
fn is_exact_escape(said: Result<Found<KeyEvent>, MapFault>) -> bool
    ensures { result ≡ escape_exact said }
{
    matches!(said, Ok(Found::Exact(_, event)) if is_plain_escape(event))
}

// Whether the table has no empty key and, where ESC alone is plain Escape, a longer key that starts with ESC.
pub fn is_lawful(map: &KeyMap<KeyEvent>) -> bool
    ensures { (s : Stored KeyEvent) → Holds map.now s → result ≡ lawful s }
{
    let empty_key = is_exact(map.lookup(b"", false));
    let lone_escape = is_exact_escape(map.lookup(b"\x1b", true));
    !empty_key & !lone_escape
}
