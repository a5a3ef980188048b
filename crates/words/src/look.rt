// A whole word, looked up.
ghost use Rattle.std.specs.Prelude.{◌≡◌};
ghost use Rattle.keymap.specs.Holding.{Holds};
ghost use Rattle.keymap.specs.Stored.{Stored, value_of};
ghost use Rattle.words.specs.Whole.{whole};

use keymap::{Found, KeyMap, MapFault};

// The value of an exact answer of this length.
fn whole<V: Copy>(said: Result<Found<V>, MapFault>, len: usize) -> Option<V>
    ensures { result ≡ whole said len }
{
    match said {
        Ok(Found::Exact(n, value)) if n == len => Some(value),
        _ => None,
    }
}

// The value of a word: of the whole text, not of a word that it begins with.
pub fn word<V: Copy>(map: &KeyMap<V>, text: &[u8]) -> Option<V>
    ensures { (s : Stored V) → Holds map.now s → result ≡ value_of s text.now }
{
    whole(map.lookup(text, false), text.len())
}
