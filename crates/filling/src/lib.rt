// Keys put into a map one after the other, up to the first refusal; and the laws of lookups that the layers above use.
#![tactic(auto)]

ghost use Rattle.std.specs.Prelude.{◌≡◌, [], ◌∷◌, length};
ghost use Rattle.filling.specs.Filling.{Fills};

use keymap::{KeyMap, MapFault};

// One key: the shortest filling. Each public filling spells its clauses out, so that a caller uses each by its name; inner ones
// say them at once, by `Puts`.
pub fn put<V: Copy>(map: &mut KeyMap<V>, key: &[u8], value: V) -> Result<(), MapFault>
    ensures lender { map.new.nodes.ghost_name ≡ map.old.nodes.ghost_name }
    ensures supplied { length map.new.nodes.now ≡ length map.old.nodes.now }
    ensures fills { Fills map.old map.new result (record { key = key.entry.now; value = value } ∷ []) }
{
    map.insert(key, value)
}
