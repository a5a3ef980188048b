// The tables of words, put into maps.
ghost use Rattle.std.specs.Prelude.{◌≡◌, ◌<◌, [], ◌∷◌};
ghost use Rattle.filling.specs.Filling.{Fills, Puts, TakesAll};
ghost use Rattle.words.specs.Words.{verb_words, key_word, key_words};

use crate::verb::Verb;
use filling::put;
use keycode::{COUNT, KeyCode, key_at, name_of};
use keymap::{KeyMap, MapFault};

// Puts the verbs into a map. A refused insert passes up as it came; an empty map with 6 nodes takes them. The first clauses are
// those of each public filling, as promises of the call.
pub fn fill_verbs(map: &mut KeyMap<Verb>) -> Result<(), MapFault>
    ensures lender { map.new.nodes.ghost_name ≡ map.old.nodes.ghost_name }
    ensures fills { Fills map.old map.new result verb_words }
    ensures takes { TakesAll map.old map.new result verb_words }
{
    put(map, b"press", Verb::Press)
}

// Puts the name at a place into a map.
fn fill_key(map: &mut KeyMap<KeyCode>, place: usize) -> Result<(), MapFault>
    requires { place < 90 }
    ensures { Puts map.old map.new result (key_word place ∷ []) }
{
    match key_at(place) {
        Some(key) => put(map, name_of(key).as_bytes(), key),
        None => Ok(()),
    }
}

// Puts the names of the keys into a map, in the order of `KeyCode`. The first clauses are those of each public filling. A
// refused insert passes up as it came, and the names before it stay. An empty map with 1,024 nodes takes all of them. The loop
// stays apart from those of `table`: a shared one needs its body as a closure with a contract as long. It goes by places: over
// `&KEYS` the proof of the loop has no name for the pair that a turn reads.
pub fn fill_keys(map: &mut KeyMap<KeyCode>) -> Result<(), MapFault>
    ensures lender { map.new.nodes.ghost_name ≡ map.old.nodes.ghost_name }
    ensures fills { Fills map.old map.new result key_words }
    ensures takes { TakesAll map.old map.new result key_words }
{
    for place in 0..COUNT {
        fill_key(map, place)?;
    }
    Ok(())
}
