// The table, put into a map.
ghost use Rattle.std.specs.Prelude.{◌≡◌, ◌<◌, [], ◌∷◌, length, slice_index_or};
ghost use Rattle.filling.specs.Filling.{Fills, Puts};
ghost use Rattle.table.specs.Table.{entries_of, table};
ghost use Rattle.table.specs.Told.{blank, count_of};

use crate::place::{RULES, count, key_in};
use crate::rule::Rule;
use filling::put;
use keycode::KeyEvent;
use keymap::{KeyMap, MapFault};

// Puts the key at a place of a rule into a map.
fn fill_key(map: &mut KeyMap<KeyEvent>, rule: Rule, place: usize) -> Result<(), MapFault>
    requires { place < count_of rule }
    ensures { Puts map.old map.new result (slice_index_or (entries_of rule) place blank ∷ []) }
{
    let key = key_in(rule, place);
    put(map, key.bytes.as_slice(), key.event)
}

// Puts the keys of a rule into a map: by places, since a rule's keys are made by their place. This loop, `fill_table` and
// `words::fill_keys` stay apart: each is three lines, and a function that they could share needs the body as a closure with a
// contract as long as theirs.
fn fill_rule(map: &mut KeyMap<KeyEvent>, rule: Rule) -> Result<(), MapFault>
    ensures { Puts map.old map.new result (entries_of rule) }
{
    for place in 0..count(rule) {
        fill_key(map, rule, place)?;
    }
    Ok(())
}

// Puts the table into a map, rule by rule. A refused insert passes up as it came, and the keys before it stay. The clauses are
// those of each public filling, as promises of the call.
pub fn fill_table(map: &mut KeyMap<KeyEvent>) -> Result<(), MapFault>
    ensures lender { map.new.nodes.ghost_name ≡ map.old.nodes.ghost_name }
    ensures supplied { length map.new.nodes.now ≡ length map.old.nodes.now }
    ensures fills { Fills map.old map.new result table }
{
    for rule in RULES {
        fill_rule(map, rule)?;
    }
    Ok(())
}
