// The built-in key table in a map, and what is known of it once it is there.
#![tactic(auto)]

ghost use Rattle.std.specs.Prelude.{◌≡◌, length};
ghost use Rattle.filling.specs.Filling.{Fills};
ghost use Rattle.table.specs.Table.{table};
ghost use Rattle.basic.specs.Built.{Builds};

use keycode::KeyEvent;
use keymap::{KeyMap, MapFault};
use table::fill_table;

// Puts the built-in table into a map. An empty map with 5,327 nodes takes all of it; with fewer, the insert that lacks nodes
// is refused, and the keys before it stay. The first three clauses are those of each public filling, as promises of the call.
pub fn build_basic_key_map(map: &mut KeyMap<KeyEvent>) -> Result<(), MapFault>
    ensures lender { map.new.nodes.ghost_name ≡ map.old.nodes.ghost_name }
    ensures supplied { length map.new.nodes.now ≡ length map.old.nodes.now }
    ensures fills { Fills map.old map.new result table }
    ensures built { Builds map.old map.new result }
{
    fill_table(map)
}
