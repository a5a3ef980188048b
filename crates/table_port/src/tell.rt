// What a map holds of the table: eight bytes for each key, in the order of filling. The first is 1 where the key is stored,
// else 0; then the place of the key that it means, its modifiers in two bytes and its number in four, the lowest first.
use basic::build_basic_key_map;
use keycode::{KeyCode, KeyEvent, place};
use keymap::{KeyMap, Node};
use table::{RULES, TableKey, count, entry_at};
use words::word;

// The bytes of a record.
const RECORD: usize = 8;

fn number_of(key: KeyCode) -> u32 {
    match key {
        KeyCode::Char(c) => c,
        KeyCode::Function(n) => n as u32,
        _ => 0,
    }
}

// The record of a stored key.
fn record_of(event: KeyEvent) -> [u8; RECORD] {
    let [m0, m1] = event.modifiers.0.to_le_bytes();
    let [n0, n1, n2, n3] = number_of(event.key).to_le_bytes();
    [1, place(event.key).min(255) as u8, m0, m1, n0, n1, n2, n3]
}

// Writes the record of a key to the front of the output, if there is room; of one that is not stored, the first byte alone.
fn tell_key(map: &KeyMap<KeyEvent>, key: &TableKey, out: &mut [u8]) {
    match word(map, key.bytes.as_slice()) {
        Some(event) if out.len() >= RECORD => out[..RECORD].copy_from_slice(&record_of(event)),
        None if !out.is_empty() => out[0] = 0,
        _ => {}
    }
}

// Builds the table on the nodes and tells what is stored of it.
pub(crate) fn tell_built(nodes: &mut [Node<KeyEvent>], out: &mut [u8]) -> u32 {
    let mut map = KeyMap::new(nodes);
    let refused = match build_basic_key_map(&mut map) {
        Ok(()) => 0,
        Err(fault) => fault.number(),
    };
    let keys = RULES.iter().flat_map(|rule| (0..count(*rule)).filter_map(|place| entry_at(
        *rule, place,
    )));
    for (key, record) in keys.zip(out.chunks_mut(RECORD)) {
        tell_key(&map, &key, record);
    }
    refused as u32 * 65536 + map.used().min(65535) as u32
}
