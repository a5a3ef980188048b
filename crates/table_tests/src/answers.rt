// Lookups in the built-in table, fillings on few nodes or behind other keys, and lawful tables.
use basic::build_basic_key_map;
use keycode::{KeyCode, KeyEvent, Modifiers, place};
use keymap::{Found, KeyMap, MapFault, Node};
use lawful::is_lawful;
use table::{Rule, entry_at};

// The nodes that the table takes.
const NODES: usize = 5327;

// Whether a press is this one, by key and modifiers apart, as the examples have them. Characters and function keys are told by
// their kind alone, so this is not `==`.
fn is(event: KeyEvent, key: KeyCode, mods: u16) -> bool {
    place(event.key) == place(key) && event.modifiers.0 == mods
}

// What the table says of an input; `open` says that it may go on.
fn look(input: &[u8], open: bool) -> Result<Found<KeyEvent>, MapFault> {
    let mut nodes = [Node::empty(); NODES];
    let mut map = KeyMap::new(&mut nodes);
    build_basic_key_map(&mut map)?;
    map.lookup(input, open)
}

// Whether an input is answered by a key of so many bytes, and this press.
pub(crate) fn finds(input: &[u8], open: bool, len: usize, key: KeyCode, mods: u16) -> bool {
    matches!(look(input, open), Ok(Found::Exact(n, event)) if n == len && is(event, key, mods))
}

// Whether an input that may go on is answered by a key that may be a longer one.
pub(crate) fn waits(input: &[u8], len: usize, key: KeyCode, mods: u16) -> bool {
    matches!(look(input, true), Ok(Found::Ambiguous(n, event)) if n == len && is(event, key, mods))
}

// Whether a filling on so many nodes is refused for want of nodes, and so many are in use then.
pub(crate) fn refused_on(count: usize, used: usize) -> bool {
    let mut nodes = [Node::empty(); NODES];
    let mut map = KeyMap::new(&mut nodes[0..count.min(NODES)]);
    build_basic_key_map(&mut map) == Err(MapFault::TooFewNodes) && map.used() == used
}

// Whether the entry at a place, from 0, has these bytes and this press.
pub(crate) fn entry(rule: Rule, at: usize, bytes: &[u8], key: KeyCode, mods: u16) -> bool {
    match entry_at(rule, at) {
        Some(entry) => entry.bytes.as_slice() == bytes && is(entry.event, key, mods),
        None => false,
    }
}

// A press without modifiers.
fn bare(key: KeyCode) -> KeyEvent {
    KeyEvent {
        key,
        modifiers: Modifiers(0),
    }
}

// Whether a key that was in as Home before the table is answered by this press behind it, and so many nodes are in use.
pub(crate) fn behind(key: &[u8], press: KeyCode, used: usize) -> Result<bool, MapFault> {
    let mut nodes = [Node::empty(); NODES + 1];
    let mut map = KeyMap::new(&mut nodes);
    map.insert(key, bare(KeyCode::Home))?;
    build_basic_key_map(&mut map)?;
    let found = map.lookup(key, false)?;
    Ok(matches!(found, Found::Exact(_, event) if is(event, press, 0)) && map.used() == used)
}

// Whether the built-in table is lawful.
pub(crate) fn built_in_is_lawful() -> Result<bool, MapFault> {
    let mut nodes = [Node::empty(); NODES];
    let mut map = KeyMap::new(&mut nodes);
    build_basic_key_map(&mut map)?;
    Ok(is_lawful(&map))
}

// Whether a table of these two keys is lawful, each of them plain Escape.
pub(crate) fn escapes_are_lawful(one: &[u8], other: &[u8]) -> Result<bool, MapFault> {
    let mut nodes = [Node::empty(); 8];
    let mut map = KeyMap::new(&mut nodes);
    map.insert(one, bare(KeyCode::Escape))?;
    map.insert(other, bare(KeyCode::Escape))?;
    Ok(is_lawful(&map))
}
