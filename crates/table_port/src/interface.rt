// The functions that C calls.
use crate::tell::tell_built;
use keymap::Node;
use table::{RULES, TableKey, entry_at};

// The nodes at hand: a few more than a map may use.
const NODES: usize = 8200;

// Builds the table in an empty map over so many nodes, but at most 8,200; writes what is stored under each of the table's
// keys to `out`, in the order of filling; answers the number of the refusal, or 0, times 65,536, and the nodes in use.
#[unsafe(no_mangle)]
pub extern "C" fn cilvedroz_table(nodes: u32, out: &mut [u8]) -> u32 {
    let mut supplied = [Node::empty(); NODES];
    let count = (nodes as usize).min(NODES);
    tell_built(&mut supplied[0..count], out)
}

// Writes the key at a place of a rule, both from 0, to the front of `out`; answers its length, or 0 where there is none
// or `out` is too short.
#[unsafe(no_mangle)]
pub extern "C" fn cilvedroz_table_key(rule: u32, place: u32, out: &mut [u8]) -> u32 {
    let Some(rule) = RULES.get(rule as usize) else {
        return 0;
    };
    match entry_at(*rule, place as usize) {
        Some(key) => copy(&key, out),
        None => 0,
    }
}

fn copy(key: &TableKey, out: &mut [u8]) -> u32 {
    let bytes = key.bytes.as_slice();
    if bytes.len() > out.len() {
        return 0;
    }
    out[..bytes.len()].copy_from_slice(bytes);
    bytes.len() as u32
}
