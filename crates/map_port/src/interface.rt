// The function that C calls.
use crate::work::work_through;
use keymap::Node;

// The nodes at hand: a few more than a map may use.
const NODES: usize = 8200;

// Works through the script on an empty map over so many nodes, but at most 8,200; answers how many records were worked.
#[unsafe(no_mangle)]
pub extern "C" fn cilvedroz_map(nodes: u32, script: &[u8], out: &mut [u8]) -> u32 {
    let mut supplied = [Node::empty(); NODES];
    let count = (nodes as usize).min(NODES);
    work_through(&mut supplied[0..count], script, out)
}
