// Reads a script of key presses from standard input, and answers each line on standard output.
#![tactic(auto)]

use keycode::KeyCode;
use keymap::{KeyMap, MapFault, Node};
use std::io;
use std::io::{BufRead, BufReader, Write};
use words::{Script, Verb, fill_keys, fill_verbs};

// The nodes for the verbs and for the names of the keys.
const VERB_NODES: usize = 8;

const KEY_NODES: usize = 1024;

fn answer_lines(rt: &HostRuntime, verbs: &KeyMap<Verb>, keys: &KeyMap<KeyCode>) -> io::Result<()> {
    let script = Script { verbs, keys };
    let mut out = rt.stdout();
    for line in BufReader::new(rt.alloc(), rt.stdin())?.split(rt.alloc(), b'\n') {
        out.write_all(answers::answer(&script, line?.as_slice()).as_slice())?;
    }
    Ok(())
}

fn fill(verbs: &mut KeyMap<Verb>, keys: &mut KeyMap<KeyCode>) -> Result<(), MapFault> {
    fill_verbs(verbs)?;
    fill_keys(keys)
}

fn main(rt: HostRuntime) -> io::Result<()> {
    let mut verb_nodes = [Node::empty(); VERB_NODES];
    let mut key_nodes = [Node::empty(); KEY_NODES];
    let mut verbs = KeyMap::new(&mut verb_nodes);
    let mut keys = KeyMap::new(&mut key_nodes);
    match fill(&mut verbs, &mut keys) {
        Ok(()) => answer_lines(&rt, &verbs, &keys),
        Err(fault) => refused(&rt, fault),
    }
}

// Says that the words do not fit their nodes. `keytable` has its own: the programs share no crate that prints.
fn refused(rt: &HostRuntime, fault: MapFault) -> io::Result<()> {
    let number = fault.number();
    eprintln!(rt; "keyline: the words do not fit their nodes: refused {number}")
}
