// Prints the built-in key table in the order of filling, then the entries that later ones replace, and the totals.
#![tactic(auto)]

mod row;
mod totals;

use basic::build_basic_key_map;
use keycode::KeyEvent;
use keymap::{KeyMap, MAX_NODES, MapFault, Node};
use row::{Numbered, print_replaced, print_rule};
use std::io;
use table::RULES;
use totals::Totals;

fn print_table(rt: &HostRuntime, map: &KeyMap<KeyEvent>) -> io::Result<()> {
    let mut totals = Totals::default();
    for (i, rule) in RULES.iter().enumerate() {
        totals = print_rule(
            rt,
            map,
            Numbered {
                number: i as u8,
                rule: *rule,
            },
            totals,
        )?;
    }
    for (i, rule) in RULES.iter().enumerate() {
        print_replaced(
            rt,
            map,
            Numbered {
                number: i as u8,
                rule: *rule,
            },
        )?;
    }
    print!(rt; "{totals}")?;
    println!(rt; "nodes\t{}", map.used())
}

fn main(rt: HostRuntime) -> io::Result<()> {
    let mut nodes = [Node::empty(); MAX_NODES];
    let mut map = KeyMap::new(&mut nodes);
    match build_basic_key_map(&mut map) {
        Ok(()) => print_table(&rt, &map),
        Err(fault) => refused(&rt, fault),
    }
}

// Says that the table does not fit its nodes. `keyline` has its own: the programs share no crate that prints.
fn refused(rt: &HostRuntime, fault: MapFault) -> io::Result<()> {
    let number = fault.number();
    eprintln!(rt; "keytable: the table does not fit its nodes: refused {number}")
}
