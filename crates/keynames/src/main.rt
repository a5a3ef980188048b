// Prints the names that a script may give to keys, one to a line, in the order of `KeyCode`.
#![tactic(auto)]

use keycode::KEYS;
use std::io;

fn main(rt: HostRuntime) -> io::Result<()> {
    for (_, name) in &KEYS {
        println!(rt; "{name}")?;
    }
    Ok(())
}
