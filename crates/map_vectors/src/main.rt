// Runs test vectors: reads steps on maps from standard input, a line each, and prints what the map answers. A line `new`
// asks for an empty map.
// The crate's stdin and stdout were made by `compare/run ORIGINAL_DIR keymap-sample CASES ANSWERS`: the answers are those
// of the original crate, not of this one.
#![tactic(auto)]

mod step;

ghost use Rattle.std.specs.Prelude.{◌≡◌};

use keymap::{Found, KeyMap, MAX_NODES, MapFault, Node};
use std::io;
use std::io::{BufRead, BufReader};
use step::{Step, read_step};

// By functions and no `Display`: the types are those of `keymap`, and the words of the answers this program's.
fn print_refused(rt: &HostRuntime, fault: MapFault) -> io::Result<()> {
    let number = fault.number();
    println!(rt; "refused\t{number}")
}

fn print_inserted(rt: &HostRuntime, said: Result<(), MapFault>) -> io::Result<()> {
    match said {
        Ok(_) => println!(rt; "ok"),
        Err(fault) => print_refused(rt, fault),
    }
}

fn print_found(rt: &HostRuntime, said: Result<Found<u32>, MapFault>) -> io::Result<()> {
    match said {
        Ok(Found::None) => println!(rt; "none"),
        Ok(Found::Exact(len, value)) => println!(rt; "exact\t{len}\t{value}"),
        Ok(Found::Ambiguous(len, value)) => println!(rt; "ambiguous\t{len}\t{value}"),
        Ok(Found::NeedData) => println!(rt; "need"),
        Err(fault) => print_refused(rt, fault),
    }
}

// Takes the step of a line, and prints the answer.
fn take_step(rt: &HostRuntime, map: &mut KeyMap<u32>, line: &str) -> io::Result<()>
    ensures { map.new.nodes.ghost_name ≡ map.old.nodes.ghost_name }
{
    match read_step(line) {
        Some(Step::Insert(key, value)) => print_inserted(rt, map.insert(key.as_slice(), value)),
        Some(Step::Lookup(input, more)) => print_found(rt, map.lookup(input.as_slice(), more)),
        None => println!(rt; "unreadable"),
    }
}

// Takes the steps of some lines on an empty map.
fn run_map(rt: &HostRuntime, lines: &[String]) -> io::Result<()> {
    let mut nodes = [Node::empty(); MAX_NODES];
    let mut map = KeyMap::new(&mut nodes);
    for line in lines {
        take_step(rt, &mut map, line.as_str())?;
    }
    Ok(())
}

// The lines between those that say `new` go to a map of their own.
fn main(rt: HostRuntime) -> io::Result<()> {
    let mut lines = Vec::new(rt.alloc());
    for line in BufReader::new(rt.alloc(), rt.stdin())?.lines(rt.alloc()) {
        lines.push(line?)?;
    }
    for (i, steps) in lines.split(|line| line.as_str() == "new").enumerate() {
        if i > 0 {
            println!(rt; "ok")?;
        }
        run_map(&rt, steps)?;
    }
    Ok(())
}
