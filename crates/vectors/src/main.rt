// Runs test vectors: reads presses from standard input, a line each, and prints what encode sends for them.
// The crate's stdin and stdout were made by `compare/run ORIGINAL_DIR sample CASES ANSWERS`: the answers are those of the
// original crate, not of this one.
#![tactic(auto)]

mod press;

use encode::encode;
use press::{Press, read_press};
use std::io;
use std::io::{BufRead, BufReader};

// Prints bytes in hexadecimal.
fn print_bytes(rt: &HostRuntime, bytes: &[u8]) -> io::Result<()> {
    print!(rt; "bytes\t")?;
    for b in bytes {
        print!(rt; "{b:02X}")?;
    }
    println!(rt)
}

// Prints what encode says of a press.
fn print_press(rt: &HostRuntime, press: Press) -> io::Result<()> {
    let mut out = [0u8; 64];
    match encode(press.key, press.mods, press.modes, press.is_down, &mut out) {
        Ok(count) => print_bytes(rt, &out[0..count]),
        Err(fault) => {
            let number = fault.number();
            println!(rt; "refused\t{number}")
        }
    }
}

fn main(rt: HostRuntime) -> io::Result<()> {
    for (i, line) in BufReader::new(rt.alloc(), rt.stdin())?
        .lines(rt.alloc())
        .enumerate()
    {
        let number = i.saturating_add(1);
        match read_press(line?.as_str()) {
            Some(press) => print_press(&rt, press)?,
            None => println!(rt; "unreadable\t{number}")?,
        }
    }
    Ok(())
}
