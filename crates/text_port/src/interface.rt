// The functions that C calls.
use crate::answer::of_character;
use readbuf::find_marker;
use text::{character, lossy};

// The first character of the bytes.
#[unsafe(no_mangle)]
pub extern "C" fn cilvedroz_character(bytes: &[u8]) -> u64 {
    of_character(character(bytes))
}

// The lossy text to the front of the output, and its length; or the largest number less that of the refusal.
#[unsafe(no_mangle)]
pub extern "C" fn cilvedroz_lossy(text: &[u8], out: &mut [u8]) -> u64 {
    match lossy(text, out) {
        Ok(count) => count as u64,
        Err(fault) => u64::MAX - fault.number() as u64,
    }
}

// The place of the first marker, or the largest number where there is none.
#[unsafe(no_mangle)]
pub extern "C" fn cilvedroz_marker(text: &[u8]) -> u64 {
    find_marker(text).map_or(u64::MAX, |place| place as u64)
}
