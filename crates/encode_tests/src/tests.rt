// Compares the tables with what encode gives.
use crate::examples::{CHARACTERS, Example, KEYS, PLAIN, REFUSALS, Refusal, TABS};
use encode::{EncodeFault, encode};
use keycode::{KeyCode, KeyCodeEncodeModes, Modifiers};

// What stands in an output before a call.
const BEFORE: [u8; 16] = [0xee; 16];

// Whether an output begins with these bytes, and is as it was behind them.
fn holds(out: &[u8], bytes: &[u8]) -> bool {
    let count = bytes.len();
    out.starts_with(bytes) && out.iter().skip(count).eq(BEFORE.iter().skip(count))
}

// Encodes to the first bytes of an output, as many as `room` says.
fn encode_in(
    room: usize,
    key: KeyCode,
    mods: u16,
    modes: KeyCodeEncodeModes,
    out: &mut [u8],
) -> Result<usize, EncodeFault> {
    let end = room.min(out.len());
    encode(key, Modifiers(mods), modes, true, &mut out[0..end])
}

// Whether a press sends its bytes, where the output has so much room.
fn sends(room: usize, example: Example) -> bool {
    let Example(key, mods, modes, bytes) = example;
    let mut out = BEFORE;
    encode_in(room, key, mods, modes, &mut out) == Ok(bytes.len()) && holds(&out, bytes)
}

// The place of the first example that is not as it says, with room to spare or just enough.
fn first_wrong(examples: &[Example]) -> Option<usize> {
    examples.iter().position(|example| !sends(16, *example) || !sends(example.3.len(), *example))
}

// Whether a press is refused for its cause, and the output left as it was.
fn refuses(refusal: Refusal) -> bool {
    let Refusal(key, mods, room, cause) = refusal;
    let mut out = BEFORE;
    encode_in(room, key, mods, PLAIN, &mut out) == Err(cause) && holds(&out, &[])
}

// Whether the key of a refused press sends nothing as it goes up.
fn is_silent_up(refusal: Refusal) -> bool {
    let Refusal(key, mods, _, _) = refusal;
    let mut out = [];
    encode(key, Modifiers(mods), PLAIN, false, &mut out) == Ok(0)
}

#[test]
fn keys(rt: HostRuntime) {
    assert_eq!(rt; first_wrong(&KEYS), None);
}

#[test]
fn tabs(rt: HostRuntime) {
    assert_eq!(rt; first_wrong(&TABS), None);
}

#[test]
fn characters(rt: HostRuntime) {
    assert_eq!(rt; first_wrong(&CHARACTERS), None);
}

#[test]
fn refusals(rt: HostRuntime) {
    for refusal in REFUSALS {
        assert!(rt; refuses(refusal));
        assert!(rt; is_silent_up(refusal));
    }
}
