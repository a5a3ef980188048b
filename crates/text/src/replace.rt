// Text with U+FFFD for what is ill-formed.
ghost use Rattle.std.specs.Prelude.{◌≡◌, ◌+◌, ◌*◌, ◌≤◌, true, ◌++◌, length, take, drop, is_ok, is_none, IfOk, IfSome, ◌==◌};
ghost use Rattle.text.specs.Reading.{character_of};
ghost use Rattle.text.specs.Lossy.{number, taken, shown, lossy_of, up_to, told, written_in};

use crate::kinds::{Character, TextFault};
use crate::utf8::character;

// U+FFFD in UTF-8.
const REPLACEMENT: [u8; 3] = *b"\xef\xbf\xbd";

impl TextFault {
    // The number by which the refusal is told; each layer has a fault and a definition of its own.
    pub fn number(self) -> u8
        ensures { result ≡ number self }
    {
        self as u8
    }
}

// What is written for the first character or ill-formed subpart, and the bytes behind it, if there are any bytes.
fn piece(text: &[u8]) -> Option<(&[u8], &[u8])>
    ensures none { is_none result ≡ (length text.now == 0) }
    ensures bytes { IfSome result (λ part. part.0.now ≡ shown (character_of text.now) text.now) }
    ensures rest { IfSome result (λ part. part.1.now ≡ drop (taken (character_of text.now) text.now) text.now) }
{
    match character(text) {
        Character::Scalar(_, n) => Some(text.split_at(n)),
        Character::IllFormed(n) => Some((&REPLACEMENT, &text[n..])),
        Character::Partial => Some((&REPLACEMENT, b"")),
        Character::Empty => None,
    }
}

// The length of the lossy text, if it is at most the limit.
fn lossy_len(text: &[u8], most: usize) -> Option<usize>
    ensures { result ≡ up_to most (length (lossy_of text.now)) }
{
    let mut len = 0;
    let mut rest = text;
    while let Some((shown, behind)) = piece(rest) {
        if shown.len() > most - len {
            return None;
        }
        len += shown.len();
        rest = behind;
    }
    Some(len)
}

// Writes a part of a text to a place of the output.
fn write_part(part: &[u8], out: &mut [u8], at: usize)
    requires { at + length part.now ≤ length out.old }
    ensures { out.new ≡ take at out.old ++ (part.now ++ drop (at + length part.now) out.old) }
{
    out[at..at + part.len()].copy_from_slice(part);
}

// Writes the lossy text to the front of the output; `len` is the place there, and no index of the text.
fn write_lossy(text: &[u8], out: &mut [u8])
    requires { length (lossy_of text.now) ≤ length out.old }
    ensures { out.new ≡ lossy_of text.now ++ drop (length (lossy_of text.now)) out.old }
{
    let mut len = 0;
    let mut rest = text;
    while let Some((shown, behind)) = piece(rest) {
        write_part(shown, out, len);
        len += shown.len();
        rest = behind;
    }
}

// The text with EF BF BD for each maximal ill-formed subpart, to the front of the output, and its length; an unfinished
// character at the end is one such subpart. Or a refusal, which leaves the output as it was. Past the length the output
// stays. An output of three times the text's length is never too short.
pub fn lossy(text: &[u8], out: &mut [u8]) -> Result<usize, TextFault>
    ensures after { told result out.new ≡ written_in (lossy_of text.now) out.old }
    ensures count { IfOk result (λ n. n ≤ length out.old) }
    ensures room { 3 * length text.now ≤ length out.old → is_ok result ≡ true }
{
    let len = lossy_len(text, out.len()).ok_or(TextFault::OutputTooShort)?;
    write_lossy(text, out);
    Ok(len)
}
