// What keyline answers to a line of its script.
#![tactic(auto)]

ghost use Rattle.std.specs.Prelude.{◌≡◌, ◌≤◌, length};
ghost use Rattle.arrayvec.specs.ArrayVec.{array_vec_len};
ghost use Rattle.answers.specs.Answers.{refused_line, bytes_line, to_key, answer_in, answer_to};
ghost use Rattle.filling.specs.Filling.{HoldsWords};
ghost use Rattle.keymap.specs.Holding.{Holds};
ghost use Rattle.keymap.specs.Stored.{Stored, value_of};
ghost use Rattle.words.specs.Words.{verb_words, key_words};

use encode::encode_plain;
use keycode::{KeyCode, KeyEvent};
use lines::{Request, read_line};
use words::{Script, Verb};
use writer::{Buf, decimal, hex, written};

// The most bytes of an answer: a word, a tab, sixteen bytes in hexadecimal and the LF.
pub const LONGEST: usize = 39;

// An answer, LF included, with room behind it.
pub type Answer = Buf;

// refused, and the number
#[tactic(auto, using(writer::proofs::Digits::dec_byte), unfolding(crate::specs::Answers::refused_line))]
fn refused(number: u8) -> Answer
    ensures line { result.items ≡ refused_line number }
    ensures len { array_vec_len result ≤ 39 }
{
    let mut out = written(b"refused\t");
    decimal(&mut out, number as u32);
    out.push(b'\n');
    out
}

// bytes, and the bytes in hexadecimal
#[tactic(auto, unfolding(crate::specs::Answers::bytes_line))]
fn bytes_line(bytes: &[u8]) -> Answer
    requires { length bytes.now ≤ 16 }
    ensures line { result.items ≡ bytes_line bytes.now }
    ensures len { array_vec_len result ≤ 39 }
{
    let mut out = written(b"bytes\t");
    hex(&mut out, bytes);
    out.push(b'\n');
    out
}

// The answer to a press.
fn press_answer(event: KeyEvent) -> Answer
    ensures line { result.items ≡ to_key event.key event.modifiers.0 }
    ensures len { array_vec_len result ≤ 39 }
{
    let mut bytes = [0; 16];
    match encode_plain(event, &mut bytes) {
        Ok(n) => bytes_line(&bytes[0..n]),
        Err(fault) => refused(fault.number()),
    }
}

// The answer to a line, by the words that the maps hold. The clauses name each map, as those of `lines` do: a definition of both
// would hide which of them a word is in.
fn reply(script: &Script, line: &[u8]) -> Answer
    ensures len { array_vec_len result ≤ 39 }
    ensures any { (v : Stored Verb) (k : Stored KeyCode) → Holds script.now.verbs.now v → Holds script.now.keys.now k → result.items ≡ answer_in (value_of v) (value_of k) line.now }
{
    match read_line(script, line) {
        Ok(Request::Press(event)) => press_answer(event),
        Err(fault) => refused(fault.number()),
    }
}

// The answer to a line without its LF: one line, LF included. Every line has one, and none depends on another. With the maps
// that `fill_verbs` and `fill_keys` filled, it is that of the script language; with any others, that of the words they hold.
pub fn answer(script: &Script, line: &[u8]) -> Answer
    ensures any { (v : Stored Verb) (k : Stored KeyCode) → Holds script.now.verbs.now v → Holds script.now.keys.now k → result.items ≡ answer_in (value_of v) (value_of k) line.now }
    ensures words { HoldsWords script.now.verbs.now verb_words → HoldsWords script.now.keys.now key_words → result.items ≡ answer_to line.now }
    ensures len { array_vec_len result ≤ 39 }
{
    reply(script, line)
}
