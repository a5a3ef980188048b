// The lines of presses and reports.
ghost use Rattle.std.specs.Prelude.{◌≡◌, ◌+◌, ◌≤◌, ◌∷◌, ◌++◌};
ghost use Rattle.events.specs.Told.{key as key_told, report as report_told};
ghost use Rattle.keycode.specs.Modifiers.{unplaced};
ghost use Rattle.keycode.specs.Names.{name_of};
ghost use Rattle.lines.specs.Mods.{mods_text};
ghost use Rattle.arrayvec.specs.ArrayVec.{array_vec_len};
ghost use Rattle.writer.specs.Numbers.{dec};
ghost use Rattle.linewriter.specs.KeyNumbers.{number_of, Sized};
ghost use Rattle.linewriter.specs.Lines.{number_text, line_of};

use crate::number::Number;
use events::Report;
use keycode::{KeyCode, KeyEvent, Modifiers, name_of};
use lines::mods_text;
use writer::{Buf, decimal, extend, hexadecimal, written};

// The most bytes of the line of a press or a report.
pub const LONGEST: usize = 40;

// The line of a press or a report, with room behind it.
pub type Line = Buf;

// The number that a key holds. That it is sized so is a promise to callers, whose definitions have no `u32`.
pub fn number_of(key: KeyCode) -> Number
    ensures value { result ≡ number_of key }
    ensures room { Sized (number_of key) }
{
    match key {
        KeyCode::Char(c) => Number::Character(c),
        KeyCode::Function(n) => Number::OnKey(n),
        _ => Number::Absent,
    }
}

// A tab and a key's name, at most 22 bytes.
fn name_field(out: &mut Line, key: KeyCode)
    requires { array_vec_len out.old + 22 ≤ 40 }
    ensures bytes { out.new.items ≡ out.old.items ++ (9 ∷ name_of key) }
    ensures len { array_vec_len out.new ≤ array_vec_len out.old + 22 }
{
    out.push(b'\t');
    extend(out, name_of(key).as_bytes());
}

// A tab and the letters of a set of modifiers, at most five bytes.
fn mods_field(out: &mut Line, modifiers: Modifiers)
    requires { array_vec_len out.old + 5 ≤ 40 }
    ensures bytes { out.new.items ≡ out.old.items ++ (9 ∷ mods_text (unplaced modifiers.0)) }
    ensures len { array_vec_len out.new ≤ array_vec_len out.old + 5 }
{
    out.push(b'\t');
    extend(out, mods_text(modifiers).as_bytes());
}

// A tab and a key's number, at most nine bytes.
#[tactic(auto, using(writer::proofs::Digits::dec_byte, writer::proofs::Digits::hex_word))]
fn number_field(out: &mut Line, key: KeyCode)
    requires { array_vec_len out.old + 9 ≤ 40 }
    ensures bytes { out.new.items ≡ out.old.items ++ (9 ∷ number_text (number_of key)) }
    ensures len { array_vec_len out.new ≤ array_vec_len out.old + 9 }
    ensures room { Sized (number_of key) }
{
    out.push(b'\t');
    match number_of(key) {
        Number::Character(c) => hexadecimal(out, c),
        Number::OnKey(n) => decimal(out, n as u32),
        Number::Absent => out.push(b'-'),
    }
}

// The line of a press: key, its name, its modifiers and its number.
#[tactic(auto, unfolding(crate::specs::Lines::line_of))]
pub fn key_line(event: KeyEvent) -> Line
    ensures value { result.items ≡ line_of (key_told event) }
    ensures len { array_vec_len result ≤ 40 }
    ensures room { Sized (number_of event.key) }
{
    let mut out = written(b"key");
    name_field(&mut out, event.key);
    mods_field(&mut out, event.modifiers);
    number_field(&mut out, event.key);
    out.push(b'\n');
    out
}

// A tab and a number in decimal, at most six bytes.
#[tactic(auto, using(writer::proofs::Digits::dec_half))]
fn decimal_field(out: &mut Line, n: u16)
    requires { array_vec_len out.old + 6 ≤ 40 }
    ensures bytes { out.new.items ≡ out.old.items ++ (9 ∷ dec n) }
    ensures len { array_vec_len out.new ≤ array_vec_len out.old + 6 }
{
    out.push(b'\t');
    decimal(out, n as u32);
}

// The line of a report: report, its kind and its two numbers.
#[tactic(auto, unfolding(crate::specs::Lines::line_of))]
pub fn report_line(report: Report) -> Line
    ensures value { result.items ≡ line_of (report_told report) }
    ensures len { array_vec_len result ≤ 40 }
{
    let mut out = written(b"report");
    decimal_field(&mut out, report.kind);
    decimal_field(&mut out, report.first);
    decimal_field(&mut out, report.second);
    out.push(b'\n');
    out
}
