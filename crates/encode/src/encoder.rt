// A press to bytes, or a refusal.
ghost use Rattle.std.specs.Prelude.{◌≡◌, ◌<◌, ◌≤◌, false, cond, [], ◌∷◌, length, None, IfOk};
ghost use Rattle.encode.specs.Forms.{form_of};
ghost use Rattle.encode.specs.Pressed.{backspace, own_character, tab_under, tab, by_form, pressed};
ghost use Rattle.encode.specs.Encoding.{number, form_fault, press_fault, sent, is_short, delivered, unless, encoding};

use crate::form::{EncodeFault, Form};
use crate::keys::form_of;
use crate::sequences::{function_key, letter_key, number_key};
use character::{ESC, Level, Sequence, csi_u_encode, encode_character, escape_for_alt, level_of};
use keycode::{KeyCode, KeyCodeEncodeModes, Modifiers};
use writer::extend;

impl EncodeFault {
    // The number by which the refusal is told. Each layer has a fault and a definition of its own, and no crate below them all.
    pub fn number(self) -> u8
        ensures { result ≡ number self }
    {
        self as u8
    }
}

// Backspace sends DEL; CTRL and SHIFT make it a modified character.
#[tactic(auto, unfolding(crate::specs::Pressed::backspace))]
fn backspace(mods: Modifiers, modes: KeyCodeEncodeModes) -> Sequence
    ensures { result.items ≡ backspace mods.0 modes }
{
    if mods.contains(Modifiers::CTRL) {
        return csi_u_encode('\x08'.into(), mods, modes);
    }
    if mods.contains(Modifiers::SHIFT) {
        return csi_u_encode('\x7f'.into(), mods, modes);
    }
    let mut out = escape_for_alt(mods);
    out.push(0x7f);
    out
}

// Enter and Escape: `text` as it is, or the character `c` modified.
#[tactic(auto, unfolding(crate::specs::Pressed::own_character))]
fn own_character(c: char, text: &[u8], mods: Modifiers, modes: KeyCodeEncodeModes) -> Sequence
    requires { length text.now ≤ 2 }
    ensures { result.items ≡ own_character c text.now mods.0 modes }
{
    if mods.contains(Modifiers::SHIFT) || mods.contains(Modifiers::CTRL) {
        return csi_u_encode(c.into(), mods, modes);
    }
    let mut out = escape_for_alt(mods);
    extend(&mut out, text);
    out
}

// Enter's text: CR, and LF behind it in newline mode.
fn newline_text(newline_mode: bool) -> &'static [u8]
    ensures bytes { result.now ≡ 13 ∷ cond newline_mode (10 ∷ []) [] }
    ensures len { length result.now ≤ 2 }
{
    if newline_mode { b"\r\n" } else { b"\r" }
}

// Tab under a set without ALT, by the numbers of the sets, as the definition has them.
fn tab_text(mods: Modifiers) -> &'static [u8]
    ensures bytes { result.now ≡ tab_under mods.0 }
    ensures len { length result.now ≤ 6 }
{
    match mods.0 {
        4 => b"\x1b[9;5u",
        5 => b"\x1b[1;5Z",
        1 => b"\x1b[Z",
        _ => b"\t",
    }
}

#[tactic(auto, unfolding(crate::specs::Pressed::tab))]
fn tab(mods: Modifiers, modes: KeyCodeEncodeModes) -> Sequence
    ensures { result.items ≡ tab mods.0 modes }
{
    if !mods.is_empty() && level_of(modes.modify_other_keys) != Level::Off {
        return csi_u_encode('\t'.into(), mods, modes);
    }
    let mut out = escape_for_alt(mods);
    extend(&mut out, tab_text(mods.remove(Modifiers::ALT)));
    out
}

// The second byte of a cursor key without modifiers.
fn cursor_intro(application_cursor_keys: bool) -> u8
    ensures { result ≡ cond application_cursor_keys 79 91 }
{
    if application_cursor_keys { b'O' } else { b'[' }
}

// The bytes of a press, by the form of its key.
fn press(form: Form, mods: Modifiers, modes: KeyCodeEncodeModes) -> Sequence
    requires { form_fault form ≡ None }
    ensures { result.items ≡ by_form form mods.0 modes }
{
    match form {
        Form::Typed(c) => encode_character(c.into(), mods, modes),
        Form::Cursor(last) => letter_key(cursor_intro(modes.application_cursor_keys), last, mods),
        Form::Application(last) => letter_key(b'O', last, mods),
        Form::Keypad(last) => letter_key(b'[', last, mods),
        Form::Edit(number) => number_key(number, mods),
        Form::Numbered(n) => function_key(n, mods),
        Form::KeyBackspace => backspace(mods, modes),
        Form::KeyEnter => own_character('\r', newline_text(modes.newline_mode), mods, modes),
        Form::KeyEscape => own_character('\x1b', &[ESC], mods, modes),
        Form::KeyTab => tab(mods, modes),
        Form::Silent => Sequence::new(),
    }
}

// Writes the bytes to the front of the output, or refuses and writes nothing.
#[tactic(auto, unfolding(crate::specs::Encoding::delivered))]
fn deliver(bytes: &[u8], out: &mut [u8]) -> Result<usize, EncodeFault>
    ensures after { sent result out.new ≡ delivered bytes.now out.old }
    ensures count { IfOk result (λ n. (n ≤ length bytes.now) × (n ≤ length out.old)) }
    ensures room { length bytes.now ≤ length out.old → is_short result ≡ false }
{
    let n = bytes.len();
    if n > out.len() {
        return Err(EncodeFault::OutputShort);
    }
    out[0..n].copy_from_slice(bytes);
    Ok(n)
}

// The bytes of a key down, or a refusal.
#[tactic(auto, unfolding(crate::specs::Pressed::pressed))]
fn encode_down(
    key: KeyCode,
    mods: Modifiers,
    modes: KeyCodeEncodeModes,
    out: &mut [u8],
) -> Result<usize, EncodeFault>
    ensures after { sent result out.new ≡ unless (press_fault (form_of key) mods.0) (pressed key mods.0 modes) out.old }
    ensures count { IfOk result (λ n. (n ≤ 15) × (n ≤ length out.old)) }
    ensures room { 15 ≤ length out.old → is_short result ≡ false }
{
    if mods.0 > Modifiers::ALL {
        return Err(EncodeFault::Modifiers);
    }
    let form = form_of(key)?;
    deliver(
        press(form, mods.remove_positional_mods(), modes).as_slice(),
        out,
    )
}

// The bytes that a terminal sends for a key, to the front of the output, and their count; or a refusal, which leaves the
// output as it was. Past the count the output stays. A key up sends nothing. No press has more than 15 bytes. The three clauses
// are those of `encode_plain` too: each call says them, so that its reader needs no other page.
pub fn encode(
    key: KeyCode,
    mods: Modifiers,
    modes: KeyCodeEncodeModes,
    is_down: bool,
    out: &mut [u8],
) -> Result<usize, EncodeFault>
    ensures after { sent result out.new ≡ encoding key mods.0 modes is_down out.old }
    ensures count { IfOk result (λ n. (n ≤ 15) × (n ≤ length out.old)) }
    ensures room { 15 ≤ length out.old → is_short result ≡ false }
{
    if !is_down {
        return Ok(0);
    }
    encode_down(key, mods, modes, out)
}
