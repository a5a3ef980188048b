// Plain presses: those that are to come back as they were when their bytes are decoded.
ghost use Rattle.std.specs.Prelude.{◌≡◌, ◌≤◌, true, false, length, IfOk};
ghost use Rattle.encode.specs.Encoding.{sent, is_short, encoding};
ghost use Rattle.encode.specs.Plain.{plain_modes, plain_alone, plain_alt, plain_ctrl, plain_char, plainness_of, plain};

use crate::encoder::encode;
use crate::form::{EncodeFault, Plainness};
use keycode::{KeyCode, KeyCodeEncodeModes, KeyEvent};

fn is_plain_alone(c: u32) -> bool
    ensures { result ≡ plain_alone c }
{
    matches!(c, 0x20..=0x7e | 0x80..=0xd7ff | 0xe000..=0x10ffff)
}

fn is_plain_under_alt(c: u32) -> bool
    ensures { result ≡ plain_alt c }
{
    (0x20..=0x7e).contains(&c) && c != 0x5b && c != 0x4f
}

fn is_plain_under_ctrl(c: u32) -> bool
    ensures { result ≡ plain_ctrl c }
{
    matches!(c, 0x61..=0x67 | 0x6b..=0x6c | 0x6e..=0x7a)
}

// By the numbers of the sets, as the definition has them.
fn is_plain_char(c: u32, mods: u16) -> bool
    ensures { result ≡ plain_char c mods }
{
    match mods {
        0 => is_plain_alone(c),
        2 => is_plain_under_alt(c),
        4 | 6 => is_plain_under_ctrl(c),
        _ => false,
    }
}

// Under which modifiers a key is a plain press.
fn plainness(key: KeyCode) -> Plainness
    ensures { result ≡ plainness_of key }
{
    match key {
        KeyCode::Char(c) => Plainness::Character(c),
        KeyCode::Function(n) => Plainness::Key(n),
        KeyCode::UpArrow | KeyCode::DownArrow | KeyCode::RightArrow | KeyCode::LeftArrow =>
            Plainness::Everywhere,
        KeyCode::Home | KeyCode::End => Plainness::Everywhere,
        KeyCode::Tab => Plainness::Shifted,
        KeyCode::Enter | KeyCode::Backspace => Plainness::Alone,
        KeyCode::Insert | KeyCode::Delete | KeyCode::PageUp | KeyCode::PageDown => Plainness::Alone,
        _ => Plainness::Never,
    }
}

// Whether a press is plain.
pub fn is_plain(event: KeyEvent) -> bool
    ensures { result ≡ plain event.key event.modifiers.0 }
{
    let mods = event.modifiers.0;
    match plainness(event.key) {
        Plainness::Character(c) => is_plain_char(c, mods),
        Plainness::Key(n) => (1..=20).contains(&n) && mods < 8,
        Plainness::Everywhere => mods < 8,
        Plainness::Shifted => mods < 2,
        Plainness::Alone => mods == 0,
        Plainness::Never => false,
    }
}

// The bytes of a press in the modes that a terminal starts in: what `encode` gives for the key down. It says the clauses of
// `encode` again, as each call says its own.
pub fn encode_plain(event: KeyEvent, out: &mut [u8]) -> Result<usize, EncodeFault>
    ensures after { sent result out.new ≡ encoding event.key event.modifiers.0 plain_modes true out.old }
    ensures count { IfOk result (λ n. (n ≤ 15) × (n ≤ length out.old)) }
    ensures room { 15 ≤ length out.old → is_short result ≡ false }
{
    encode(
        event.key,
        event.modifiers,
        KeyCodeEncodeModes::PLAIN,
        true,
        out,
    )
}
