// The rows of the rules: one key each, by its place in the row.
ghost use Rattle.std.specs.Prelude.{◌≡◌, ◌+◌, ◌-◌, ◌<◌, ◌≤◌, [], ◌∷◌, slice_index, slice_index_or};
ghost use Rattle.table.specs.Table.{entry, letter_row, csi_u_row, key_of, other_key_row, cursor_row, rxvt_row, application_row, numbers, function_row, editing_row, single_keys};
ghost use Rattle.table.specs.Told.{told, blank};

use crate::forms::{Parameter, keyed, marked, numbered, parametered};
use crate::rule::{Lettered, Marked, TableKey};
use character::ESC;
use keycode::{KeyCode, KeyEvent, Modifiers};
use writer::{decimal, written};

const NONE: Modifiers = Modifiers(0);

const SHIFT_CTRL: Modifiers = Modifiers(5);

// The numbers of Function 1 to 20.
const NUMBERS: [u8; 20] = [
    11, 12, 13, 14, 15, 17, 18, 19, 20, 21, 23, 24, 25, 26, 28, 29, 31, 32, 33, 34,
];

// The i-th letter, from 1: its control character, then ESC and the capital.
pub(crate) fn letter_key(i: u8, form: usize) -> TableKey
    requires letter { i ≤ 26 }
    requires form { form < 2 }
    ensures { told result ≡ slice_index_or (letter_row i) form blank }
{
    if form == 0 {
        marked(b"", i, KeyCode::Char(96 + i as u32), Modifiers::CTRL)
    } else {
        marked(
            b"\x1b",
            64 + i,
            KeyCode::Char(64 + i as u32),
            Modifiers::ALT,
        )
    }
}

// CSI c u, then with a parameter.
pub(crate) fn csi_u_key(c: u8, n: u8) -> TableKey
    requires { n < 9 }
    ensures { told result ≡ slice_index_or (csi_u_row c) n blank }
{
    numbered(c, Parameter { number: n }, b'u', KeyCode::Char(c as u32))
}

// The key of a character in a modifyOtherKeys sequence.
fn key_of(c: u8) -> KeyCode
    ensures { result ≡ key_of c }
{
    match c {
        8 | 127 => KeyCode::Backspace,
        27 => KeyCode::Escape,
        9 => KeyCode::Tab,
        10 | 13 => KeyCode::Enter,
        _ => KeyCode::Char(c as u32),
    }
}

// CSI 27 ; n ; c ~, with n one more than the place in the row.
#[tactic(auto, using(writer::proofs::Digits::dec_digit, writer::proofs::Digits::dec_byte))]
pub(crate) fn other_key(c: u8, form: u8) -> TableKey
    requires { form < 8 }
    ensures { told result ≡ slice_index_or (other_key_row c) form blank }
{
    let n = form + 1;
    let mut bytes = written(b"\x1b[27;");
    decimal(&mut bytes, n as u32);
    bytes.push(b';');
    decimal(&mut bytes, c as u32);
    bytes.push(b'~');
    TableKey {
        bytes,
        event: KeyEvent {
            key: key_of(c),
            modifiers: Parameter { number: n }.modifiers(),
        },
    }
}

// ESC, the byte behind it, and the letter.
fn letter_alone(l: Lettered) -> TableKey
    ensures { told result ≡ entry (27 ∷ l.intro ∷ l.last ∷ []) l.key 0 }
{
    keyed(&[ESC, l.intro, l.last], l.key, NONE)
}

// The letter alone, then CSI 1 and the letter, then with a parameter.
pub(crate) fn cursor_key(l: Lettered, form: u8) -> TableKey
    requires { form < 18 }
    ensures { told result ≡ slice_index_or (cursor_row l) form blank }
{
    if form == 0 {
        letter_alone(l)
    } else {
        parametered(b"\x1b[1", Parameter { number: form - 1 }, l.last, l.key)
    }
}

// The arrow with SHIFT, then with CTRL.
pub(crate) fn rxvt_key(l: Marked, form: usize) -> TableKey
    requires { form < 2 }
    ensures { told result ≡ slice_index_or (rxvt_row l) form blank }
{
    if form == 0 {
        marked(b"\x1b[", l.byte, l.key, Modifiers::SHIFT)
    } else {
        marked(b"\x1bO", l.byte, l.key, Modifiers::CTRL)
    }
}

// The letter alone, then SS3 1 and the letter, then with a parameter. Apart from `cursor_key`: one function for both would take
// four parameters for three lines.
pub(crate) fn application_key(l: Marked, form: u8) -> TableKey
    requires { form < 10 }
    ensures { told result ≡ slice_index_or (application_row l) form blank }
{
    if form == 0 {
        marked(b"\x1bO", l.byte, l.key, NONE)
    } else {
        parametered(b"\x1bO1", Parameter { number: form - 1 }, l.byte, l.key)
    }
}

// CSI number ~ of Function k, then with a parameter.
pub(crate) fn function_key(k: u8, n: u8) -> TableKey
    requires some { 1 ≤ k }
    requires last { k ≤ 20 }
    requires form { n < 17 }
    ensures { told result ≡ slice_index_or (function_row k) n blank }
{
    numbered(
        NUMBERS[k as usize - 1],
        Parameter { number: n },
        b'~',
        KeyCode::Function(k),
    )
}

// CSI digit: the key alone, with SHIFT, with CTRL, with both.
pub(crate) fn editing_key(l: Marked, form: usize) -> TableKey
    requires { form < 4 }
    ensures { told result ≡ slice_index_or (editing_row l) form blank }
{
    let (last, modifiers) = match form {
        0 => (b'~', NONE),
        1 => (b'$', Modifiers::SHIFT),
        2 => (b'^', Modifiers::CTRL),
        _ => (b'@', SHIFT_CTRL),
    };
    keyed(&[ESC, b'[', l.byte, last], l.key, modifiers)
}

// The keys that have a sequence of their own.
pub(crate) fn single_key(place: usize) -> TableKey
    requires { place < 10 }
    ensures { told result ≡ slice_index_or single_keys place blank }
{
    match place {
        0 => keyed(b"\x7f", KeyCode::Backspace, NONE),
        1 => keyed(b"\x08", KeyCode::Backspace, NONE),
        2 => keyed(b"\x1b", KeyCode::Escape, NONE),
        3 => keyed(b"\t", KeyCode::Tab, NONE),
        4 => keyed(b"\r", KeyCode::Enter, NONE),
        5 => keyed(b"\n", KeyCode::Enter, NONE),
        6 => keyed(b"\x1b[Z", KeyCode::Tab, Modifiers::SHIFT),
        7 => keyed(b"\x1b[200~", KeyCode::InternalPasteStart, NONE),
        8 => keyed(b"\x1b[201~", KeyCode::InternalPasteEnd, NONE),
        _ => keyed(b"\x1b[", KeyCode::Char(0x5b), Modifiers::ALT),
    }
}
