// Bytes with the press that they mean.
ghost use Rattle.std.specs.Prelude.{◌≡◌, ◌+◌, ◌≤◌, [], ◌∷◌, ◌++◌, length};
ghost use Rattle.arrayvec.specs.ArrayVec.{array_vec_len};
ghost use Rattle.character.specs.Parts.{csi};
ghost use Rattle.table.specs.Table.{entry, mods_of, parameter, form};
ghost use Rattle.table.specs.Told.{told};
ghost use Rattle.writer.specs.Numbers.{dec};

use crate::rule::TableKey;
use keycode::{KeyCode, KeyEvent, Modifiers};
use writer::{Buf, decimal, written};

// The parameter of a sequence, or 0 for none. No `Option`: the definitions go by the number with 0, and a key's place in its row
// gives it.
#[derive(Clone, Copy)]
pub(crate) struct Parameter {
    pub(crate) number: u8,
    ghost last: { number ≤ 16 },
}

impl Parameter {
    // The modifiers of a parameter, or none for 0.
    pub(crate) fn modifiers(self) -> Modifiers
        ensures { result.0 ≡ mods_of self.number }
    {
        let n = self.number;
        if n == 0 {
            Modifiers(0)
        } else if n < 9 {
            Modifiers((n - 1) as u16)
        } else {
            Modifiers((n - 9) as u16 | Modifiers::ALT.0)
        }
    }
}

// Bytes that are written out.
pub(crate) fn keyed(text: &[u8], key: KeyCode, modifiers: Modifiers) -> TableKey
    requires { length text.now ≤ 11 }
    ensures { told result ≡ entry text.now key modifiers.0 }
{
    TableKey {
        bytes: written(text),
        event: KeyEvent { key, modifiers },
    }
}

// A text and one byte behind it.
pub(crate) fn marked(text: &[u8], byte: u8, key: KeyCode, modifiers: Modifiers) -> TableKey
    requires { length text.now ≤ 10 }
    ensures { told result ≡ entry (text.now ++ (byte ∷ [])) key modifiers.0 }
{
    let mut bytes = written(text);
    bytes.push(byte);
    TableKey {
        bytes,
        event: KeyEvent { key, modifiers },
    }
}

// Writes `;` and the parameter, or nothing for 0.
#[tactic(auto, using(writer::proofs::Digits::dec_two))]
fn push_parameter(out: &mut Buf, n: Parameter)
    requires { array_vec_len out.old ≤ 7 }
    ensures bytes { out.new.items ≡ out.old.items ++ parameter n.number }
    ensures len { array_vec_len out.new ≤ array_vec_len out.old + 3 }
{
    if n.number > 0 {
        out.push(b';');
        decimal(out, n.number as u32);
    }
}

// Behind the bytes so far a parameter, or none for 0, and the final byte: by reference, since the bytes would be copied.
fn finish(bytes: &mut Buf, n: Parameter, last: u8)
    requires { array_vec_len bytes.old ≤ 7 }
    ensures { bytes.new.items ≡ bytes.old.items ++ (parameter n.number ++ (last ∷ [])) }
{
    push_parameter(bytes, n);
    bytes.push(last);
}

// A text, a parameter or none for 0, and the final byte.
pub(crate) fn parametered(text: &[u8], n: Parameter, last: u8, key: KeyCode) -> TableKey
    requires { length text.now ≤ 7 }
    ensures { told result ≡ form text.now last key n.number }
{
    let mut bytes = written(text);
    finish(&mut bytes, n, last);
    TableKey {
        bytes,
        event: KeyEvent {
            key,
            modifiers: n.modifiers(),
        },
    }
}

// CSI and a number, a parameter or none for 0, and the final byte.
#[tactic(auto, using(writer::proofs::Digits::dec_byte))]
pub(crate) fn numbered(number: u8, n: Parameter, last: u8, key: KeyCode) -> TableKey
    ensures { told result ≡ form (csi (dec number)) last key n.number }
{
    let mut bytes = written(b"\x1b[");
    decimal(&mut bytes, number as u32);
    finish(&mut bytes, n, last);
    TableKey {
        bytes,
        event: KeyEvent {
            key,
            modifiers: n.modifiers(),
        },
    }
}
