// Control sequences.
ghost use Rattle.std.specs.Prelude.{◌≡◌, ℕ, ◌+◌, ◌≤◌, [], ◌∷◌, ◌++◌};
ghost use Rattle.arrayvec.specs.ArrayVec.{array_vec_len};
ghost use Rattle.encode.specs.Sequences.{modified, lettered, letter_key, number_parameter, number_key, function_key};

use character::{ESC, Sequence, push_parameter};
use keycode::Modifiers;
use writer::{decimal, written};

// The numbers of Function 5 to 24.
const FUNCTION_CODES: [u8; 20] = [
    15, 17, 18, 19, 20, 21, 23, 24, 25, 26, 28, 29, 31, 32, 33, 34, 42, 43, 44, 45,
];

// Whether SHIFT, ALT or CTRL is held.
fn is_modified(mods: Modifiers) -> bool
    ensures { result ≡ modified mods.0 }
{
    mods.encode_xterm() != 0
}

// CSI 1 ; n and a final letter.
fn lettered(last: u8, mods: Modifiers) -> Sequence
    ensures { result.items ≡ lettered last mods.0 }
{
    let mut out = written(b"\x1b[1;");
    push_parameter(&mut out, mods);
    out.push(last);
    out
}

// A key with a final letter: `intro` is the second byte where no modifier is held, `[` or `O`.
#[tactic(auto, unfolding(crate::specs::Sequences::letter_key))]
pub(crate) fn letter_key(intro: u8, last: u8, mods: Modifiers) -> Sequence
    ensures { result.items ≡ letter_key (27 ∷ intro ∷ last ∷ []) last mods.0 }
{
    if is_modified(mods) {
        lettered(last, mods)
    } else {
        written(&[ESC, intro, last])
    }
}

// The parameter of a key with a number, where a modifier is held.
fn push_number_parameter(out: &mut Sequence, mods: Modifiers)
    requires { array_vec_len out.old + 2 ≤ 15 }
    ensures bytes { out.new.items ≡ out.old.items ++ number_parameter mods.0 }
    ensures len { array_vec_len out.new ≤ array_vec_len out.old + 2 }
{
    if is_modified(mods) {
        out.push(b';');
        push_parameter(out, mods);
    }
}

// A key with a number.
#[tactic(auto, using(writer::proofs::Digits::dec_byte), unfolding(crate::specs::Sequences::number_key))]
pub(crate) fn number_key(number: u8, mods: Modifiers) -> Sequence
    ensures { result.items ≡ number_key number mods.0 }
{
    let mut out = written(b"\x1b[");
    decimal(&mut out, number as u32);
    push_number_parameter(&mut out, mods);
    out.push(b'~');
    out
}

// A function key.
#[tactic(auto, unfolding(crate::specs::Sequences::function_key, crate::specs::Sequences::function_codes))]
pub(crate) fn function_key(n: u8, mods: Modifiers) -> Sequence
    requires { (1 ≤ n) × (n ≤ 24) }
    ensures { result.items ≡ function_key n mods.0 }
{
    if n >= 5 {
        number_key(FUNCTION_CODES[n as usize - 5], mods)
    } else if mods.is_empty() {
        written(&[ESC, b'O', b'O' + n])
    } else {
        lettered(b'O' + n, mods)
    }
}
