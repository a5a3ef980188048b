// What keys and characters share: their longest length, ESC for ALT, and the modifier parameter.
ghost use Rattle.std.specs.Prelude.{◌≡◌, ◌+◌, ◌<◌, ◌≤◌, ◌++◌};
ghost use Rattle.arrayvec.specs.ArrayVec.{array_vec_len};
ghost use Rattle.character.specs.Parts.{parameter, escaped};

use arrayvec::ArrayVec;
use keycode::Modifiers;
use writer::{decimal, written};

pub const ESC: u8 = 0x1b;

// The most bytes of a press.
pub const LONGEST: usize = 15;

// The bytes of a press.
pub type Sequence = ArrayVec<u8, LONGEST>;

// The modifier parameter: one digit.
#[tactic(auto, using(writer::proofs::Digits::dec_digit))]
pub fn push_parameter<const N: usize>(out: &mut ArrayVec<u8, N>, mods: Modifiers)
    requires { array_vec_len out.old + 1 ≤ N }
    ensures bytes { out.new.items ≡ out.old.items ++ parameter mods.0 }
    ensures len { array_vec_len out.new ≡ array_vec_len out.old + 1 }
{
    decimal(out, 1 + mods.encode_xterm() as u32);
}

// ESC where ALT is held.
pub fn escape_for_alt(mods: Modifiers) -> Sequence
    ensures bytes { result.items ≡ escaped mods.0 }
    ensures len { array_vec_len result ≤ 1 }
{
    if mods.contains(Modifiers::ALT) {
        written(b"\x1b")
    } else {
        Sequence::new()
    }
}
