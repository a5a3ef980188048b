// The bytes of a character.
ghost use Rattle.std.specs.Prelude.{◌≡◌, ◌<◌, ◌≤◌};
ghost use Rattle.arrayvec.specs.ArrayVec.{array_vec_len};
ghost use Rattle.character.specs.Typed.{control_of, traditionally, by_route, other_key, keeps, shifted, unshown, typed};
ghost use Rattle.character.specs.declared.level.Route.TheVariants.{Unicode, Numbered};

use crate::control::{ctrl_code, is_graphic, is_lower, owns_shift};
use crate::level::Route;
use crate::modes::{is_claimed, route};
use crate::parts::{Sequence, escape_for_alt, push_parameter};
use crate::point::CodePoint;
use keycode::{KeyCodeEncodeModes, Modifiers};
use writer::{decimal, utf8, written};

// SHIFT makes an uppercase letter of a lowercase one.
fn normalize_shift_to_upper_case(c: CodePoint, mods: Modifiers) -> CodePoint
    ensures { result.number ≡ shifted c.number mods.0 }
{
    if mods.contains(Modifiers::SHIFT) && is_lower(c.number) {
        CodePoint {
            number: c.number - 32,
        }
    } else {
        c
    }
}

// SHIFT is dropped where the character shows it.
fn drop_shown_shift(c: u32, mods: Modifiers) -> Modifiers
    ensures { result.0 ≡ unshown c mods.0 }
{
    if mods.contains(Modifiers::SHIFT) && owns_shift(c) {
        mods.remove(Modifiers::SHIFT)
    } else {
        mods
    }
}

// The control character of a press, if CTRL is held and there is one.
fn control_of(c: u32, mods: Modifiers) -> Option<u8>
    ensures { result ≡ control_of c mods.0 }
{
    if mods.contains(Modifiers::CTRL) {
        ctrl_code(c)
    } else {
        None
    }
}

// Whether a press keeps the form that terminals have always sent.
fn keeps_its_form(c: u32, mods: Modifiers, modes: KeyCodeEncodeModes) -> bool
    ensures { result ≡ keeps c mods.0 modes }
{
    let ctrl = mods.contains(Modifiers::CTRL);
    if ctrl && is_claimed(c, modes) {
        return false;
    }
    if ctrl && ctrl_code(c).is_some() {
        return true;
    }
    if mods.contains(Modifiers::ALT) && is_graphic(c) {
        return true;
    }
    mods.is_empty()
}

// ESC for ALT, then the control character under CTRL, else the character.
#[tactic(auto, unfolding(crate::specs::Typed::traditionally))]
fn traditionally(c: CodePoint, mods: Modifiers) -> Sequence
    ensures bytes { result.items ≡ traditionally c.number mods.0 }
    ensures len { array_vec_len result ≤ 15 }
{
    let mut out = escape_for_alt(mods);
    match control_of(c.number, mods) {
        Some(k) => out.push(k),
        None => utf8(&mut out, c.number),
    }
    out
}

// CSI c ; n u
#[tactic(auto, using(writer::proofs::Digits::dec_scalar))]
fn unicode(c: CodePoint, mods: Modifiers) -> Sequence
    ensures bytes { result.items ≡ by_route Unicode c.number mods.0 }
    ensures len { array_vec_len result ≤ 15 }
{
    let mut out = written(b"\x1b[");
    decimal(&mut out, c.number);
    out.push(b';');
    push_parameter(&mut out, mods);
    out.push(b'u');
    out
}

// CSI 27 ; n ; c ~
#[tactic(auto, using(writer::proofs::Digits::dec_scalar))]
fn numbered(c: CodePoint, mods: Modifiers) -> Sequence
    ensures bytes { result.items ≡ by_route Numbered c.number mods.0 }
    ensures len { array_vec_len result ≤ 15 }
{
    let mut out = written(b"\x1b[27;");
    push_parameter(&mut out, mods);
    out.push(b';');
    decimal(&mut out, c.number);
    out.push(b'~');
    out
}

// A modified character, as the modes ask. `mods` and `modes` stay two arguments, here and in `encode`: on the way to the bytes
// the modifiers change, and the modes do not.
#[tactic(auto, unfolding(crate::specs::Typed::other_key))]
pub fn csi_u_encode(c: CodePoint, mods: Modifiers, modes: KeyCodeEncodeModes) -> Sequence
    ensures bytes { result.items ≡ other_key c.number mods.0 modes }
    ensures len { array_vec_len result ≤ 15 }
{
    match route(c.number, modes) {
        Route::Unicode => unicode(c, mods),
        Route::Numbered => numbered(c, mods),
        Route::Traditional => traditionally(c, mods),
    }
}

// A character under its modifiers.
#[tactic(auto, unfolding(crate::specs::Typed::typed))]
pub fn encode_character(c: CodePoint, mods: Modifiers, modes: KeyCodeEncodeModes) -> Sequence
    ensures bytes { result.items ≡ typed c.number mods.0 modes }
    ensures len { array_vec_len result ≤ 15 }
{
    let c = normalize_shift_to_upper_case(c, mods);
    let mods = drop_shown_shift(c.number, mods);
    if keeps_its_form(c.number, mods, modes) {
        traditionally(c, mods)
    } else {
        csi_u_encode(c, mods, modes)
    }
}
