// What the modes ask for.
ghost use Rattle.std.specs.Prelude.{◌≡◌};
ghost use Rattle.character.specs.Typed.{level_of, level_route, route_of, claimed};

use crate::control::{is_ambiguous_ascii_ctrl, is_upper, is_well_known};
use crate::level::{Level, Route};
use keycode::{KeyCodeEncodeModes, KeyboardEncoding};

// The level of modifyOtherKeys: 0 counts as absent. No `From`: an `Option<i64>` may be
// many things, and this name says which.
pub fn level_of(value: Option<i64>) -> Level
    ensures { result ≡ level_of value }
{
    match value {
        None | Some(0) => Level::Off,
        Some(1) => Level::One,
        Some(2) => Level::Two,
        Some(_) => Level::Other,
    }
}

fn level_route(level: Level, c: u32) -> Route
    ensures { result ≡ level_route level c }
{
    match level {
        Level::Off => Route::Traditional,
        Level::One if is_well_known(c) => Route::Traditional,
        Level::One | Level::Two | Level::Other => Route::Numbered,
    }
}

// How a modified character is sent.
pub(crate) fn route(c: u32, modes: KeyCodeEncodeModes) -> Route
    ensures { result ≡ route_of c modes }
{
    if matches!(modes.encoding, KeyboardEncoding::CsiU) && c < 0x80 {
        Route::Unicode
    } else {
        level_route(level_of(modes.modify_other_keys), c)
    }
}

// Whether CTRL with this character is sent as a modified character, whatever its control character.
pub(crate) fn is_claimed(c: u32, modes: KeyCodeEncodeModes) -> bool
    ensures { result ≡ claimed c modes }
{
    if matches!(modes.encoding, KeyboardEncoding::CsiU) && is_ambiguous_ascii_ctrl(c) {
        return true;
    }
    is_upper(c) || level_of(modes.modify_other_keys) == Level::Two
}
