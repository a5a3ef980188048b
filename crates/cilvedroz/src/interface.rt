// The function that C calls.
ghost use Rattle.std.specs.Prelude.{◌≡◌};
ghost use Rattle.cilvedroz.specs.Answers.{told, answer};

use crate::answer::{NO_SUCH, answer_of};
use crate::arguments::{encoding_of, key_of, modes_of, modifiers_of};
use encode::encode;

// The bytes of a press to the front of `out`, and their count; or minus the number of a refusal, or -100.
#[unsafe(no_mangle)]
pub extern "C" fn cilvedroz_encode(
    place: u32,
    number: u32,
    modifiers: u32,
    encoding: u32,
    application_cursor_keys: u32,
    newline_mode: u32,
    other_given: u32,
    other: i64,
    is_down: u32,
    out: &mut [u8],
) -> i32
    ensures { told result out.new ≡ answer place number modifiers encoding application_cursor_keys newline_mode other_given other is_down out.old }
{
    if is_down == 0 {
        return 0;
    }
    let Some(key) = key_of(place, number) else {
        return NO_SUCH;
    };
    let Some(encoding) = encoding_of(encoding) else {
        return NO_SUCH;
    };
    let modes = modes_of(
        encoding,
        application_cursor_keys,
        newline_mode,
        other_given,
        other,
    );
    answer_of(encode(key, modifiers_of(modifiers), modes, true, out))
}
