// Presses as lines of a script.
#![tactic(auto)]

ghost use Rattle.std.specs.Prelude.{◌≡◌, ◌≤◌, Ok};
ghost use Rattle.arrayvec.specs.ArrayVec.{array_vec_len};
ghost use Rattle.events.specs.Told.{key as key_told};
ghost use Rattle.keymap.specs.Stored.{value_of};
ghost use Rattle.lines.specs.Requests.{request_in};
ghost use Rattle.lines.specs.declared.request.Request.TheVariants.{Press};
ghost use Rattle.linewriter.specs.Lines.{line_of};
ghost use Rattle.words.specs.Words.{verb_words, key_words};
ghost use Rattle.press_lines.specs.Presses.{as_press, unsided};

use keycode::KeyEvent;
use linewriter::key_line;
use writer::{Buf, extend, written};

// The most bytes of a press as a line of a script.
pub const LONGEST: usize = 41;

// A press as a line of a script, without an LF: its own line, with press in place of key. Read by the verbs and the names of
// the script language, it asks for the same press, less the modifiers that name a side.
pub fn press_line(event: KeyEvent) -> Buf
    ensures value { result.items ≡ as_press (line_of (key_told event)) }
    ensures back { request_in (value_of verb_words) (value_of key_words) (result.items) ≡ Ok (Press (unsided event)) }
    ensures len { array_vec_len result ≤ 41 }
{
    let whole = key_line(event);
    let line = whole.as_slice();
    let mut out = written(b"press");
    extend(&mut out, &line[3..line.len() - 1]);
    out
}
