// Lines written behind one another.
ghost use Rattle.std.specs.Prelude.{◌≡◌, ℕ, ◌+◌, ◌*◌, ◌<◌, ◌≤◌, true, false, List, [], ◌∷◌, ◌++◌, length, Some, None};
ghost use Rattle.events.specs.Told.{paste as paste_told};
ghost use Rattle.writer.specs.Numbers.{hex_of};
ghost use Rattle.linewriter.specs.Lines.{line_of, behind, line_offer};
ghost use Rattle.linewriter.specs.Output.{so_far};

use crate::line::{key_line, report_line};
use crate::output::{CAPACITY, LineWriter};
use events::{InputEvent, Sink};
use writer::hex_digit;

// The bytes of the line of an empty text: paste, a tab and the LF.
const PASTE_FRAME: usize = 7;

impl LineWriter {
    pub fn new() -> Self
        ensures { so_far result ≡ [] }
    {
        LineWriter {
            bytes: [0; CAPACITY],
            len: 0,
        }
    }

    // The lines so far.
    pub fn as_slice(&self) -> &[u8]
        ensures { result.now ≡ so_far self.now }
    {
        &self.bytes[0..self.len]
    }

    // Lets all lines go.
    pub fn clear(&mut self)
        ensures { so_far self.new ≡ [] }
    {
        self.len = 0;
    }

    // One byte.
    fn push(&mut self, b: u8)
        requires { self.old.len < 16384 }
        ensures bytes { so_far self.new ≡ so_far self.old ++ (b ∷ []) }
        ensures len { self.new.len ≡ self.old.len + 1 }
    {
        self.bytes[self.len] = b;
        self.len += 1;
    }

    // All bytes of a text.
    fn extend(&mut self, text: &[u8])
        requires { self.old.len + length text.now ≤ 16384 }
        ensures bytes { so_far self.new ≡ so_far self.old ++ text.now }
        ensures len { self.new.len ≡ self.old.len + length text.now }
    {
        let end = self.len + text.len();
        self.bytes[self.len..end].copy_from_slice(text);
        self.len = end;
    }

    // Bytes in hexadecimal.
    fn hex(&mut self, text: &[u8])
        requires { self.old.len + 2 * length text.now ≤ 16384 }
        ensures bytes { so_far self.new ≡ so_far self.old ++ hex_of text.now }
        ensures len { self.new.len ≡ self.old.len + 2 * length text.now }
    {
        for b in text {
            self.push(hex_digit(*b / 16));
            self.push(hex_digit(*b % 16));
        }
    }

    // A whole line, if it fits.
    fn write(&mut self, line: &[u8]) -> bool
        ensures after { result ≡ true → behind (so_far self.old) line.now ≡ Some (so_far self.new) }
        ensures stays { result ≡ false → (behind (so_far self.old) line.now ≡ None) × (self.new ≡ self.old) }
    {
        if line.len() > CAPACITY - self.len {
            return false;
        }
        self.extend(line);
        true
    }

    // The line of a pasted text, if it fits.
    fn write_paste(&mut self, text: &[u8]) -> bool
        ensures after { result ≡ true → behind (so_far self.old) (line_of (paste_told text.now)) ≡ Some (so_far self.new) }
        ensures stays { result ≡ false → (behind (so_far self.old) (line_of (paste_told text.now)) ≡ None) × (self.new ≡ self.old) }
    {
        let room = CAPACITY - self.len;
        if text.len() > room || 2 * text.len() + PASTE_FRAME > room {
            return false;
        }
        self.extend(b"paste\t");
        self.hex(text);
        self.push(b'\n');
        true
    }
}

impl Sink for LineWriter {
    ghost Held = { List ℕ };

    ghost held = { so_far };

    ghost offer = { line_offer };

    fn take(&mut self, event: InputEvent<'_>) -> bool {
        match event {
            InputEvent::Key(key) => self.write(key_line(key).as_slice()),
            InputEvent::Paste(text) => self.write_paste(text),
            InputEvent::Report(report) => self.write(report_line(report).as_slice()),
        }
    }
}
