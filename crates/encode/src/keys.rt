// Which key is sent in which form.
ghost use Rattle.encode.specs.Forms.{form_of, char_form};
ghost use Rattle.encode.specs.Encoding.{Reads};
ghost use Rattle.encode.specs.declared.form.Form.TheVariants.{Numbered};

use crate::form::{EncodeFault, Form};
use keycode::KeyCode;

// The form of a key, or what is wrong with its own number.
pub(crate) fn form_of(key: KeyCode) -> Result<Form, EncodeFault>
    ensures { Reads (form_of key) result }
{
    match key {
        KeyCode::Char(c) => char_form(c),
        KeyCode::Function(n) => function_form(n),
        KeyCode::Backspace => Ok(Form::KeyBackspace),
        KeyCode::Tab => Ok(Form::KeyTab),
        KeyCode::Enter => Ok(Form::KeyEnter),
        KeyCode::Escape => Ok(Form::KeyEscape),
        KeyCode::UpArrow => Ok(Form::Cursor(b'A')),
        KeyCode::DownArrow => Ok(Form::Cursor(b'B')),
        KeyCode::RightArrow => Ok(Form::Cursor(b'C')),
        KeyCode::LeftArrow => Ok(Form::Cursor(b'D')),
        KeyCode::Home | KeyCode::KeyPadHome => Ok(Form::Cursor(b'H')),
        KeyCode::End | KeyCode::KeyPadEnd => Ok(Form::Cursor(b'F')),
        KeyCode::ApplicationUpArrow => Ok(Form::Application(b'A')),
        KeyCode::ApplicationDownArrow => Ok(Form::Application(b'B')),
        KeyCode::ApplicationRightArrow => Ok(Form::Application(b'C')),
        KeyCode::ApplicationLeftArrow => Ok(Form::Application(b'D')),
        KeyCode::Insert => Ok(Form::Edit(2)),
        KeyCode::Delete => Ok(Form::Edit(3)),
        KeyCode::PageUp | KeyCode::KeyPadPageUp => Ok(Form::Edit(5)),
        KeyCode::PageDown | KeyCode::KeyPadPageDown => Ok(Form::Edit(6)),
        KeyCode::Numpad0 => Ok(Form::Edit(2)),
        KeyCode::Numpad3 => Ok(Form::Edit(6)),
        KeyCode::Numpad9 => Ok(Form::Edit(5)),
        KeyCode::Decimal => Ok(Form::Edit(3)),
        KeyCode::Numpad1 => Ok(Form::Keypad(b'F')),
        KeyCode::Numpad2 => Ok(Form::Keypad(b'B')),
        KeyCode::Numpad4 => Ok(Form::Keypad(b'D')),
        KeyCode::Numpad5 | KeyCode::KeyPadBegin => Ok(Form::Keypad(b'E')),
        KeyCode::Numpad6 => Ok(Form::Keypad(b'C')),
        KeyCode::Numpad7 => Ok(Form::Keypad(b'H')),
        KeyCode::Numpad8 => Ok(Form::Keypad(b'A')),
        _ => Ok(Form::Silent),
    }
}

// The form of a character. DEL and BS as characters are the keys that send them.
fn char_form(c: u32) -> Result<Form, EncodeFault>
    ensures { Reads (char_form c) result }
{
    match char::from_u32(c).ok_or(EncodeFault::NoScalar)? {
        '\x7f' => Ok(Form::Edit(3)),
        '\x08' => Ok(Form::KeyBackspace),
        c => Ok(Form::Typed(c)),
    }
}

// The form of a function key.
fn function_form(n: u8) -> Result<Form, EncodeFault>
    ensures { Reads (Numbered n) result }
{
    match n {
        1..=24 => Ok(Form::Numbered(n)),
        _ => Err(EncodeFault::NoFunction),
    }
}
