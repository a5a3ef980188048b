// Events, made by public calls that stay as they are; a `From` beside them would be another way to write the same variant.
ghost use Rattle.std.specs.Prelude.{◌≡◌};
ghost use Rattle.events.specs.Told.{key, paste, report as reported};
ghost use Rattle.events.specs.Events.{told};

use crate::event::{InputEvent, Report};
use keycode::KeyEvent;

// A press.
pub fn key_event(event: KeyEvent) -> InputEvent<'static>
    ensures { told result ≡ key event }
{
    InputEvent::Key(event)
}

// A pasted text.
pub fn paste_event<'a>(text: &'a [u8]) -> InputEvent<'a>
    ensures { told result ≡ paste text.now }
{
    InputEvent::Paste(text)
}

// A report.
pub fn report_event(report: Report) -> InputEvent<'static>
    ensures { told result ≡ reported report }
{
    InputEvent::Report(report)
}
