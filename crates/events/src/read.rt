// Events read back.
ghost use Rattle.std.specs.Prelude.{◌≡◌, ◌≤◌, length};
ghost use Rattle.std.specs.List.{slice_get};
ghost use Rattle.std.specs.Option.{option_map};
ghost use Rattle.events.specs.Events.{told};
ghost use Rattle.events.specs.Records.{end_of, told_of};
ghost use Rattle.events.specs.Queues.{held_by};

use crate::event::InputEvent;
use crate::queue::Queue;
use crate::stored::Record;

// The event of a record, its text a part of these bytes.
fn event_of<'a>(kept: Record, text: &'a [u8]) -> InputEvent<'a>
    requires { end_of kept ≤ length text.now }
    ensures { told result ≡ told_of text.now kept }
{
    match kept {
        Record::Key(event) => InputEvent::Key(event),
        Record::Paste(start, len) => InputEvent::Paste(&text[start..start + len]),
        Record::Report(report) => InputEvent::Report(report),
    }
}

impl<const R: usize, const T: usize> Queue<R, T> {
    // How many events it holds.
    pub fn len(&self) -> usize
        ensures { result ≡ length (held_by self.now).taken }
    {
        self.count
    }

    // The event at a place, from 0 for the first that was taken.
    pub fn get(&self, i: usize) -> Option<InputEvent<'_>>
        ensures { option_map told result ≡ slice_get (held_by self.now).taken i }
    {
        if i >= self.count {
            return None;
        }
        let record = self.records[i];
        Some(event_of(record, &self.texts.bytes[..]))
    }
}
