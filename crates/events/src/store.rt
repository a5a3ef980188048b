// Events stored.
ghost use Rattle.std.specs.Prelude.{◌≡◌, ◌+◌, ◌≤◌, [], ◌++◌, length, take};
ghost use Rattle.events.specs.Told.{text_of};
ghost use Rattle.events.specs.Events.{told};
ghost use Rattle.events.specs.Records.{record_at};
ghost use Rattle.events.specs.Queues.{Holding, empty, held_by, queue_offer};

use crate::event::InputEvent;
use crate::queue::Queue;
use crate::sink::Sink;
use crate::stored::Record;
use crate::texts::Texts;

// What stands in a record that holds no event.
const NONE: Record = Record::Paste(0, 0);

impl<const R: usize, const T: usize> Queue<R, T> {
    pub fn new() -> Self
        ensures { held_by result ≡ empty R T }
    {
        Queue {
            records: [NONE; R],
            count: 0,
            texts: Texts { bytes: [0; T] },
            used: 0,
        }
    }

    // Lets all events go; nothing is written over them.
    pub fn clear(&mut self)
        ensures { held_by self.new ≡ empty R T }
    {
        self.count = 0;
        self.used = 0;
    }
}

// The text of an event, empty where it has none.
fn text_of<'a>(event: InputEvent<'a>) -> &'a [u8]
    ensures { result.now ≡ text_of (told event.entry) }
{
    match event {
        InputEvent::Paste(text) => text,
        _ => &[],
    }
}

// The record of an event whose text starts at a place.
fn record_of(event: InputEvent<'_>, start: usize) -> Record
    ensures { result ≡ record_at start (told event.entry) }
{
    match event {
        InputEvent::Key(key) => Record::Key(key),
        InputEvent::Paste(text) => Record::Paste(start, text.len()),
        InputEvent::Report(report) => Record::Report(report),
    }
}

impl<const T: usize> Texts<T> {
    // Writes a text at a place.
    fn put(&mut self, start: usize, text: &[u8])
        requires { start + length text.now ≤ T }
        ensures { take (start + length text.now) self.new.bytes ≡ take start self.old.bytes ++ text.now }
    {
        let bytes = &mut self.bytes[..];
        bytes[start..start + text.len()].copy_from_slice(text);
    }
}

impl<const R: usize, const T: usize> Sink for Queue<R, T> {
    ghost Held = { Holding };

    ghost held = { held_by };

    ghost offer = { queue_offer };

    fn take(&mut self, event: InputEvent<'_>) -> bool {
        let text = text_of(event);
        if self.count == R || text.len() > T - self.used {
            return false;
        }
        let start = self.used;
        self.texts.put(start, text);
        self.used = start + text.len();
        self.records[self.count] = record_of(event, start);
        self.count += 1;
        true
    }
}
