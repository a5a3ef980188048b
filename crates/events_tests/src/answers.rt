// Events and what recognisers see, made.
use events::{InputEvent, Report, Seen};
use keycode::{KeyCode, KeyEvent, Modifiers};

// A press.
pub(crate) fn press(key: KeyCode, mods: u16) -> InputEvent<'static> {
    InputEvent::Key(KeyEvent {
        key,
        modifiers: Modifiers(mods),
    })
}

// A report.
pub(crate) fn report(kind: u16, first: u16, second: u16) -> InputEvent<'static> {
    InputEvent::Report(Report {
        kind,
        first,
        second,
    })
}

// A report of focus that was found in three bytes.
pub(crate) fn found(came: u16) -> Seen {
    Seen::Found(
        3,
        Report {
            kind: 1,
            first: came,
            second: 0,
        },
    )
}
