// A sink over any sink.
ghost use Rattle.events_tests.specs.Passing.{passing};

use events::{InputEvent, Sink};

// Takes reports and lets them go; hands all other events on.
#[derive(Drop)]
pub struct WithoutReports<S> {
    pub inner: S,
}

impl<S: Sink> Sink for WithoutReports<S> {
    ghost Held = { S.Sink.Held };

    ghost held = { λ s. S.Sink.held s.inner };

    ghost offer = { passing S.Sink.offer };

    fn take(&mut self, event: InputEvent<'_>) -> bool {
        match event {
            InputEvent::Report(_) => true,
            _ => self.inner.take(event),
        }
    }
}
