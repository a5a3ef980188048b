// Where events go.
ghost use Rattle.std.specs.Prelude.{◌≡◌, true, false, Some, None, Option};
ghost use Rattle.events.specs.Told.{Told};
ghost use Rattle.events.specs.Events.{told};

use crate::event::InputEvent;

// Takes events or leaves them. `held` is what it holds, `offer` what it holds after an event, or none where it leaves it.
pub trait Sink {
    ghost Held: { Type 0 };

    ghost held: { Self → Held };

    ghost offer: { Held → Told → Option Held };

    // Whether the event is taken: a `bool`, since a sink that leaves an event is as it was and has nothing more to tell.
    fn take(&mut self, event: InputEvent<'_>) -> bool
        ensures after { result ≡ true → offer (held self.old) (told event.entry) ≡ Some (held self.new) }
        ensures stays { result ≡ false → (offer (held self.old) (told event.entry) ≡ None) × (self.new ≡ self.old) };
}
